// What standard error is to say while lines are decided, and at the end.
use crate::files::read_again;
use desk_core_commands::Which;
use desk_core_goals::all_lines;
use desk_core_stages::bound_of;
use set_tree::Line;
use signoff_objects::Told;
use signoff_words::{Command, Job, Task, command_in};
use std::alloc::{AllocError, Global};
use std::io::IsTerminal;
use unroll_binding::Bound;

/// What is to be said while lines are decided, and whether there is a summary.
#[derive(Clone, Copy)]
pub struct Wish {
    pub told: Told,
    pub summary: bool,
}

/// With `--progress` how many of the lines that are asked for were handed to workers, and a summary; on a terminal how
/// many were; else nothing.
pub fn wish_of(rt: &HostRuntime, words: &[String]) -> Wish {
    let mut told = Told::Nothing;
    let mut summary = false;
    if let Ok(Some(Command::Texts(job))) = command_in(rt.alloc(), words) {
        if job.progress {
            told = told_of(rt, &job);
            summary = true;
        } else if rt.stderr().is_terminal() {
            told = Told::Handed;
        }
    }
    Wish { told, summary }
}

fn told_of(rt: &HostRuntime, job: &Job) -> Told {
    match lines_asked(rt, job) {
        Ok(Some(all)) => Told::HandedOf(all),
        _ => Told::Handed,
    }
}

// How many lines a job asks for; none where the texts aren't there or are refused.
fn lines_asked(rt: &HostRuntime, job: &Job) -> Result<Option<usize>, AllocError> {
    if asks_one(&job.task) {
        return Ok(Some(1));
    }
    let alloc = rt.alloc();
    let Some(read) = read_again(rt, job)? else {
        return Ok(None);
    };
    match bound_of(alloc, &read.module, &read.set) {
        Ok(bound) => {
            let count = count_asked(alloc, &bound, &job.task);
            // calls, since a proof would write out the drops of all trees here
            drop(bound);
            Ok(Some(count?))
        }
        Err(fault) => {
            drop(fault);
            Ok(None)
        }
    }
}

fn asks_one(task: &Task) -> bool {
    matches!(
        task,
        Task::Decide(Which::One(_) | Which::Least(_))
            | Task::Wave(_)
            | Task::Accept(_)
            | Task::Meet(Some(_))
    )
}

fn count_asked(alloc: Global, bound: &Bound, task: &Task) -> Result<usize, AllocError> {
    let lines = all_lines(alloc, bound)?;
    Ok(match task {
        Task::Decide(Which::Ops) => lines.iter().filter(|line| is_of_design(**line)).count(),
        Task::Meet(_) => bound
            .set()
            .set()
            .operations
            .as_slice()
            .len()
            .saturating_add(1),
        _ => lines.len(),
    })
}

// Whether a line is about the block alone.
fn is_of_design(line: Line) -> bool {
    matches!(
        line,
        Line::Base(_) | Line::Step(_) | Line::Reset | Line::Operation(_)
    )
}
