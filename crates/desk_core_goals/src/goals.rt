// The goals that are asked for.
ghost use Rattle.std.specs.Prelude.{◌≡◌, ◌∷◌, [], map, IfErr, IfOk};
ghost use Rattle.std.specs.List.{AllZip, position};
ghost use Rattle.set_tree.specs.Report.{design_lines, set_lines};
ghost use Rattle.twin_tests.specs.Ordering.{line_of as set_line_of};
ghost use Rattle.unroll.specs.Named.{line_of as design_line_of};
ghost use Rattle.desk_core_goals.specs.Obligations.{IsObOf, all_lines};
ghost use Rattle.desk_core_goals.specs.Asked.{AreGoalsOf, Asks, AsksOne, IsGoalNamed, LacksLine, LacksName, has_name};

use crate::fault::LineFault;
use crate::{ob_of_line, obs_of_all, obs_of_design};
use desk_core_commands::Which;
use outside::Text;
use proof_store::Goal;
use set_tree::{Line, Set};
use std::alloc::{AllocError, Global};
use twin_tests::{SetLine, lines_of as lines_of_set};
use twin_tests_laws::line_name;
use unroll::{DesignLine, lines_of as lines_of_design};
use unroll_binding::Bound;
use word_dag::Named;

// Lines on the design as lines of a report.
fn told_of_design(alloc: Global, lines: &[DesignLine]) -> Result<Vec<Line>, AllocError>
    ensures { IfOk result (λ all. all.items ≡ map design_line_of lines.now) }
{
    let mut all = Vec::with_capacity(alloc, lines.len())?;
    for line in lines {
        all.push(line.line())?;
    }
    Ok(all)
}

// Lines on the set as lines of a report.
fn told_of_set(alloc: Global, lines: &[SetLine]) -> Result<Vec<Line>, AllocError>
    ensures { IfOk result (λ all. all.items ≡ map set_line_of lines.now) }
{
    let mut all = Vec::with_capacity(alloc, lines.len())?;
    for line in lines {
        all.push(line.line())?;
    }
    Ok(all)
}

// The lines on the design, in the order of a report.
fn design_lines(alloc: Global, bound: &Bound) -> Result<Vec<Line>, AllocError>
    ensures { IfOk result (λ lines. lines.items ≡ design_lines bound.now.set) }
{
    let lines = lines_of_design(alloc, bound.set().set())?;
    told_of_design(alloc, lines.as_slice())
}

// The lines on the set, in the order of a report.
fn set_lines(alloc: Global, bound: &Bound) -> Result<Vec<Line>, AllocError>
    ensures { IfOk result (λ lines. lines.items ≡ set_lines bound.now.set) }
{
    let lines = lines_of_set(alloc, bound.set().set())?;
    told_of_set(alloc, lines.as_slice())
}

/// All lines, in the order of a report.
pub fn all_lines(alloc: Global, bound: &Bound) -> Result<Vec<Line>, AllocError>
    ensures { IfOk result (λ lines. lines.items ≡ all_lines bound.now.set) }
{
    let mut lines = design_lines(alloc, bound)?;
    let mut more = set_lines(alloc, bound)?;
    lines.append(&mut more)?;
    Ok(lines)
}

// Lines with their obligations, which come in the same order.
fn joined(
    alloc: Global,
    bound: &Bound,
    lines: &[Line],
    obs: Vec<Named>,
) -> Result<Vec<Goal<Line>>, AllocError>
    requires { AllZip (IsObOf bound.now) lines.now obs.items }
    ensures { IfOk result (λ goals. AreGoalsOf bound.now lines.now goals.items) }
{
    let mut goals = Vec::with_capacity(alloc, obs.len())?;
    for named in obs {
        let Named { ob, .. } = named;
        let line = lines[goals.len()];
        goals.push(Goal { line, ob })?;
    }
    Ok(goals)
}

// A goal for each line on the design.
fn design_goals(alloc: Global, bound: &Bound) -> Result<Vec<Goal<Line>>, AllocError>
    ensures { IfOk result (λ goals. AreGoalsOf bound.now (design_lines bound.now.set) goals.items) }
{
    let lines = design_lines(alloc, bound)?;
    let obs = obs_of_design(alloc, bound)?;
    joined(alloc, bound, lines.as_slice(), obs)
}

// A goal for each line.
fn all_goals(alloc: Global, bound: &Bound) -> Result<Vec<Goal<Line>>, AllocError>
    ensures { IfOk result (λ goals. AreGoalsOf bound.now (all_lines bound.now.set) goals.items) }
{
    let lines = all_lines(alloc, bound)?;
    let obs = obs_of_all(alloc, bound)?;
    joined(alloc, bound, lines.as_slice(), obs)
}

// Whether a line has this name.
fn has_name(alloc: Global, set: &Set, line: Line, name: &[u8]) -> Result<bool, AllocError>
    ensures { IfOk result (λ b. b ≡ has_name set.now name.now line) }
{
    let own = line_name(alloc, set, line)?;
    Ok(own.bytes() == name)
}

/// A goal alone.
pub fn only<L: Drop>(alloc: Global, goal: Goal<L>) -> Result<Vec<Goal<L>>, AllocError>
    ensures { IfOk result (λ goals. goals.items ≡ goal ∷ []) }
{
    let mut goals = Vec::new(alloc);
    goals.push(goal)?;
    Ok(goals)
}

// The number of the first of these lines that has this name.
fn number_of(
    alloc: Global,
    set: &Set,
    lines: &[Line],
    name: &[u8],
) -> Result<Option<usize>, AllocError>
    ensures { IfOk result (λ number. number ≡ position (has_name set.now name.now) lines.now) }
{
    for (number, line) in lines.iter().enumerate() {
        if has_name(alloc, set, *line, name)? {
            return Ok(Some(number));
        }
    }
    Ok(None)
}

/// The goal of the line of this name; no other line's obligation is made. Refused where the set's report has no such
/// line, or where memory runs out.
pub fn goal_named(alloc: Global, bound: &Bound, name: &Text) -> Result<Goal<Line>, LineFault>
    ensures ok { IfOk result (IsGoalNamed bound.now name.now) }
    ensures err { IfErr result (LacksName bound.now.set name.now) }
{
    let lines = all_lines(alloc, bound)?;
    match number_of(alloc, bound.set().set(), lines.as_slice(), name.bytes())? {
        Some(number) => {
            let Named { ob, .. } = ob_of_line(alloc, bound, number)?;
            let line = lines[number];
            Ok(Goal { line, ob })
        }
        None => Err(LineFault::NoLine),
    }
}

// The goal of the line of this name alone.
fn one_goal(alloc: Global, bound: &Bound, name: &Text) -> Result<Vec<Goal<Line>>, LineFault>
    ensures ok { IfOk result (λ goals. AsksOne bound.now name.now goals.items) }
    ensures err { IfErr result (LacksName bound.now.set name.now) }
{
    let goal = goal_named(alloc, bound, name)?;
    Ok(only(alloc, goal)?)
}

/// The goals that are asked for, in the order of a report.
pub(crate) fn asked_goals(
    alloc: Global,
    bound: &Bound,
    which: &Which,
) -> Result<Vec<Goal<Line>>, LineFault>
    ensures ok { IfOk result (λ goals. Asks bound.now which.now goals.items) }
    ensures err { IfErr result (LacksLine bound.now.set which.now) }
{
    match which {
        Which::Ops => Ok(design_goals(alloc, bound)?),
        Which::All => Ok(all_goals(alloc, bound)?),
        Which::One(name) | Which::Least(name) => one_goal(alloc, bound, name),
    }
}
