// The goals that are asked for.
ghost use Rattle.std.specs.Prelude.{◌≡◌, ◌≤◌, IfErr, IfOk, Some, length, option_map};
ghost use Rattle.std.specs.List.{AllZip};
ghost use Rattle.unroll_binding.specs.Binding.{Fits};
ghost use Rattle.meet_lines.specs.Goals.{Asks, IsGoalOf, LacksLine, has_name};
ghost use Rattle.meet_lines.specs.Lines.{SpeaksOf, meet_lines};
ghost use Rattle.meet_lines.specs.Segments.{AreSegments};
ghost use Rattle.twin_tests.specs.Reading.{HasStructure};
ghost use Rattle.word_dag.specs.Adding.{Keeps};
ghost use Rattle.elab_step_design.specs.Designs.{IsDesign, Parts};
ghost use Rattle.word_dag.specs.Names.{HasOneWidthEach};

use crate::line::{MeetLine, meet_lines_of, meet_name};
use crate::node::line_node;
use crate::segments::{Segments, segments_of};
use desk_core_goals::{LineFault, only};
use outside::Text;
use proof_store::Goal;
use set_tree::Set;
use std::alloc::{AllocError, Global};
use unroll_binding::Bound;
use word_dag::{Dag, extract};

// The goal of a line.
fn goal_of(
    alloc: Global,
    dag: &mut Dag,
    set: &Set,
    line: MeetLine,
    segments: &Segments,
) -> Result<Goal<MeetLine>, AllocError>
    requires structure { HasStructure set.now }
    requires line { SpeaksOf set.now line }
    requires segments { (d : Parts) × AreSegments d set.now dag.old segments.now }
    requires words { HasOneWidthEach dag.old }
    ensures keeps { IfOk result (λ _. Keeps dag.old dag.new) }
    ensures goal { IfOk result (λ goal. (d : Parts) → IsDesign d → Fits d set.now →
        AreSegments d set.now dag.old segments.now → IsGoalOf d set.now line goal) }
{
    let root = line_node(alloc, dag, set, line, segments)?;
    let ob = extract(alloc, dag, root)?;
    Ok(Goal { line, ob })
}

/// The goals of all lines, in the order of the set, which has at most 64 operations.
pub(crate) fn all_goals(alloc: Global, bound: &Bound) -> Result<Vec<Goal<MeetLine>>, AllocError>
    ensures each { IfOk result (λ goals. AllZip (IsGoalOf bound.now.design bound.now.set)
        (meet_lines bound.now.set) goals.items) }
    ensures few { IfOk result (λ goals. length goals.items ≤ 65) }
{
    // the nodes of a design fit
    let _fit = bound.design().dag();
    let set = bound.set().set();
    let lines = meet_lines_of(alloc, bound.set())?;
    let mut dag = Dag::new(alloc);
    let segments = segments_of(alloc, &mut dag, bound)?;
    let mut goals = Vec::with_capacity(alloc, lines.len())?;
    for line in &lines {
        let goal = goal_of(alloc, &mut dag, set, *line, &segments)?;
        goals.push(goal)?;
    }
    Ok(goals)
}

// Whether a line has this name.
fn has_name(alloc: Global, set: &Set, line: MeetLine, name: &[u8]) -> Result<bool, AllocError>
    requires { SpeaksOf set.now line }
    ensures { IfOk result (λ b. b ≡ has_name set.now name.now line) }
{
    let own = meet_name(alloc, set, line)?;
    Ok(own.bytes() == name)
}

// The goal of the line of this name.
fn one_goal(alloc: Global, bound: &Bound, name: &Text) -> Result<Vec<Goal<MeetLine>>, LineFault>
    ensures ok { IfOk result (λ goals. Asks bound.now (Some name.now) goals.items) }
    ensures few { IfOk result (λ goals. length goals.items ≤ 65) }
    ensures err { IfErr result (LacksLine bound.now.set (Some name.now)) }
{
    let set = bound.set().set();
    let all = all_goals(alloc, bound)?;
    for goal in all {
        if has_name(alloc, set, goal.line, name.bytes())? {
            return Ok(only(alloc, goal)?);
        }
    }
    Err(LineFault::NoLine)
}

/// The goals that are asked for: the one of the line of this name, or all, in the order of the set.
pub(crate) fn asked_goals(
    alloc: Global,
    bound: &Bound,
    name: Option<&Text>,
) -> Result<Vec<Goal<MeetLine>>, LineFault>
    ensures ok { IfOk result (λ goals. Asks bound.now (option_map (λ n. n.now) name.entry) goals.items) }
    ensures few { IfOk result (λ goals. length goals.items ≤ 65) }
    ensures err { IfErr result (LacksLine bound.now.set (option_map (λ n. n.now) name.entry)) }
{
    match name {
        None => Ok(all_goals(alloc, bound)?),
        Some(name) => one_goal(alloc, bound, name),
    }
}
