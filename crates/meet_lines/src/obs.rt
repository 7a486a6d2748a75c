// The obligations of what can be met.
ghost use Rattle.std.specs.Prelude.{IfOk};
ghost use Rattle.std.specs.List.{AllZip};
ghost use Rattle.meet_lines.specs.Lines.{meet_lines};
ghost use Rattle.meet_lines.specs.Named.{IsNamedOf};

use crate::goals::all_goals;
use crate::line::meet_name;
use proof_store::Goal;
use std::alloc::{AllocError, Global};
use unroll_binding::Bound;
use word_dag::Named;

/// The obligations of what can be met: for `reset`, and then for each operation in the order of the set, its name, and
/// nodes whose root is 1 exactly at values whose segment meets the line, no two free words of which have one name and
/// cycle. The free words are the registers' in a segment's first cycle and the inputs' in each of its cycles, the reset
/// cycles among them; the reset is a constant.
pub fn meet_obs(alloc: Global, bound: &Bound) -> Result<Vec<Named>, AllocError>
    ensures { IfOk result (λ obs. AllZip (IsNamedOf bound.now.design bound.now.set)
        (meet_lines bound.now.set) obs.items) }
{
    let set = bound.set().set();
    let goals = all_goals(alloc, bound)?;
    let mut obs = Vec::with_capacity(alloc, goals.len())?;
    for goal in goals {
        let Goal { line, ob } = goal;
        let name = meet_name(alloc, set, line)?;
        obs.push(Named { name, ob })?;
    }
    Ok(obs)
}
