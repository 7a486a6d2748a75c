// The clauses of a line's obligation.
ghost use Rattle.std.specs.Prelude.{◌≡◌, IfErr, IfOk};
ghost use Rattle.desk_core_goals.specs.Asked.{LacksName};
ghost use Rattle.desk_core_goals.specs.Keeping.{IsClausesText};

use crate::{LineFault, goal_named};
use clause_check_texts::dimacs;
use cnf_build::build;
use outside::Text;
use std::alloc::Global;
use unroll_binding::Bound;

/// The clauses of the obligation of the line of this name, in DIMACS: an assignment that holds refutes the line, and
/// where there is none the line is proved. Refused where the set's report has no such line, or where memory runs out.
pub fn clauses_text(alloc: Global, bound: &Bound, name: &Text) -> Result<Text, LineFault>
    ensures ok { IfOk result (IsClausesText bound.now name.now) }
    ensures err { IfErr result (LacksName bound.now.set name.now) }
{
    let goal = goal_named(alloc, bound, name)?;
    let built = build(alloc, &goal.ob)?;
    Ok(dimacs(alloc, &built.cnf)?)
}
