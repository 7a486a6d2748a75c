// What is shown of refuted lines.
ghost use Rattle.std.specs.Prelude.{◌≡◌, ℕ, IfOk};
ghost use Rattle.word_dag.specs.declared.ob.Named.{Named};
ghost use Rattle.word_dag.specs.Names.{naming_from};
ghost use Rattle.job_pool.specs.Shown.{AreWitness, IsShown};
ghost use Rattle.desk_core_goals.specs.Obligations.{IsObOf};
ghost use Rattle.desk_core_goals.specs.Traces.{IsTraceOf, ShowsLine};

use crate::{Kind, kind_of};
use job_pool::Evidence;
use replay::{Shown, replay, twin_trace};
use set_tree::Line;
use std::alloc::{AllocError, Global};
use unroll_binding::Bound;
use word_dag::Ob;

// What is shown of a line that values refute.
fn shown_of(
    alloc: Global,
    bound: &Bound,
    line: Line,
    ob: &Ob,
    values: &[u64],
) -> Result<Shown, AllocError>
    requires ob { (named : Named) × IsObOf bound.now line named × (named.ob ≡ ob.now) }
    requires witness { AreWitness ob.now values.now }
    ensures { IfOk result (ShowsLine bound.now line (naming_from ob.now.nodes values.now)) }
{
    match kind_of(line) {
        Kind::Design(line) => replay(alloc, bound, line, ob, values),
        Kind::Set(line) => twin_trace(alloc, bound.set(), line, ob, values),
    }
}

/// What is shown of a line, where its evidence refutes it.
pub(crate) fn trace_of(
    alloc: Global,
    bound: &Bound,
    line: Line,
    ob: &Ob,
    evidence: &Evidence,
) -> Result<Option<Shown>, AllocError>
    requires ob { (named : Named) × IsObOf bound.now line named × (named.ob ≡ ob.now) }
    requires shown { (budget : ℕ) × IsShown budget ob.now evidence.now }
    ensures { IfOk result (IsTraceOf bound.now line ob.now evidence.now) }
{
    match evidence {
        Evidence::Values(values) => {
            let shown = shown_of(alloc, bound, line, ob, values.as_slice())?;
            Ok(Some(shown))
        }
        Evidence::Derivation(_) | Evidence::Chain(_) => Ok(None),
    }
}
