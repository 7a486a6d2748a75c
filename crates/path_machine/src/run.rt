// The run from reset that rows of inputs give.
ghost use Rattle.std.specs.Prelude.{◌≡◌, ◌≤◌, drop, length, IfOk};
ghost use Rattle.std.specs.List.{All};
ghost use Rattle.replay.specs.Windows.{declared_names};
ghost use Rattle.set_tree.specs.Traces.{IsTrace};
ghost use Rattle.elab_step_design.specs.Laws.{word_design};
ghost use Rattle.path_machine.specs.Runs.{IsInputRow, IsRunTrace};

use crate::stimulus::{Stimulus, input_names};
use replay::{Trace, rows_of_source, trace_of};
use set_tree::Rows;
use std::alloc::{AllocError, Global};
use unroll_binding::Bound;

// The rows behind the first ones.
fn rows_after(
    alloc: Global,
    count: usize,
    rows: Rows<Rows<u64>>,
) -> Result<Rows<Rows<u64>>, AllocError>
    requires { count ≤ length rows }
    ensures { IfOk result (λ later. later ≡ drop count rows) }
{
    let mut all = rows.into_vec();
    let mut later = Rows::new(alloc);
    for row in all.split_off(count)? {
        later.push(row)?;
    }
    Ok(later)
}

/// The trace of the run from reset with these rows of inputs, one for each of its cycles, the reset cycles first. Its
/// registers are 0 at first, and its clock is 0 in every cycle. The rows of the reset cycles aren't part of the trace.
pub fn run_trace(alloc: Global, bound: &Bound, rows: &Rows<Rows<u64>>) -> Result<Trace, AllocError>
    requires enough { bound.now.set.cycles ≤ length rows.now }
    requires fit { All (IsInputRow bound.now.set) rows.now }
    ensures run { IfOk result (λ t. IsRunTrace
        (word_design bound.now.design bound.now.set) bound.now.design bound.now.set rows.now t.rows) }
    ensures names { IfOk result (λ t. t.names ≡ declared_names bound.now.set) }
    ensures trace { IfOk result (λ t. IsTrace bound.now.set t.rows) }
{
    // the nodes of a design fit
    let _fit = bound.design().dag();
    let set = bound.set().set();
    let resets = set.cycles;
    let stimulus = Stimulus {
        inputs: input_names(alloc, set)?,
        rows: rows.as_slice(),
        resets,
    };
    let all = rows_of_source(alloc, bound, &stimulus, resets, stimulus.rows.len())?;
    let later = rows_after(alloc, usize::from(resets), all)?;
    trace_of(alloc, set, later)
}
