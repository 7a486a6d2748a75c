// The obligations that a check asks for.
ghost use Rattle.std.specs.Prelude.{◌≡◌, ◌++◌, ◌<◌, length, IfOk, IfNone, IfSome};
ghost use Rattle.std.specs.List.{AllZip};
ghost use Rattle.set_tree.specs.declared.line.Line.{Line as Lines};
ghost use Rattle.set_tree.specs.Report.{design_lines, set_lines};
ghost use Rattle.twin_tests.specs.Named.{set_line};
ghost use Rattle.unroll.specs.Named.{design_line};
ghost use Rattle.desk_core_goals.specs.Obligations.{IsObOf, all_lines, line_at};

use std::alloc::{AllocError, Global};
use twin_tests::{twin_ob, twin_obs};
use unroll::{design_ob, design_obs, lines_of};
use unroll_binding::Bound;
use word_dag::Named;

/// The obligations of the lines on the design.
pub fn obs_of_design(alloc: Global, bound: &Bound) -> Result<Vec<Named>, AllocError>
    ensures { IfOk result (λ obs. AllZip (IsObOf bound.now) (design_lines bound.now.set) obs.items) }
{
    // the nodes of a design are nodes of a block
    let _design = bound.design().dag();
    design_obs(alloc, bound)
}

// The obligations of the lines on the set.
fn obs_of_set(alloc: Global, bound: &Bound) -> Result<Vec<Named>, AllocError>
    ensures { IfOk result (λ obs. AllZip (IsObOf bound.now) (set_lines bound.now.set) obs.items) }
{
    // no two names of a set are one
    let _set = bound.set().set();
    twin_obs(alloc, bound.set())
}

/// The obligations of all lines, in the order of a report.
pub fn obs_of_all(alloc: Global, bound: &Bound) -> Result<Vec<Named>, AllocError>
    ensures { IfOk result (λ obs. AllZip (IsObOf bound.now) (all_lines bound.now.set) obs.items) }
{
    let mut obs = obs_of_design(alloc, bound)?;
    let mut more = obs_of_set(alloc, bound)?;
    obs.append(&mut more)?;
    Ok(obs)
}

// The obligation of the line of this number among those on the design.
fn ob_of_design(alloc: Global, bound: &Bound, number: usize) -> Result<Named, AllocError>
    requires { number < length (design_lines bound.now.set) }
    ensures { IfOk result (IsObOf bound.now (design_line bound.now.set number)) }
{
    // the nodes of a design are nodes of a block
    let _design = bound.design().dag();
    design_ob(alloc, bound, number)
}

// The obligation of the line of this number among those on the set.
fn ob_of_set(alloc: Global, bound: &Bound, number: usize) -> Result<Named, AllocError>
    requires { number < length (set_lines bound.now.set) }
    ensures { IfOk result (IsObOf bound.now (set_line bound.now.set number)) }
{
    // no two names of a set are one
    let _set = bound.set().set();
    twin_ob(alloc, bound.set(), number)
}

/// The obligation of one line, that of this number in the order of a report. No other line's obligation is made.
pub fn ob_of_line(alloc: Global, bound: &Bound, number: usize) -> Result<Named, AllocError>
    requires { number < length (all_lines bound.now.set) }
    ensures { IfOk result (IsObOf bound.now (line_at bound.now.set number)) }
{
    let on_design = lines_of(alloc, bound.set().set())?;
    if number < on_design.len() {
        ob_of_design(alloc, bound, number)
    } else {
        ob_of_set(alloc, bound, number - on_design.len())
    }
}
