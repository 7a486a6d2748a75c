// The lines of a design, in the order of a report.
ghost use Rattle.std.specs.Prelude.{◌≡◌, ◌+◌, ◌^◌, ◌<◌, ◌++◌, length, map, IfOk, OnOk};
ghost use Rattle.set_tree.specs.Report.{design_lines, numbers_from};
ghost use Rattle.unroll.specs.Named.{line_of, numbered_line};

use crate::design_line::DesignLine;
use set_tree::Set;
use std::alloc::{AllocError, Global};

// The kinds of line that speak of an invariant or of an operation.
#[derive(Clone, Copy, PartialEq, Eq)]
enum OfNumber {
    Base,
    Step,
    Operation,
}

fn numbered_line(kind: OfNumber, at: u32) -> DesignLine
    ensures { line_of result ≡ numbered_line kind at }
{
    match kind {
        OfNumber::Base => DesignLine::Base(at),
        OfNumber::Step => DesignLine::Step(at),
        OfNumber::Operation => DesignLine::Operation(at),
    }
}

// A line for each of so many numbers from this one on.
fn push_lines(
    lines: &mut Vec<DesignLine>,
    kind: OfNumber,
    from: u32,
    count: u32,
) -> Result<(), AllocError>
    requires { from + count < 2 ^ 32 }
    ensures { OnOk result (map line_of lines.new.items ≡ map line_of lines.old.items ++ map (numbered_line kind)
        (numbers_from from count)) }
{
    for at in 0..count {
        lines.push(numbered_line(kind, from + at))?;
    }
    Ok(())
}

/// The lines of a design, in the order of a report.
pub fn lines_of(alloc: Global, set: &Set) -> Result<Vec<DesignLine>, AllocError>
    requires invariants { length set.now.invariants < 2 ^ 31 }
    requires operations { length set.now.operations < 2 ^ 31 }
    ensures { IfOk result (λ lines. map line_of lines.items ≡ design_lines set.now) }
{
    let invariants = set.invariants.as_slice().len() as u32;
    let operations = set.operations.as_slice().len() as u32;
    let mut lines = Vec::new(alloc);
    push_lines(&mut lines, OfNumber::Base, 0, invariants)?;
    push_lines(&mut lines, OfNumber::Step, 0, invariants)?;
    lines.push(DesignLine::Reset)?;
    push_lines(&mut lines, OfNumber::Operation, 1, operations)?;
    Ok(lines)
}
