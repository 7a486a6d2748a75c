// Assignments to parts (IEEE 1364-2005, sections 5.4, 6.1 and 9.2).

ghost use Rattle.std.specs.Prelude.{map, OnOk, IfErr};
ghost use Rattle.elab_flat_params.specs.Constants.{is_known};
ghost use Rattle.elab_flat_drivers.specs.Parts.{part_meant};
ghost use Rattle.elab_flat_widths.specs.Stores.{IsSoundTo, BreaksTo};
ghost use Rattle.elab_flat_widths.specs.Taken.{Fails};

use crate::left::{check_numbers, total_bits};
use crate::side::Side;
use crate::taken::check_stored;
use crate::violation::Violation;
use elab_flat_drivers::Part;
use std::alloc::Global;
use vlog_tree::{Expr, Valuation};

/// An assignment of an expression to the parts of a left side.
#[derive(Drop)]
pub struct Store<'a> {
    pub side: Side,
    pub parts: &'a [Part<'a>],
    pub right: &'a Expr,
}

impl Store<'_> {
    /// The assignment keeps the rules.
    pub fn check(
        &self,
        alloc: Global,
        params: &Valuation,
        rest: &Valuation,
    ) -> Result<(), Violation>
        ensures ok { OnOk result (IsSoundTo self.now.side (is_known params.now) rest.now
            (map part_meant self.now.parts.now) self.now.right.now) }
        ensures err { IfErr result (Fails (BreaksTo self.now.side (is_known params.now) rest.now
            (map part_meant self.now.parts.now) self.now.right.now)) }
    {
        match check_numbers(alloc, self.side, self.parts, params, rest) {
            Ok(()) => {}
            Err(violation) => return Err(violation),
        }
        let bits = total_bits(alloc, self.parts, rest)?;
        match bits {
            Some(total) => check_stored(alloc, self.right, total, params, rest),
            None => Err(Violation::Length),
        }
    }
}
