// Bits that are wanted and that nothing drives (IEEE 1364-2005, sections 6.1 and 12.3).

ghost use Rattle.std.specs.Prelude.{◌≡◌, ◌++◌, ℕ, OnOk, IfOk, IfSome, IfNone, map, length, replicate};
ghost use Rattle.std.specs.List.{flat_map};
ghost use Rattle.vlog_tree.specs.declared.stmt.Lval.{Lval as Left};
ghost use Rattle.vlog_tree_runs.specs.Places.{Name, Among};
ghost use Rattle.elab_flat_scopes.specs.Borrowed.{name_meant};
ghost use Rattle.elab_flat_faults.specs.declared.elaborating.ElabFault.TheVariants as f;
ghost use Rattle.elab_flat_faults.specs.Drivers.{Input as InputOf};
ghost use Rattle.elab_flat_faults.specs.ElabStands.{Stands};
ghost use Rattle.elab_flat_drivers.specs.Parts.{part_meant};
ghost use Rattle.elab_flat_drivers.specs.Claims.{IsPartReady, IsClaimed, part_claims};
ghost use Rattle.elab_flat_drivers.specs.Masks.{AreWithin, IsSet};
ghost use Rattle.elab_flat_drivers.specs.Driving.{AreNarrow, AreDriversReady, driver_meant};
ghost use Rattle.elab_flat_drivers.specs.Wanting.{covers, driven_table, covered_table, wanted_claims, CanTell, IsLacking};

use crate::claims::Claim;
use crate::declared::Declared;
use crate::drivers::{Driver, add_claim, driver_claims, drivers_of, numbered};
use crate::masks::{Bit, lowest, mark, no_bits};
use crate::names::{Form, block_names};
use crate::parts::Part;
use crate::wanted::wanted_parts;
use outside::Text;
use sqlite_items::Items;
use std::alloc::{AllocError, Global};
use vlog_tree_runs::Flat;

fn add_whole<'a>(all: &mut Vec<Driver<'a>>, names: &[&'a Text]) -> Result<(), AllocError>
    ensures { OnOk result (map driver_meant all.new.items ≡ map driver_meant all.old.items ++ map InputOf
        (map name_meant names.now)) }
{
    for name in names {
        all.push(Driver::Input(name))?;
    }
    Ok(())
}

/// The drivers of a module, and each register as driven.
pub fn covers(alloc: Global, flat: &Flat) -> Result<Vec<Driver<'_>>, AllocError>
    ensures { IfOk result (λ r. map driver_meant r.items ≡ covers flat.now) }
{
    let mut all = drivers_of(alloc, flat)?;
    let blocks = flat.blocks.as_slice();
    let registers = block_names(alloc, blocks, true, Form::Any)?;
    add_whole(&mut all, &registers)?;
    Ok(all)
}

/// The bits that drivers drive.
pub fn driven(
    alloc: Global,
    drivers: &[Driver<'_>],
    signals: &Declared<'_>,
) -> Result<Vec<u64>, AllocError>
    requires narrow { AreNarrow signals.now }
    requires ready { AreDriversReady (map driver_meant drivers.now) }
    ensures { IfOk result (λ r. r.items ≡ driven_table signals.now (replicate (length signals.now) 0)
        (map driver_meant drivers.now)) }
{
    let mut table = no_bits(alloc, signals.list().len())?;
    for driver in drivers {
        let claims = driver_claims(alloc, *driver, signals)?;
        mark(&mut table, &claims);
    }
    Ok(table)
}

/// The bits that parts name.
pub fn named(
    alloc: Global,
    parts: &[Part<'_>],
    signals: &Declared<'_>,
) -> Result<Vec<Claim>, AllocError>
    requires narrow { AreNarrow signals.now }
    requires ready { (q : Left) → Among (map part_meant parts.now) q → IsPartReady q }
    ensures { IfOk result (λ r. r.items ≡ flat_map (part_claims signals.now) (map part_meant parts.now)) }
{
    let mut claims = Vec::new(alloc);
    for part in parts {
        add_claim(&mut claims, alloc, *part, signals)?;
    }
    Ok(claims)
}

/// The first bit that is claimed and not set.
pub fn missing(table: &[u64], claims: &[Claim]) -> Option<Bit>
    requires { AreWithin (length table.now) claims.now }
    ensures some { IfSome result (λ r. IsClaimed claims.now r.place r.number) }
    ensures unset { IfSome result (λ r. IsSet table.now r.place r.number → ⊥) }
    ensures none { IfNone result ((i b : ℕ) → IsClaimed claims.now i b → (IsSet table.now i b → ⊥) → ⊥) }
{
    for claim in claims {
        let lacking = claim.bits ^ (claim.bits & table[claim.place]);
        if lacking != 0 {
            return Some(Bit {
                place: claim.place,
                number: lowest(lacking),
            });
        }
    }
    None
}

// The bits that the drivers and the registers of a module have.
fn covered(alloc: Global, flat: &Flat, signals: &Declared<'_>) -> Result<Vec<u64>, AllocError>
    requires can { CanTell flat.now }
    requires same { signals.now ≡ flat.now.signals }
    ensures { IfOk result (λ r. r.items ≡ covered_table flat.now) }
{
    let covers = covers(alloc, flat)?;
    driven(alloc, &covers, signals)
}

// The bits that are read, and those of the outputs of the top.
fn wanted(alloc: Global, flat: &Flat, signals: &Declared<'_>) -> Result<Vec<Claim>, AllocError>
    requires can { CanTell flat.now }
    requires same { signals.now ≡ flat.now.signals }
    ensures { IfOk result (λ r. r.items ≡ wanted_claims flat.now) }
{
    let parts = wanted_parts(alloc, flat)?;
    named(alloc, &parts, signals)
}

// A bit that is wanted and that nothing has.
fn undriven_bit(
    alloc: Global,
    flat: &Flat,
    signals: &Declared<'_>,
) -> Result<Option<Bit>, AllocError>
    requires can { CanTell flat.now }
    requires same { signals.now ≡ flat.now.signals }
    ensures some { IfOk result (λ o. IfSome o (λ r. IsLacking flat.now r.place r.number)) }
    ensures none { IfOk result (λ o. IfNone o ((x : Name) (n : ℕ) → Stands flat.now (f.Undriven x n) → ⊥)) }
{
    let table = covered(alloc, flat, signals)?;
    let claims = wanted(alloc, flat, signals)?;
    Ok(missing(&table, &claims))
}

// The same by its name and its number.
fn undriven_among(
    alloc: Global,
    flat: &Flat,
    signals: &Declared<'_>,
) -> Result<Option<(Text, u64)>, AllocError>
    requires can { CanTell flat.now }
    requires same { signals.now ≡ flat.now.signals }
    ensures some { IfOk result (λ o. IfSome o (λ r. Stands flat.now (f.Undriven r.0 r.1))) }
    ensures none { IfOk result (λ o. IfNone o ((x : Name) (n : ℕ) → Stands flat.now (f.Undriven x n) → ⊥)) }
{
    match undriven_bit(alloc, flat, signals)? {
        Some(bit) => {
            let number = numbered(alloc, bit, signals)?;
            Ok(Some(number))
        }
        None => Ok(None),
    }
}

/// A bit that is read, or that is of an output of the top, and that has no driver and is of no register, by the name of
/// its signal and its declared number.
pub fn undriven(alloc: Global, flat: &Flat) -> Result<Option<(Text, u64)>, AllocError>
    requires { CanTell flat.now }
    ensures some { IfOk result (λ o. IfSome o (λ r. Stands flat.now (f.Undriven r.0 r.1))) }
    ensures none { IfOk result (λ o. IfNone o ((x : Name) (n : ℕ) → Stands flat.now (f.Undriven x n) → ⊥)) }
{
    let signals = Declared::of(alloc, flat.signals.as_slice())?;
    undriven_among(alloc, flat, &signals)
}
