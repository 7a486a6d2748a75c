// What drives the bits of a module, and bits that two drive (IEEE 1364-2005, sections 6.1 and 9.2).

ghost use Rattle.std.specs.Prelude.{◌≡◌, ◌++◌, ℕ, ◌+◌, ◌<◌, [], OnOk, IfOk, IfSome, IfNone, map, length, replicate};
ghost use Rattle.std.specs.List.{flat_map};
ghost use Rattle.vlog_tree.specs.declared.item.Assign.{Assign as Equation};
ghost use Rattle.vlog_tree.specs.declared.stmt.Lval.{Lval as Left};
ghost use Rattle.vlog_tree_runs.specs.declared.flat.Always.{Always as Process};
ghost use Rattle.vlog_tree_runs.specs.Places.{Name, Among};
ghost use Rattle.vlog_tree_runs.specs.Blocks.{lefts};
ghost use Rattle.elab_flat_faults.specs.declared.elaborating.ElabFault.TheVariants as f;
ghost use Rattle.elab_flat_faults.specs.Drivers.{Part as PartOf, Block as BlockOf, parts_of, input_drivers, drivers_of};
ghost use Rattle.elab_flat_faults.specs.ElabStands.{Stands};
ghost use Rattle.elab_flat_drivers.specs.Parts.{part_meant};
ghost use Rattle.elab_flat_drivers.specs.Claims.{IsPartReady, part_claims};
ghost use Rattle.elab_flat_drivers.specs.Masks.{AreWithin};
ghost use Rattle.elab_flat_drivers.specs.Driving.{AreNarrow, driver_meant, IsDriverReady, AreDriversReady, driver_claims, left_claims, Clashes, CanDrive, IsBitAt, Numbers};

use crate::claims::{Claim, claim_at, run_of};
use crate::declared::Declared;
use crate::masks::{Bit, clash, mark, no_bits};
use crate::names::{Form, left_of};
use crate::parts::{Part, name_of, parts_of};
use crate::pieces::pieces_of;
use outside::Text;
use sqlite_items::Items;
use std::alloc::{AllocError, Global};
use vlog_tree::{Assign, Lval, Stmt};
use vlog_tree_runs::{Always, Flat, TopPort};

/// An input of the top, a part of a continuous assignment's left side, or a block.
#[derive(Clone, Copy)]
pub enum Driver<'a> {
    Input(&'a Text),
    Part(Part<'a>),
    Block(&'a Stmt),
}

fn add_inputs<'a>(all: &mut Vec<Driver<'a>>, ports: &'a [TopPort]) -> Result<(), AllocError>
    ensures { OnOk result (map driver_meant all.new.items ≡ map driver_meant all.old.items ++ input_drivers ports.now) }
{
    for port in ports {
        if !port.output {
            all.push(Driver::Input(&port.name))?;
        }
    }
    Ok(())
}

fn add_parts<'a>(all: &mut Vec<Driver<'a>>, alloc: Global, left: &'a Lval) -> Result<(), AllocError>
    ensures { OnOk result (map driver_meant all.new.items ≡ map driver_meant all.old.items ++ map PartOf
        (parts_of left.now)) }
{
    let parts = parts_of(alloc, left)?;
    for part in &parts {
        all.push(Driver::Part(*part))?;
    }
    Ok(())
}

fn add_assigns<'a>(
    all: &mut Vec<Driver<'a>>,
    alloc: Global,
    assigns: &'a [Assign],
) -> Result<(), AllocError>
    ensures { OnOk result (map driver_meant all.new.items ≡ map driver_meant all.old.items ++ flat_map
        (λ (a : Equation). map PartOf (parts_of a.left)) assigns.now) }
{
    for assign in assigns {
        add_parts(all, alloc, &assign.left)?;
    }
    Ok(())
}

fn add_blocks<'a>(all: &mut Vec<Driver<'a>>, blocks: &'a [Always]) -> Result<(), AllocError>
    ensures { OnOk result (map driver_meant all.new.items ≡ map driver_meant all.old.items ++ map
        (λ (k : Process). BlockOf (lefts k.body)) blocks.now) }
{
    for block in blocks {
        all.push(Driver::Block(&block.body))?;
    }
    Ok(())
}

/// The drivers of a module: inputs, parts of assignments, blocks.
pub fn drivers_of(alloc: Global, flat: &Flat) -> Result<Vec<Driver<'_>>, AllocError>
    ensures { IfOk result (λ r. map driver_meant r.items ≡ drivers_of flat.now) }
{
    let mut all = Vec::new(alloc);
    add_inputs(&mut all, flat.ports.as_slice())?;
    add_assigns(&mut all, alloc, flat.assigns.as_slice())?;
    add_blocks(&mut all, flat.blocks.as_slice())?;
    Ok(all)
}

/// Adds the bits that a part names.
pub fn add_claim(
    claims: &mut Vec<Claim>,
    alloc: Global,
    part: Part<'_>,
    signals: &Declared<'_>,
) -> Result<(), AllocError>
    requires narrow { AreNarrow signals.now }
    requires ready { IsPartReady (part_meant part) }
    ensures { OnOk result (claims.new.items ≡ claims.old.items ++ part_claims signals.now (part_meant part.entry)) }
{
    let run = run_of(alloc, part)?;
    if let Some(spot) = signals.spot(name_of(part).bytes()) {
        claims.push(claim_at(spot, run))?;
    }
    Ok(())
}

fn add_left_claims(
    claims: &mut Vec<Claim>,
    alloc: Global,
    left: &Lval,
    signals: &Declared<'_>,
) -> Result<(), AllocError>
    requires narrow { AreNarrow signals.now }
    requires ready { (q : Left) → Among (parts_of left.now) q → IsPartReady q }
    ensures { OnOk result (claims.new.items ≡ claims.old.items ++ left_claims signals.now left.now) }
{
    let parts = parts_of(alloc, left)?;
    for part in &parts {
        add_claim(claims, alloc, *part, signals)?;
    }
    Ok(())
}

fn add_body_claims(
    claims: &mut Vec<Claim>,
    alloc: Global,
    body: &Stmt,
    signals: &Declared<'_>,
) -> Result<(), AllocError>
    requires narrow { AreNarrow signals.now }
    requires ready { IsDriverReady (BlockOf (lefts body.now)) }
    ensures { OnOk result (claims.new.items ≡ claims.old.items ++ driver_claims signals.now
        (BlockOf (lefts body.now))) }
{
    let pieces = pieces_of(alloc, body)?;
    for piece in &pieces {
        if let Some(left) = left_of(*piece, Form::Any) {
            add_left_claims(claims, alloc, left, signals)?;
        }
    }
    Ok(())
}

/// The bits that a driver drives.
pub fn driver_claims(
    alloc: Global,
    driver: Driver<'_>,
    signals: &Declared<'_>,
) -> Result<Vec<Claim>, AllocError>
    requires narrow { AreNarrow signals.now }
    requires ready { IsDriverReady (driver_meant driver) }
    ensures { IfOk result (λ r. r.items ≡ driver_claims signals.now (driver_meant driver.entry)) }
{
    let mut claims = Vec::new(alloc);
    match driver {
        Driver::Input(name) => add_claim(&mut claims, alloc, Part::Whole(name), signals)?,
        Driver::Part(part) => add_claim(&mut claims, alloc, part, signals)?,
        Driver::Block(body) => add_body_claims(&mut claims, alloc, body, signals)?,
    }
    Ok(claims)
}

// The first bit that two drivers drive.
fn twice(
    alloc: Global,
    drivers: &[Driver<'_>],
    signals: &Declared<'_>,
) -> Result<Option<Bit>, AllocError>
    requires narrow { AreNarrow signals.now }
    requires ready { AreDriversReady (map driver_meant drivers.now) }
    ensures some { IfOk result (λ o. IfSome o
        (λ r. Clashes signals.now (replicate (length signals.now) 0) (map driver_meant drivers.now) r.place r.number)) }
    ensures none { IfOk result (λ o. IfNone o ((i b : ℕ) →
        Clashes signals.now (replicate (length signals.now) 0) (map driver_meant drivers.now) i b → ⊥)) }
{
    let mut table = no_bits(alloc, signals.list().len())?;
    for driver in drivers {
        let claims = driver_claims(alloc, *driver, signals)?;
        if let Some(bit) = clash(&table, &claims) {
            return Ok(Some(bit));
        }
        mark(&mut table, &claims);
    }
    Ok(None)
}

/// A bit by the name of its signal and its declared number.
pub fn numbered(alloc: Global, bit: Bit, signals: &Declared<'_>) -> Result<(Text, u64), AllocError>
    requires { IsBitAt signals.now bit.place bit.number }
    ensures { IfOk result (λ r. Numbers signals.now bit.place bit.number r.0 r.1) }
{
    match signals.list().get(bit.place) {
        Some(signal) => Ok((
            Text::copy(alloc, signal.name.bytes())?,
            signal.low + u64::from(bit.number),
        )),
        None => unreachable!(),
    }
}

// A bit that two drivers of a module drive.
fn driven_twice_among(
    alloc: Global,
    flat: &Flat,
    signals: &Declared<'_>,
) -> Result<Option<(Text, u64)>, AllocError>
    requires can { CanDrive flat.now }
    requires same { signals.now ≡ flat.now.signals }
    ensures some { IfOk result (λ o. IfSome o (λ r. Stands flat.now (f.Drivers r.0 r.1))) }
    ensures none { IfOk result (λ o. IfNone o ((x : Name) (n : ℕ) → Stands flat.now (f.Drivers x n) → ⊥)) }
{
    let drivers = drivers_of(alloc, flat)?;
    match twice(alloc, &drivers, signals)? {
        Some(bit) => {
            let number = numbered(alloc, bit, signals)?;
            Ok(Some(number))
        }
        None => Ok(None),
    }
}

/// A bit that has two drivers, by the name of its signal and its declared number. Inputs of the top, the parts of the
/// left sides of continuous assignments, and blocks are drivers.
pub fn driven_twice(alloc: Global, flat: &Flat) -> Result<Option<(Text, u64)>, AllocError>
    requires { CanDrive flat.now }
    ensures some { IfOk result (λ o. IfSome o (λ r. Stands flat.now (f.Drivers r.0 r.1))) }
    ensures none { IfOk result (λ o. IfNone o ((x : Name) (n : ℕ) → Stands flat.now (f.Drivers x n) → ⊥)) }
{
    let signals = Declared::of(alloc, flat.signals.as_slice())?;
    driven_twice_among(alloc, flat, &signals)
}
