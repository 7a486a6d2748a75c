// The parts of left sides (IEEE 1364-2005, sections 6.1 and 9.2).

ghost use Rattle.std.specs.Prelude.{◌≡◌, ◌++◌, OnOk, IfOk, map};
ghost use Rattle.std.specs.List.{flat_map};
ghost use Rattle.elab_flat_faults.specs.Drivers.{parts_of};
ghost use Rattle.elab_flat_drivers.specs.Parts.{part_meant};
ghost use Rattle.elab_flat_drivers.specs.Pieces.{piece_meant};
ghost use Rattle.elab_flat_drivers.specs.Names.{is_same};
ghost use Rattle.test_judges.specs.Driving.{piece_parts, body_parts, block_parts, assign_parts, net_parts, clocked_parts};

use elab_flat_drivers::{Part, Piece, parts_of, pieces_of};
use std::alloc::{AllocError, Global};
use vlog_tree::{Assign, Lval, Stmt};
use vlog_tree_runs::{Always, Flat};

fn add_left<'a>(all: &mut Vec<Part<'a>>, alloc: Global, left: &'a Lval) -> Result<(), AllocError>
    ensures { OnOk result (map part_meant all.new.items ≡ map part_meant all.old.items ++ parts_of left.now) }
{
    let parts = parts_of(alloc, left)?;
    for part in &parts {
        all.push(*part)?;
    }
    Ok(())
}

// The parts of what stands on the left at one place of a statement.
fn add_piece<'a>(all: &mut Vec<Part<'a>>, alloc: Global, piece: Piece<'a>) -> Result<(), AllocError>
    ensures { OnOk result (map part_meant all.new.items ≡ map part_meant all.old.items ++ piece_parts
        (piece_meant piece.entry)) }
{
    match piece {
        Piece::Test(_) => Ok(()),
        Piece::Blocking(left, _) => add_left(all, alloc, left),
        Piece::Nonblocking(left, _) => add_left(all, alloc, left),
    }
}

fn add_body<'a>(all: &mut Vec<Part<'a>>, alloc: Global, body: &'a Stmt) -> Result<(), AllocError>
    ensures { OnOk result (map part_meant all.new.items ≡ map part_meant all.old.items ++ body_parts body.now) }
{
    let pieces = pieces_of(alloc, body)?;
    for piece in &pieces {
        add_piece(all, alloc, *piece)?;
    }
    Ok(())
}

/// The parts of the left sides in a statement.
pub fn body_parts(alloc: Global, body: &Stmt) -> Result<Vec<Part<'_>>, AllocError>
    ensures { IfOk result (λ r. map part_meant r.items ≡ body_parts body.now) }
{
    let mut all = Vec::new(alloc);
    add_body(&mut all, alloc, body)?;
    Ok(all)
}

fn add_assigns<'a>(
    all: &mut Vec<Part<'a>>,
    alloc: Global,
    assigns: &'a [Assign],
) -> Result<(), AllocError>
    ensures { OnOk result (map part_meant all.new.items ≡ map part_meant all.old.items ++ assign_parts assigns.now) }
{
    for assign in assigns {
        add_left(all, alloc, &assign.left)?;
    }
    Ok(())
}

fn add_blocks<'a>(
    all: &mut Vec<Part<'a>>,
    alloc: Global,
    blocks: &'a [Always],
    clocked: bool,
) -> Result<(), AllocError>
    ensures { OnOk result (map part_meant all.new.items ≡ map part_meant all.old.items ++ block_parts clocked blocks.now) }
{
    for block in blocks {
        if is_same(clocked, block.clocked) {
            add_body(all, alloc, &block.body)?;
        }
    }
    Ok(())
}

fn is_same(a: bool, b: bool) -> bool
    ensures { result ≡ is_same a b }
{
    if a { b } else { !b }
}

/// The parts of the left sides of continuous assignments and combinational blocks.
pub fn net_parts(alloc: Global, flat: &Flat) -> Result<Vec<Part<'_>>, AllocError>
    ensures { IfOk result (λ r. map part_meant r.items ≡ net_parts flat.now) }
{
    let mut all = Vec::new(alloc);
    add_assigns(&mut all, alloc, flat.assigns.as_slice())?;
    add_blocks(&mut all, alloc, flat.blocks.as_slice(), false)?;
    Ok(all)
}

/// The parts of the left sides in clocked blocks.
pub fn clocked_parts(alloc: Global, flat: &Flat) -> Result<Vec<Part<'_>>, AllocError>
    ensures { IfOk result (λ r. map part_meant r.items ≡ clocked_parts flat.now) }
{
    let mut all = Vec::new(alloc);
    add_blocks(&mut all, alloc, flat.blocks.as_slice(), true)?;
    Ok(all)
}
