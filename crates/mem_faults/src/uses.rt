// How the texts of a module use names (IEEE 1364-2005, sections 4.9 and 5.2.2).

ghost use Rattle.std.specs.Prelude.{◌≡◌, ◌++◌, OnOk, IfOk, map};
ghost use Rattle.std.specs.List.{flat_map};
ghost use Rattle.elab_flat_drivers.specs.Parts.{part_meant};
ghost use Rattle.elab_flat_drivers.specs.Pieces.{piece_meant, actions};
ghost use Rattle.mem_faults.specs.Used.{store_uses, assign_uses, action_uses, block_uses, uses_of};

use elab_flat_drivers::{Part, Piece, add_parts, add_reads, add_store_reads, pieces_of};
use std::alloc::{AllocError, Global};
use vlog_tree::{Assign, Expr, Lval, Stmt};
use vlog_tree_runs::{Always, Flat};

// The parts of the left side, and what is read.
fn add_store<'a>(
    all: &mut Vec<Part<'a>>,
    alloc: Global,
    left: &'a Lval,
    right: &'a Expr,
) -> Result<(), AllocError>
    ensures { OnOk result (map part_meant all.new.items ≡ map part_meant all.old.items ++ store_uses left.now right.now) }
{
    add_parts(all, left)?;
    add_store_reads(all, alloc, left, right)
}

fn add_piece<'a>(all: &mut Vec<Part<'a>>, alloc: Global, piece: Piece<'a>) -> Result<(), AllocError>
    ensures { OnOk result (map part_meant all.new.items ≡ map part_meant all.old.items ++ action_uses
        (piece_meant piece.entry)) }
{
    match piece {
        Piece::Test(expr) => add_reads(all, expr),
        Piece::Blocking(left, right) => add_store(all, alloc, left, right),
        Piece::Nonblocking(left, right) => add_store(all, alloc, left, right),
    }
}

fn add_body<'a>(all: &mut Vec<Part<'a>>, alloc: Global, body: &'a Stmt) -> Result<(), AllocError>
    ensures { OnOk result (map part_meant all.new.items ≡ map part_meant all.old.items ++ flat_map action_uses
        (actions body.now)) }
{
    let pieces = pieces_of(alloc, body)?;
    for piece in &pieces {
        add_piece(all, alloc, *piece)?;
    }
    Ok(())
}

fn add_assigns<'a>(
    all: &mut Vec<Part<'a>>,
    alloc: Global,
    assigns: &'a [Assign],
) -> Result<(), AllocError>
    ensures { OnOk result (map part_meant all.new.items ≡ map part_meant all.old.items ++ flat_map assign_uses assigns.now) }
{
    for assign in assigns {
        add_store(all, alloc, &assign.left, &assign.right)?;
    }
    Ok(())
}

fn add_blocks<'a>(
    all: &mut Vec<Part<'a>>,
    alloc: Global,
    blocks: &'a [Always],
) -> Result<(), AllocError>
    ensures { OnOk result (map part_meant all.new.items ≡ map part_meant all.old.items ++ flat_map block_uses blocks.now) }
{
    for block in blocks {
        add_body(all, alloc, &block.body)?;
    }
    Ok(())
}

/// All uses of names in the texts of a module, in the order of the texts.
pub fn uses_of(alloc: Global, flat: &Flat) -> Result<Vec<Part<'_>>, AllocError>
    ensures { IfOk result (λ r. map part_meant r.items ≡ uses_of flat.now) }
{
    let mut all = Vec::new(alloc);
    add_assigns(&mut all, alloc, flat.assigns.as_slice())?;
    add_blocks(&mut all, alloc, flat.blocks.as_slice())?;
    Ok(all)
}
