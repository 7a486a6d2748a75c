// What the expressions of a module read, and the outputs of the top (IEEE 1364-2005, sections 5.2.1 and 12.3.3).

ghost use Rattle.std.specs.Prelude.{◌≡◌, ◌++◌, OnOk, IfOk, map};
ghost use Rattle.std.specs.List.{flat_map};
ghost use Rattle.elab_flat_drivers.specs.Parts.{part_meant, reads_of};
ghost use Rattle.elab_flat_drivers.specs.Pieces.{piece_meant, actions};
ghost use Rattle.elab_flat_drivers.specs.Wanting.{part_reads, left_reads, action_reads, assign_reads, block_reads, output_parts, wanted_parts};

use crate::parts::{Part, add_reads, parts_of};
use crate::pieces::{Piece, pieces_of};
use sqlite_items::Items;
use std::alloc::{AllocError, Global};
use vlog_tree::{Assign, Expr, Lval, Stmt};
use vlog_tree_runs::{Always, Flat, TopPort};

// What the numbers of a part read.
fn add_part_reads<'a>(all: &mut Vec<Part<'a>>, part: Part<'a>) -> Result<(), AllocError>
    ensures { OnOk result (map part_meant all.new.items ≡ map part_meant all.old.items ++ part_reads
        (part_meant part.entry)) }
{
    match part {
        Part::Whole(_) => Ok(()),
        Part::Bit(_, index) => add_reads(all, index),
        Part::Bits(_, _, a, b) => {
            add_reads(all, a)?;
            add_reads(all, b)
        }
    }
}

fn add_left_reads<'a>(
    all: &mut Vec<Part<'a>>,
    alloc: Global,
    left: &'a Lval,
) -> Result<(), AllocError>
    ensures { OnOk result (map part_meant all.new.items ≡ map part_meant all.old.items ++ left_reads left.now) }
{
    let parts = parts_of(alloc, left)?;
    for part in &parts {
        add_part_reads(all, *part)?;
    }
    Ok(())
}

/// Adds what an assignment reads: the numbers of its left side, and its right side.
pub fn add_store_reads<'a>(
    all: &mut Vec<Part<'a>>,
    alloc: Global,
    left: &'a Lval,
    right: &'a Expr,
) -> Result<(), AllocError>
    ensures { OnOk result (map part_meant all.new.items ≡ map part_meant all.old.items ++
        (left_reads left.now ++ reads_of right.now)) }
{
    add_left_reads(all, alloc, left)?;
    add_reads(all, right)?;
    Ok(())
}

fn add_piece_reads<'a>(
    all: &mut Vec<Part<'a>>,
    alloc: Global,
    piece: Piece<'a>,
) -> Result<(), AllocError>
    ensures { OnOk result (map part_meant all.new.items ≡ map part_meant all.old.items ++ action_reads
        (piece_meant piece.entry)) }
{
    match piece {
        Piece::Test(expr) => add_reads(all, expr),
        Piece::Blocking(left, right) => add_store_reads(all, alloc, left, right),
        Piece::Nonblocking(left, right) => add_store_reads(all, alloc, left, right),
    }
}

// Adds what a statement reads: conditions, case expressions and labels, the numbers of left sides, and right sides.
fn add_body_reads<'a>(
    all: &mut Vec<Part<'a>>,
    alloc: Global,
    body: &'a Stmt,
) -> Result<(), AllocError>
    ensures { OnOk result (map part_meant all.new.items ≡ map part_meant all.old.items ++ flat_map action_reads
        (actions body.now)) }
{
    let pieces = pieces_of(alloc, body)?;
    for piece in &pieces {
        add_piece_reads(all, alloc, *piece)?;
    }
    Ok(())
}

fn add_outputs<'a>(all: &mut Vec<Part<'a>>, ports: &'a [TopPort]) -> Result<(), AllocError>
    ensures { OnOk result (map part_meant all.new.items ≡ map part_meant all.old.items ++ flat_map output_parts ports.now) }
{
    for port in ports {
        if port.output {
            all.push(Part::Whole(&port.name))?;
        }
    }
    Ok(())
}

fn add_assign_reads<'a>(
    all: &mut Vec<Part<'a>>,
    alloc: Global,
    assigns: &'a [Assign],
) -> Result<(), AllocError>
    ensures { OnOk result (map part_meant all.new.items ≡ map part_meant all.old.items ++ flat_map assign_reads assigns.now) }
{
    for assign in assigns {
        add_store_reads(all, alloc, &assign.left, &assign.right)?;
    }
    Ok(())
}

fn add_block_reads<'a>(
    all: &mut Vec<Part<'a>>,
    alloc: Global,
    blocks: &'a [Always],
) -> Result<(), AllocError>
    ensures { OnOk result (map part_meant all.new.items ≡ map part_meant all.old.items ++ flat_map block_reads blocks.now) }
{
    for block in blocks {
        add_body_reads(all, alloc, &block.body)?;
    }
    Ok(())
}

/// The outputs of the top and what is read in a module.
pub fn wanted_parts(alloc: Global, flat: &Flat) -> Result<Vec<Part<'_>>, AllocError>
    ensures { IfOk result (λ r. map part_meant r.items ≡ wanted_parts flat.now) }
{
    let mut all = Vec::new(alloc);
    add_outputs(&mut all, flat.ports.as_slice())?;
    add_assign_reads(&mut all, alloc, flat.assigns.as_slice())?;
    add_block_reads(&mut all, alloc, flat.blocks.as_slice())?;
    Ok(all)
}
