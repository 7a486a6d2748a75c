// The names that a module's text reads, assigns and waits for.

ghost use Rattle.std.specs.Prelude.{◌≡◌, ◌++◌, OnOk, IfOk, map};
ghost use Rattle.std.specs.List.{flat_map};
ghost use Rattle.vlog_tree_runs.specs.Blocks.{left_names};
ghost use Rattle.elab_flat_faults.specs.Texts.{names_in, assigned_in, event_names, waited_in};
ghost use Rattle.elab_flat_scopes.specs.Borrowed.{name_meant, target_meant, assigned_meant, block_meant};
ghost use Rattle.elab_flat_drivers.specs.Names.{action_names};
ghost use Rattle.elab_flat_drivers.specs.declared.names.Form.TheVariants as m;
ghost use Rattle.elab_flat_drivers.specs.Pieces.{piece_meant};
ghost use Rattle.elab_flat_names.specs.Exprs.{expr_meant, equation_names, block_names, waited_names, edge_name};

use crate::left::add_left_names;
use elab_flat_drivers::{Piece, name_of, pieces_of, reads_of};
use elab_flat_scopes::{Assigned, Block, Target, assigns_in, blocks_in};
use outside::Text;
use std::alloc::{AllocError, Global};
use vlog_tree::{Edge, Events, Expr, Module};

fn add_expr<'a>(all: &mut Vec<&'a Text>, alloc: Global, expr: &'a Expr) -> Result<(), AllocError>
    ensures { OnOk result (map name_meant all.new.items ≡ map name_meant all.old.items ++ names_in expr.now) }
{
    let parts = reads_of(alloc, expr)?;
    for part in &parts {
        all.push(name_of(*part))?;
    }
    Ok(())
}

/// The names in an expression, in the order of its text.
pub fn names_in(alloc: Global, expr: &Expr) -> Result<Vec<&Text>, AllocError>
    ensures { IfOk result (λ r. map name_meant r.items ≡ names_in expr.now) }
{
    let mut all = Vec::new(alloc);
    add_expr(&mut all, alloc, expr)?;
    Ok(all)
}

/// The names in some expressions.
pub fn names_read<'a>(alloc: Global, exprs: &[&'a Expr]) -> Result<Vec<&'a Text>, AllocError>
    ensures { IfOk result (λ r. map name_meant r.items ≡ flat_map names_in (map expr_meant exprs.now)) }
{
    let mut all = Vec::new(alloc);
    for expr in exprs {
        add_expr(&mut all, alloc, expr)?;
    }
    Ok(all)
}

fn add_target<'a>(
    all: &mut Vec<&'a Text>,
    alloc: Global,
    target: Target<'a>,
) -> Result<(), AllocError>
    ensures { OnOk result (map name_meant all.new.items ≡ map name_meant all.old.items ++ left_names
        (target_meant target.entry)) }
{
    match target {
        Target::Wire(name) => {
            all.push(name)?;
            Ok(())
        }
        Target::Left(left) => add_left_names(all, alloc, left),
    }
}

fn add_targets<'a>(
    all: &mut Vec<&'a Text>,
    alloc: Global,
    assigns: &[Assigned<'a>],
) -> Result<(), AllocError>
    ensures { OnOk result (map name_meant all.new.items ≡ map name_meant all.old.items ++ flat_map equation_names
        (map assigned_meant assigns.now)) }
{
    for assigned in assigns {
        add_target(all, alloc, assigned.left)?;
    }
    Ok(())
}

fn add_piece<'a>(all: &mut Vec<&'a Text>, alloc: Global, piece: Piece<'a>) -> Result<(), AllocError>
    ensures { OnOk result (map name_meant all.new.items ≡ map name_meant all.old.items ++ action_names m.Any
        (piece_meant piece.entry)) }
{
    match piece {
        Piece::Test(_) => Ok(()),
        Piece::Blocking(left, _) => add_left_names(all, alloc, left),
        Piece::Nonblocking(left, _) => add_left_names(all, alloc, left),
    }
}

fn add_block<'a>(
    all: &mut Vec<&'a Text>,
    alloc: Global,
    block: &Block<'a>,
) -> Result<(), AllocError>
    ensures { OnOk result (map name_meant all.new.items ≡ map name_meant all.old.items ++ block_names
        (block_meant block.now)) }
{
    let pieces = pieces_of(alloc, block.body)?;
    for piece in &pieces {
        add_piece(all, alloc, *piece)?;
    }
    Ok(())
}

fn add_blocks<'a>(
    all: &mut Vec<&'a Text>,
    alloc: Global,
    blocks: &[Block<'a>],
) -> Result<(), AllocError>
    ensures { OnOk result (map name_meant all.new.items ≡ map name_meant all.old.items ++ flat_map block_names
        (map block_meant blocks.now)) }
{
    for block in blocks {
        add_block(all, alloc, block)?;
    }
    Ok(())
}

/// The names that the assignments of a module have on their left.
pub fn assigned_in(alloc: Global, text: &Module) -> Result<Vec<&Text>, AllocError>
    ensures { IfOk result (λ r. map name_meant r.items ≡ assigned_in text.now) }
{
    let assigns = assigns_in(alloc, text)?;
    let blocks = blocks_in(alloc, text)?;
    let mut all = Vec::new(alloc);
    add_targets(&mut all, alloc, &assigns)?;
    add_blocks(&mut all, alloc, &blocks)?;
    Ok(all)
}

fn add_edges<'a>(all: &mut Vec<&'a Text>, edges: &'a [Edge]) -> Result<(), AllocError>
    ensures { OnOk result (map name_meant all.new.items ≡ map name_meant all.old.items ++ map edge_name edges.now) }
{
    for edge in edges {
        all.push(&edge.name)?;
    }
    Ok(())
}

fn add_names<'a>(all: &mut Vec<&'a Text>, names: &'a [Text]) -> Result<(), AllocError>
    ensures { OnOk result (map name_meant all.new.items ≡ map name_meant all.old.items ++ names.now) }
{
    for name in names {
        all.push(name)?;
    }
    Ok(())
}

fn add_events<'a>(all: &mut Vec<&'a Text>, events: &'a Events) -> Result<(), AllocError>
    ensures { OnOk result (map name_meant all.new.items ≡ map name_meant all.old.items ++ event_names events.now) }
{
    match events {
        Events::All => Ok(()),
        Events::Edges(edges) => add_edges(all, edges.as_slice()),
        Events::Names(names) => add_names(all, names.as_slice()),
    }
}

fn waited<'a>(alloc: Global, blocks: &[Block<'a>]) -> Result<Vec<&'a Text>, AllocError>
    ensures { IfOk result (λ r. map name_meant r.items ≡ flat_map waited_names (map block_meant blocks.now)) }
{
    let mut all = Vec::new(alloc);
    for block in blocks {
        add_events(&mut all, block.events)?;
    }
    Ok(all)
}

/// The names that the blocks of a module wait for.
pub fn waited_in(alloc: Global, text: &Module) -> Result<Vec<&Text>, AllocError>
    ensures { IfOk result (λ r. map name_meant r.items ≡ waited_in text.now) }
{
    let blocks = blocks_in(alloc, text)?;
    waited(alloc, &blocks)
}
