// The words that no block assigns.

ghost use Rattle.std.specs.Prelude.{◌≡◌, [], ◌∷◌, ◌++◌, IfOk, OnOk, map, filter, not};
ghost use Rattle.std.specs.List.{flat_map};
ghost use Rattle.vlog_tree_runs.specs.Blocks.{lefts, left_names};
ghost use Rattle.vlog_tree_runs.specs.Contents.{is_among};
ghost use Rattle.elab_flat_faults.specs.Declaring.{words_of};
ghost use Rattle.elab_flat_scopes.specs.Borrowed.{name_meant};
ghost use Rattle.elab_flat_drivers.specs.declared.names.Form.TheVariants as m;
ghost use Rattle.elab_flat_drivers.specs.Names.{action_names};
ghost use Rattle.elab_flat_drivers.specs.Pieces.{piece_meant};
ghost use Rattle.mem_laws.specs.Spread.{assigned_in, keeper};
ghost use Rattle.mem_faults.specs.Held.{idle_of};

use elab_flat_drivers::{Piece, add_left_names, pieces_of};
use elab_flat_move::both;
use elab_flat_scopes::Names;
use mem_faults::words;
use outside::Text;
use sqlite_items::Items;
use std::alloc::{AllocError, Global};
use vlog_tree::{Expr, Lval, Name, Stmt};
use vlog_tree_runs::{Always, Signal};

fn add_piece<'a>(all: &mut Vec<&'a Text>, alloc: Global, piece: Piece<'a>) -> Result<(), AllocError>
    ensures { OnOk result (map name_meant all.new.items ≡ map name_meant all.old.items ++ action_names m.Any
        (piece_meant piece.entry)) }
{
    match piece {
        Piece::Test(_) => Ok(()),
        Piece::Blocking(left, _) => add_left_names(all, alloc, left),
        Piece::Nonblocking(left, _) => add_left_names(all, alloc, left),
    }
}

// The names that a statement assigns.
fn add_body<'a>(all: &mut Vec<&'a Text>, alloc: Global, body: &'a Stmt) -> Result<(), AllocError>
    ensures { OnOk result (map name_meant all.new.items ≡ map name_meant all.old.items ++ flat_map left_names
        (lefts body.now)) }
{
    let pieces = pieces_of(alloc, body)?;
    for piece in &pieces {
        add_piece(all, alloc, *piece)?;
    }
    Ok(())
}

fn assigned_in(alloc: Global, blocks: &[Always]) -> Result<Names<'_>, AllocError>
    ensures { IfOk result (λ r. r ≡ assigned_in blocks.now) }
{
    let mut all = Vec::new(alloc);
    for block in blocks {
        add_body(&mut all, alloc, &block.body)?;
    }
    Names::of(alloc, all)
}

// A clocked block by which a register keeps its value.
fn keeper(alloc: Global, name: &Text) -> Result<Always, AllocError>
    ensures { IfOk result (λ r. r ≡ keeper name.now) }
{
    let (left, text) = both(
        Text::copy(alloc, name.bytes()),
        Text::copy(alloc, name.bytes()),
    )?;
    Ok(Always {
        clocked: true,
        names: None,
        body: Stmt::Nonblocking(Lval::Name(left), Expr::Name(Name { text, offset: 0 })),
    })
}

// Keepers of the words that aren't among some names.
fn add_keepers(
    all: &mut Items<Always>,
    alloc: Global,
    names: &Names<'_>,
    words: &[Signal],
) -> Result<(), AllocError>
    ensures { OnOk result (all.new ≡ all.old ++ map keeper (idle_of names.now (map (λ w. w.name) words.now))) }
{
    for word in words {
        if !names.has(word.name.bytes()) {
            all.push(keeper(alloc, &word.name)?)?;
        }
    }
    Ok(())
}

/// Blocks that keep the words that none of these blocks assigns.
pub fn keepers(
    alloc: Global,
    blocks: &[Always],
    signals: &[Signal],
) -> Result<Items<Always>, AllocError>
    ensures { IfOk result (λ r. r ≡ map keeper (idle_of (assigned_in blocks.now) (flat_map words_of signals.now))) }
{
    let names = assigned_in(alloc, blocks)?;
    let mut all = Items::new(alloc);
    for signal in signals {
        let words = words(alloc, signal)?;
        add_keepers(&mut all, alloc, &names, words.as_slice())?;
    }
    Ok(all)
}
