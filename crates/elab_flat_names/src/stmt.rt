// The expressions of assignments and blocks (IEEE 1364-2005, sections 6.1 and 9).

ghost use Rattle.std.specs.Prelude.{◌≡◌, ◌++◌, ◌∷◌, [], OnOk, map};
ghost use Rattle.std.specs.List.{flat_map};
ghost use Rattle.elab_flat_faults.specs.Texts.{numbers_in, assign_exprs};
ghost use Rattle.elab_flat_scopes.specs.Borrowed.{target_meant, assigned_meant, block_meant};
ghost use Rattle.elab_flat_drivers.specs.Pieces.{piece_meant};
ghost use Rattle.elab_flat_names.specs.Exprs.{expr_meant, action_exprs, body_exprs};

use crate::left::add_numbers;
use elab_flat_drivers::{Piece, pieces_of};
use elab_flat_scopes::{Assigned, Block, Target};
use std::alloc::{AllocError, Global};
use vlog_tree::{Expr, Lval};

fn add_assignment<'a>(
    all: &mut Vec<&'a Expr>,
    alloc: Global,
    left: &'a Lval,
    right: &'a Expr,
) -> Result<(), AllocError>
    ensures { OnOk result (map expr_meant all.new.items ≡ map expr_meant all.old.items ++
        (numbers_in left.now ++ right.now ∷ [])) }
{
    add_numbers(all, alloc, left)?;
    all.push(right)?;
    Ok(())
}

/// Adds the expressions of a continuous assignment.
pub fn add_assigned<'a>(
    all: &mut Vec<&'a Expr>,
    alloc: Global,
    assigned: &Assigned<'a>,
) -> Result<(), AllocError>
    ensures { OnOk result (map expr_meant all.new.items ≡ map expr_meant all.old.items ++ assign_exprs
        (assigned_meant assigned.now)) }
{
    match assigned.left {
        Target::Wire(_) => {
            all.push(assigned.right)?;
            Ok(())
        }
        Target::Left(left) => add_assignment(all, alloc, left, assigned.right),
    }
}

fn add_piece<'a>(all: &mut Vec<&'a Expr>, alloc: Global, piece: Piece<'a>) -> Result<(), AllocError>
    ensures { OnOk result (map expr_meant all.new.items ≡ map expr_meant all.old.items ++ action_exprs
        (piece_meant piece.entry)) }
{
    match piece {
        Piece::Test(expr) => {
            all.push(expr)?;
            Ok(())
        }
        Piece::Blocking(left, right) => add_assignment(all, alloc, left, right),
        Piece::Nonblocking(left, right) => add_assignment(all, alloc, left, right),
    }
}

/// Adds the expressions of a block, in the order of its text.
pub fn add_block<'a>(
    all: &mut Vec<&'a Expr>,
    alloc: Global,
    block: &Block<'a>,
) -> Result<(), AllocError>
    ensures { OnOk result (map expr_meant all.new.items ≡ map expr_meant all.old.items ++ body_exprs
        (block_meant block.now)) }
{
    let pieces = pieces_of(alloc, block.body)?;
    for piece in &pieces {
        add_piece(all, alloc, *piece)?;
    }
    Ok(())
}
