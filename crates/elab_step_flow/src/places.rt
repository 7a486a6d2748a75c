// Lists of the places of names.

ghost use Rattle.std.specs.Prelude.{◌≡◌, ◌++◌, ◌↔◌, ℕ, [], ◌∷◌, map, IfOk, OnOk};
ghost use Rattle.std.specs.List.{flat_map};
ghost use Rattle.std.specs.List.Sorted.{IsStrictlyIncreasing};
ghost use Rattle.vlog_tree_runs.specs.Places.{Among};
ghost use Rattle.elab_flat_faults.specs.Texts.{numbers_in};
ghost use Rattle.elab_flat_drivers.specs.Parts.{part_meant, reads_of};
ghost use Rattle.elab_flat_drivers.specs.Pieces.{piece_meant, actions};
ghost use Rattle.elab_step_flow.specs.Assigned.{assigned_by, IsAssigned};
ghost use Rattle.elab_step_flow.specs.Cases.{expr_meant};
ghost use Rattle.elab_step_flow.specs.Edges.{part_place, part_places};
ghost use Rattle.elab_step_flow.specs.Passes.{ReadsAt};
ghost use Rattle.elab_step_flow.specs.Shows.{AreDistinct};

use crate::scope::Scope;
use crate::sets::put_in_order;
use elab_flat_drivers::{
    Part, Piece, add_parts, add_reads, add_store_reads, name_of, pieces_of, reads_of,
};
use elab_flat_scopes::Names;
use std::alloc::{AllocError, Global};
use vlog_tree::{Expr, Lval, Stmt};

fn add_place(all: &mut Vec<usize>, names: &Names<'_>, part: Part<'_>) -> Result<(), AllocError>
    ensures { OnOk result (all.new.items ≡ all.old.items ++ part_place names.now (part_meant part.entry)) }
{
    if let Some(place) = names.place(name_of(part).bytes()) {
        all.push(place)?;
    }
    Ok(())
}

/// The places of the signals that parts name, in the order of the parts.
pub fn places_of(
    alloc: Global,
    names: &Names<'_>,
    parts: &[Part<'_>],
) -> Result<Vec<usize>, AllocError>
    ensures { IfOk result (λ r. r.items ≡ part_places names.now (map part_meant parts.now)) }
{
    let mut all = Vec::new(alloc);
    for part in parts {
        add_place(&mut all, names, *part)?;
    }
    Ok(all)
}

/// The places of the names that an assignment reads.
pub fn places_read(
    alloc: Global,
    scope: &Scope<'_>,
    left: &Lval,
    right: &Expr,
) -> Result<Vec<usize>, AllocError>
    requires { AreDistinct scope.now }
    ensures { IfOk result (λ r. ReadsAt scope.now (right.now ∷ numbers_in left.now) r.items) }
{
    let mut reads = Vec::new(alloc);
    add_store_reads(&mut reads, alloc, left, right)?;
    let places = places_of(alloc, scope.names(), &reads)?;
    Ok(places)
}

/// The places of the names in an expression.
pub fn places_tested(
    alloc: Global,
    scope: &Scope<'_>,
    expr: &Expr,
) -> Result<Vec<usize>, AllocError>
    requires { AreDistinct scope.now }
    ensures { IfOk result (λ r. ReadsAt scope.now (expr.now ∷ []) r.items) }
{
    let reads = reads_of(alloc, expr)?;
    let places = places_of(alloc, scope.names(), &reads)?;
    Ok(places)
}

// Adds what expressions read.
fn add_all_reads<'a>(all: &mut Vec<Part<'a>>, exprs: &[&'a Expr]) -> Result<(), AllocError>
    ensures { OnOk result (map part_meant all.new.items ≡ map part_meant all.old.items ++ flat_map reads_of
        (map expr_meant exprs.now)) }
{
    for expr in exprs {
        add_reads(all, *expr)?;
    }
    Ok(())
}

/// The places of the names in a case expression and in labels.
pub fn places_compared(
    alloc: Global,
    scope: &Scope<'_>,
    subject: &Expr,
    labels: &[&Expr],
) -> Result<Vec<usize>, AllocError>
    requires { AreDistinct scope.now }
    ensures { IfOk result (λ r. ReadsAt scope.now (subject.now ∷ map expr_meant labels.now) r.items) }
{
    let mut reads = reads_of(alloc, subject)?;
    add_all_reads(&mut reads, labels)?;
    let places = places_of(alloc, scope.names(), &reads)?;
    Ok(places)
}

// ---- places that are assigned

// Adds the parts of signals that a statement assigns at one place of its text.
fn add_assigned<'a>(all: &mut Vec<Part<'a>>, piece: Piece<'a>) -> Result<(), AllocError>
    ensures { OnOk result (map part_meant all.new.items ≡ map part_meant all.old.items ++ assigned_by
        (piece_meant piece.entry)) }
{
    match piece {
        Piece::Test(_) => Ok(()),
        Piece::Blocking(left, _) => add_parts(all, left),
        Piece::Nonblocking(left, _) => add_parts(all, left),
    }
}

// The parts of signals that a statement assigns.
fn assigned_parts(alloc: Global, body: &Stmt) -> Result<Vec<Part<'_>>, AllocError>
    ensures { IfOk result (λ r. map part_meant r.items ≡ flat_map assigned_by (actions body.now)) }
{
    let pieces = pieces_of(alloc, body)?;
    let mut all = Vec::new(alloc);
    for piece in &pieces {
        add_assigned(&mut all, *piece)?;
    }
    Ok(all)
}

/// The places of the signals that a statement assigns, in their order.
pub fn assigned(alloc: Global, scope: &Scope<'_>, body: &Stmt) -> Result<Vec<usize>, AllocError>
    ensures rises { IfOk result (λ r. IsStrictlyIncreasing r.items) }
    ensures assigned { IfOk result (λ r. (i : ℕ) → Among r.items i ↔ IsAssigned scope.now body.now i) }
{
    let parts = assigned_parts(alloc, body)?;
    let mut places = places_of(alloc, scope.names(), &parts)?;
    put_in_order(&mut places);
    Ok(places)
}
