// The signals that a statement names, apart from all others of a module: what is done for each signal then goes with
// the size of the statement alone.

ghost use Rattle.std.specs.Prelude.{◌≡◌, ◌++◌, ◌<◌, ◌↔◌, ℕ, length, map, slice_index, IfOk, OnOk};
ghost use Rattle.std.specs.List.{flat_map};
ghost use Rattle.std.specs.List.Sorted.{IsStrictlyIncreasing};
ghost use Rattle.vlog_tree_runs.specs.Places.{Among};
ghost use Rattle.elab_flat_faults.specs.Drivers.{parts_of};
ghost use Rattle.elab_flat_drivers.specs.Parts.{part_meant, reads_of};
ghost use Rattle.elab_flat_drivers.specs.Pieces.{piece_meant, actions};
ghost use Rattle.elab_flat_drivers.specs.Spots.{signal_name};
ghost use Rattle.elab_flat_drivers.specs.Wanting.{left_reads};
ghost use Rattle.elab_step_flow.specs.Asked.{AreVectors, IsPassable};
ghost use Rattle.elab_step_flow.specs.Marks.{IsPlaceOf};
ghost use Rattle.elab_step_flow.specs.Own.{names_of, action_parts, AreSignalsAt, AreOwn};
ghost use Rattle.elab_step_flow.specs.Words.{IsSignalAt};

use crate::places::places_of;
use crate::scope::Scope;
use crate::sets::put_in_order;
use elab_flat_drivers::{Part, Piece, add_parts, add_reads, add_store_reads, pieces_of};
use outside::Text;
use std::alloc::{AllocError, Global};
use vlog_tree::{Expr, Lval, Stmt};
use vlog_tree_runs::Signal;

/// The signals of a list that a statement names.
#[derive(Drop)]
pub struct OwnSignals {
    /// Their places in the list.
    pub places: Vec<usize>,
    pub signals: Vec<Signal>,
}

// Adds the parts of signals that an assignment assigns and reads.
fn add_sides<'a>(
    all: &mut Vec<Part<'a>>,
    alloc: Global,
    left: &'a Lval,
    right: &'a Expr,
) -> Result<(), AllocError>
    ensures { OnOk result (map part_meant all.new.items ≡ map part_meant all.old.items ++
        (parts_of left.now ++ (left_reads left.now ++ reads_of right.now))) }
{
    add_parts(all, left)?;
    add_store_reads(all, alloc, left, right)
}

// Adds the parts of signals that a statement names at one place of its text.
fn add_piece_parts<'a>(
    all: &mut Vec<Part<'a>>,
    alloc: Global,
    piece: Piece<'a>,
) -> Result<(), AllocError>
    ensures { OnOk result (map part_meant all.new.items ≡ map part_meant all.old.items ++ action_parts
        (piece_meant piece.entry)) }
{
    match piece {
        Piece::Test(expr) => add_reads(all, expr),
        Piece::Blocking(left, right) => add_sides(all, alloc, left, right),
        Piece::Nonblocking(left, right) => add_sides(all, alloc, left, right),
    }
}

// The parts of signals that a statement names.
fn named_parts(alloc: Global, body: &Stmt) -> Result<Vec<Part<'_>>, AllocError>
    ensures { IfOk result (λ r. map part_meant r.items ≡ flat_map action_parts (actions body.now)) }
{
    let pieces = pieces_of(alloc, body)?;
    let mut all = Vec::new(alloc);
    for piece in &pieces {
        add_piece_parts(&mut all, alloc, *piece)?;
    }
    Ok(all)
}

// The places of a statement's names, in their order.
fn named(alloc: Global, scope: &Scope<'_>, body: &Stmt) -> Result<Vec<usize>, AllocError>
    ensures rises { IfOk result (λ r. IsStrictlyIncreasing r.items) }
    ensures named { IfOk result (λ r. (i : ℕ) → Among r.items i ↔
        IsPlaceOf (map signal_name scope.now) (names_of body.now) i) }
{
    let parts = named_parts(alloc, body)?;
    let mut places = places_of(alloc, scope.names(), &parts)?;
    put_in_order(&mut places);
    Ok(places)
}

fn copy_at(alloc: Global, signals: &[Signal], place: usize) -> Result<Signal, AllocError>
    requires { place < length signals.now }
    ensures { IfOk result (λ r. IsSignalAt signals.now place r) }
{
    let signal = &signals[place];
    Ok(Signal {
        name: Text::copy(alloc, signal.name.bytes())?,
        width: signal.width,
        low: signal.low,
        signed: signal.signed,
        reg: signal.reg,
        depth: signal.depth,
    })
}

// Copies of the signals at some places.
fn signals_at(
    alloc: Global,
    signals: &[Signal],
    places: &[usize],
) -> Result<Vec<Signal>, AllocError>
    requires { (i : ℕ) → Among places.now i → i < length signals.now }
    ensures { IfOk result (λ r. AreSignalsAt signals.now places.now r.items) }
{
    let mut copies = Vec::new(alloc);
    for place in places {
        copies.push(copy_at(alloc, signals, *place)?)?;
    }
    Ok(copies)
}

/// The signals that a statement names, among which it does what it does among all of them.
pub fn own_signals(alloc: Global, scope: &Scope<'_>, body: &Stmt) -> Result<OwnSignals, AllocError>
    requires vectors { AreVectors scope.now }
    requires body { IsPassable scope.now body.now }
    ensures { IfOk result (λ r. AreOwn scope.now body.now r.places.items r.signals.items) }
{
    let places = named(alloc, scope, body)?;
    let signals = signals_at(alloc, scope.list(), &places)?;
    Ok(OwnSignals { places, signals })
}

/// The place in the list that a place among the statement's signals stands for.
pub fn whole_place(places: &[usize], place: usize) -> usize
    requires { place < length places.now }
    ensures { result ≡ slice_index places.now place }
{
    places[place]
}
