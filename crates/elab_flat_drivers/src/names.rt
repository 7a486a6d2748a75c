// The names that are assigned, and those of signals.

ghost use Rattle.std.specs.Prelude.{◌≡◌, ◌++◌, OnOk, IfOk, IfSome, IfNone, map};
ghost use Rattle.std.specs.List.{flat_map};
ghost use Rattle.std.specs.Option.{option_copied, option_to_list};
ghost use Rattle.vlog_tree.specs.declared.item.Assign.{Assign as Equation};
ghost use Rattle.vlog_tree_runs.specs.Places.{Name, Among};
ghost use Rattle.vlog_tree_runs.specs.Blocks.{left_names};
ghost use Rattle.elab_flat_scopes.specs.Borrowed.{name_meant};
ghost use Rattle.elab_flat_drivers.specs.Parts.{part_meant};
ghost use Rattle.elab_flat_drivers.specs.Pieces.{piece_meant};
ghost use Rattle.elab_flat_drivers.specs.Names.{action_lefts, form_lefts, chosen_names, declared_names, is_same};

use crate::parts::{name_of, parts_of};
use crate::pieces::{Piece, pieces_of};
use elab_flat_scopes::Names;
use outside::Text;
use std::alloc::{AllocError, Global};
use vlog_tree::{Assign, Lval, Stmt};
use vlog_tree_runs::{Always, Signal};

/// Which assignments of a block are meant.
#[derive(Clone, Copy)]
pub enum Form {
    Any,
    Blocking,
    Nonblocking,
}

fn is_same(a: bool, b: bool) -> bool
    ensures { result ≡ is_same a b }
{
    if a { b } else { !b }
}

/// Adds the names of the signals that a left side assigns.
pub fn add_left_names<'a>(
    all: &mut Vec<&'a Text>,
    alloc: Global,
    left: &'a Lval,
) -> Result<(), AllocError>
    ensures { OnOk result (map name_meant all.new.items ≡ map name_meant all.old.items ++ left_names left.now) }
{
    let parts = parts_of(alloc, left)?;
    for part in &parts {
        all.push(name_of(*part))?;
    }
    Ok(())
}

/// The left side of an assignment of this form.
pub fn left_of(piece: Piece<'_>, form: Form) -> Option<&Lval>
    ensures { option_to_list (option_copied result) ≡ action_lefts form (piece_meant piece.entry) }
{
    match piece {
        Piece::Test(_) => None,
        Piece::Blocking(left, _) => match form {
            Form::Any => Some(left),
            Form::Blocking => Some(left),
            Form::Nonblocking => None,
        },
        Piece::Nonblocking(left, _) => match form {
            Form::Any => Some(left),
            Form::Blocking => None,
            Form::Nonblocking => Some(left),
        },
    }
}

fn add_body_names<'a>(
    all: &mut Vec<&'a Text>,
    alloc: Global,
    body: &'a Stmt,
    form: Form,
) -> Result<(), AllocError>
    ensures { OnOk result (map name_meant all.new.items ≡ map name_meant all.old.items ++ flat_map left_names
        (form_lefts form body.now)) }
{
    let pieces = pieces_of(alloc, body)?;
    for piece in &pieces {
        if let Some(left) = left_of(*piece, form) {
            add_left_names(all, alloc, left)?;
        }
    }
    Ok(())
}

/// The names that assignments of a form in clocked or in combinational blocks have on their left.
pub fn block_names(
    alloc: Global,
    blocks: &[Always],
    clocked: bool,
    form: Form,
) -> Result<Vec<&Text>, AllocError>
    ensures { IfOk result (λ r. map name_meant r.items ≡ flat_map (chosen_names clocked form) blocks.now) }
{
    let mut all = Vec::new(alloc);
    for block in blocks {
        if is_same(clocked, block.clocked) {
            add_body_names(&mut all, alloc, &block.body, form)?;
        }
    }
    Ok(all)
}

/// The names that continuous assignments have on their left.
pub fn assign_names(alloc: Global, assigns: &[Assign]) -> Result<Vec<&Text>, AllocError>
    ensures { IfOk result (λ r. map name_meant r.items ≡ flat_map (λ (a : Equation). left_names a.left) assigns.now) }
{
    let mut all = Vec::new(alloc);
    for assign in assigns {
        add_left_names(&mut all, alloc, &assign.left)?;
    }
    Ok(all)
}

/// The names of the signals that are declared by `reg`, or of those that aren't.
pub fn declared_names(alloc: Global, signals: &[Signal], reg: bool) -> Result<Names<'_>, AllocError>
    ensures { IfOk result (λ r. r ≡ flat_map (declared_names reg) signals.now) }
{
    let mut all = Vec::new(alloc);
    for signal in signals {
        if is_same(reg, signal.reg) {
            all.push(&signal.name)?;
        }
    }
    Names::of(alloc, all)
}

/// The first of some names that stands among others.
pub fn shared<'a>(names: &[&'a Text], others: &Names<'_>) -> Option<&'a Text>
    ensures some { IfSome result (λ x. Among (map name_meant names.now) x.now × Among others.now x.now) }
    ensures none { IfNone result ((x : Name) → Among (map name_meant names.now) x → Among others.now x → ⊥) }
{
    for name in names {
        if others.has(name.bytes()) {
            return Some(name);
        }
    }
    None
}
