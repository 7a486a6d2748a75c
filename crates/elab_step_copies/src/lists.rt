// Lists of nodes, one for each number.
ghost use Rattle.std.specs.Prelude.{◌≡◌, ◌<◌, ◌∷◌, ◌++◌, ℕ, [], true, length, IfOk, OnOk};
ghost use Rattle.vlog_tree_runs.specs.Places.{Among};
ghost use Rattle.word_dag.specs.Walks.{Each, operands};
ghost use Rattle.elab_step_copies.specs.Copies.{list_at};
ghost use Rattle.elab_step_copies.specs.Walks.{IsNoted, IsTaken};

use std::alloc::{AllocError, Global};
use word_dag::Node;

/// So many empty lists.
pub fn empty_lists(alloc: Global, count: usize) -> Result<Vec<Vec<u64>>, AllocError>
    ensures long { IfOk result (λ r. length r.items ≡ count) }
    ensures empty { IfOk result (λ r. (i : ℕ) → list_at r.items i ≡ []) }
{
    let mut lists = Vec::new(alloc);
    for _ in 0..count {
        lists.push(Vec::new(alloc))?;
    }
    Ok(lists)
}

// Whether a list ends with a node.
fn ends_with(list: &[u64], number: u64) -> bool
    ensures { result ≡ true → Among list.now number }
{
    match list.last() {
        Some(last) => *last == number,
        None => false,
    }
}

/// Adds a node to a list, unless it ends with it already.
pub fn note_at(lists: &mut Vec<Vec<u64>>, at: usize, number: u64) -> Result<(), AllocError>
    requires { at < length lists.old.items }
    ensures { OnOk result (IsNoted lists.old.items lists.new.items (at ∷ []) number) }
{
    // (a node with one operand twice is noted once)
    if ends_with(&lists[at], number) {
        return Ok(());
    }
    lists[at].push(number)?;
    Ok(())
}

/// Adds a node to the lists of its operands.
pub fn note(lists: &mut Vec<Vec<u64>>, node: &Node, number: u64) -> Result<(), AllocError>
    requires { Each (λ a. a < length lists.old.items) (operands node.now) }
    ensures { OnOk result (IsNoted lists.old.items lists.new.items (operands node.now) number) }
{
    match node {
        Node::Free { .. } | Node::Const(_) => (),
        Node::Two { a, b, .. } => {
            note_at(lists, *a as usize, number)?;
            note_at(lists, *b as usize, number)?;
        }
        Node::Not { a, .. } | Node::Slice { a, .. } | Node::Zext { a, .. } | Node::Sext { a, .. } =>
            note_at(lists, *a as usize, number)?,
        Node::Mux { c, a, b, .. } => {
            note_at(lists, *c as usize, number)?;
            note_at(lists, *a as usize, number)?;
            note_at(lists, *b as usize, number)?;
        }
    }
    Ok(())
}

/// Moves the nodes of a list to the end of another one.
pub fn take_list(lists: &mut Vec<Vec<u64>>, at: usize, all: &mut Vec<u64>) -> Result<(), AllocError>
    requires { at < length lists.old.items }
    ensures lists { OnOk result (IsTaken lists.old.items lists.new.items at) }
    ensures all { OnOk result (all.new.items ≡ all.old.items ++ list_at lists.old.items at) }
{
    all.append(&mut lists[at])?;
    Ok(())
}
