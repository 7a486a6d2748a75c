// Nodes of one bit, and tests of words.
ghost use Rattle.std.specs.Prelude.{◌≡◌, ℕ, ◌==◌, ◌<◌, ◌≤◌, Bool, not, ◌&&◌, ◌||◌, length, map, slice_index, IfOk};
ghost use Rattle.word_dag.specs.Nodes.{Naming, width_of};
ghost use Rattle.word_dag.specs.Adding.{Keeps};
ghost use Rattle.twin_tests_laws.specs.Tests.{same};
ghost use Rattle.twin_tests.specs.Building.{HasWidth, IsWide, Tests, Counts};

use std::alloc::AllocError;
use word_core::Word;
use word_dag::{Dag, Node, Op};

// The width of a node of the dag.
fn width_at(dag: &Dag, a: u64) -> u8
    requires { a < length dag.now }
    ensures { result ≡ slice_index (map width_of dag.now) a }
{
    dag.node(a).width()
}

/// A bit that is the same at all values.
#[tactic(auto, using(crate::proofs::Standing::words))]
pub fn constant(dag: &mut Dag, holds: bool) -> Result<u64, AllocError>
    ensures keeps { IfOk result (λ _. Keeps dag.old dag.new) }
    ensures width { IfOk result (λ i. HasWidth dag.new i 1) }
    ensures node { IfOk result (λ i. Tests dag.new i (λ e. holds)) }
{
    dag.add(Node::Const(Word::new(1, u64::from(holds))))
}

/// Both tests hold.
#[tactic(auto, using(crate::proofs::Standing::words))]
pub fn both(dag: &mut Dag, a: u64, b: u64) -> Result<u64, AllocError>
    requires first { HasWidth dag.old a 1 }
    requires second { HasWidth dag.old b 1 }
    ensures keeps { IfOk result (λ _. Keeps dag.old dag.new) }
    ensures width { IfOk result (λ i. HasWidth dag.new i 1) }
    ensures node { IfOk result (λ i. (f g : Naming → Bool) → Tests dag.old a f → Tests dag.old b g →
        Tests dag.new i (λ e. f e && g e)) }
{
    dag.add(Node::Two {
        op: Op::And,
        width: 1,
        a,
        b,
    })
}

/// One of the tests holds.
#[tactic(auto, using(crate::proofs::Standing::words))]
pub fn either(dag: &mut Dag, a: u64, b: u64) -> Result<u64, AllocError>
    requires first { HasWidth dag.old a 1 }
    requires second { HasWidth dag.old b 1 }
    ensures keeps { IfOk result (λ _. Keeps dag.old dag.new) }
    ensures width { IfOk result (λ i. HasWidth dag.new i 1) }
    ensures node { IfOk result (λ i. (f g : Naming → Bool) → Tests dag.old a f → Tests dag.old b g →
        Tests dag.new i (λ e. f e || g e)) }
{
    dag.add(Node::Two {
        op: Op::Or,
        width: 1,
        a,
        b,
    })
}

/// The test doesn't hold.
#[tactic(auto, using(crate::proofs::Standing::words))]
pub fn negated(dag: &mut Dag, a: u64) -> Result<u64, AllocError>
    requires { HasWidth dag.old a 1 }
    ensures keeps { IfOk result (λ _. Keeps dag.old dag.new) }
    ensures width { IfOk result (λ i. HasWidth dag.new i 1) }
    ensures node { IfOk result (λ i. (f : Naming → Bool) → Tests dag.old a f → Tests dag.new i (λ e. not (f e))) }
{
    dag.add(Node::Not { width: 1, a })
}

/// Both tests hold, or neither does.
#[tactic(auto, using(crate::proofs::Standing::words))]
pub fn same(dag: &mut Dag, a: u64, b: u64) -> Result<u64, AllocError>
    requires first { HasWidth dag.old a 1 }
    requires second { HasWidth dag.old b 1 }
    ensures keeps { IfOk result (λ _. Keeps dag.old dag.new) }
    ensures width { IfOk result (λ i. HasWidth dag.new i 1) }
    ensures node { IfOk result (λ i. (f g : Naming → Bool) → Tests dag.old a f → Tests dag.old b g →
        Tests dag.new i (λ e. same (f e) (g e))) }
{
    dag.add(Node::Two {
        op: Op::Eq,
        width: 1,
        a,
        b,
    })
}

// The number at a greater width.
#[tactic(auto, using(crate::proofs::Standing::words))]
fn widened(dag: &mut Dag, a: u64, width: u8) -> Result<u64, AllocError>
    requires node { IsWide dag.old a }
    requires wider { slice_index (map width_of dag.old) a ≤ width }
    requires most { width ≤ 64 }
    ensures keeps { IfOk result (λ _. Keeps dag.old dag.new) }
    ensures width { IfOk result (λ i. HasWidth dag.new i width) }
    ensures node { IfOk result (λ i. (f : Naming → ℕ) → Counts dag.old a f → Counts dag.new i f) }
{
    if width_at(dag, a) == width {
        return Ok(a);
    }
    dag.add(Node::Zext { width, a })
}

/// Two words have the same number.
#[tactic(auto, using(crate::proofs::Standing::words))]
pub fn equal(dag: &mut Dag, a: u64, b: u64) -> Result<u64, AllocError>
    requires first { IsWide dag.old a }
    requires second { IsWide dag.old b }
    ensures keeps { IfOk result (λ _. Keeps dag.old dag.new) }
    ensures width { IfOk result (λ i. HasWidth dag.new i 1) }
    ensures node { IfOk result (λ i. (f g : Naming → ℕ) → Counts dag.old a f → Counts dag.old b g →
        Tests dag.new i (λ e. f e == g e)) }
{
    let width = width_at(dag, a).max(width_at(dag, b));
    let a = widened(dag, a, width)?;
    let b = widened(dag, b, width)?;
    dag.add(Node::Two {
        op: Op::Eq,
        width: 1,
        a,
        b,
    })
}

/// The number isn't 0.
#[tactic(auto, using(crate::proofs::Standing::words))]
pub fn nonzero(dag: &mut Dag, a: u64) -> Result<u64, AllocError>
    requires { IsWide dag.old a }
    ensures keeps { IfOk result (λ _. Keeps dag.old dag.new) }
    ensures width { IfOk result (λ i. HasWidth dag.new i 1) }
    ensures node { IfOk result (λ i. (f : Naming → ℕ) → Counts dag.old a f → Tests dag.new i (λ e. not (f e == 0))) }
{
    let zero = dag.add(Node::Const(Word::new(width_at(dag, a), 0)))?;
    let is_zero = equal(dag, a, zero)?;
    negated(dag, is_zero)
}
