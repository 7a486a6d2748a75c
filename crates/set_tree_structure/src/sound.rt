// Sets with a sound structure.

ghost use Rattle.std.specs.Prelude.{◌≡◌, IfOk, IfErr};
ghost use Rattle.set_tree.specs.Formulas.{meaning_of};
ghost use Rattle.set_tree.specs.Structure.{IsSound};
ghost use Rattle.set_tree_structure.specs.Condition.{IsWellFormed};
ghost use Rattle.set_tree_structure.specs.Faults.{Stands, IsFirst};

use crate::fault::GraphFault;
use crate::find::first_fault;
use set_tree::Set;
use std::marker::Model;

/// A set whose structure is sound.
#[derive(Drop)]
pub struct Sound {
    set: Set,
}

impl Model for Sound {
    ghost use Rattle.vlog_tree.specs.contracts.expr.Expr as expr;
    ghost use Rattle.std.specs.Coded.{codes};
    ghost use Rattle.set_tree.specs.declared.set.Set.{Set};
    ghost use Rattle.set_tree.specs.Formulas.{meaning_of};
    ghost use Rattle.set_tree.specs.Structure.{IsSound};
    ghost use Rattle.set_tree_structure.specs.Condition.{IsWellFormed};

    ghost Value = { Set };

    ghost coded = { Prim.hlevel (codes, expr.the_row.coded) };

    ghost view = { λ s. s.set };

    ghost invariant = { λ s. IsSound (meaning_of s.set) s.set × IsWellFormed s.set };
}

impl Sound {
    /// The set.
    pub fn set(&self) -> &Set
        ensures value { result.now ≡ self.now }
        ensures sound { IsSound (meaning_of self.now) self.now }
        ensures formed { IsWellFormed self.now }
    {
        &self.set
    }

    /// The set, given back.
    pub fn into_set(self) -> Set
        ensures { result ≡ self }
    {
        let Sound { set } = self;
        set
    }
}

/// A set that is refused, and the first fault of its structure.
#[derive(Drop)]
pub struct Unsound {
    pub set: Set,
    pub fault: GraphFault,
}

/// Tests the structure of a set that keeps the bounds and the names of a set that was read. Refused by the first fault
/// that stands: what reset hands over, offsets of invariants and of domains, then for each property its edge into
/// reset, its offsets and its covers, and then the edges on which covers don't meet.
pub fn structure(set: Set) -> Result<Sound, Unsound>
    requires { IsWellFormed set }
    ensures ok { IfOk result (λ s. s ≡ set) }
    ensures sound { IfOk result (λ s. IsSound (meaning_of s) s) }
    ensures none { IfOk result (λ _. (f : GraphFault) → ¬ Stands set f) }
    ensures err { IfErr result (λ u. u.set ≡ set) }
    ensures fault { IfErr result (λ u. IsFirst set u.fault) }
    ensures unsound { IfErr result (λ u. ¬ IsSound (meaning_of set) set) }
{
    match first_fault(&set) {
        None => Ok(Sound { set }),
        Some(fault) => Err(Unsound { set, fault }),
    }
}

/// No fault stands in a set exactly where its structure is sound.
pub fn faults_are_exact()
    ensures sound { (set : Set) → IsWellFormed set → ((f : GraphFault) → ¬ Stands set f) →
        IsSound (meaning_of set) set }
    ensures none { (set : Set) → IsSound (meaning_of set) set → (f : GraphFault) → ¬ Stands set f }
{}
