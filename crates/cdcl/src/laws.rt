ghost use Rattle.std.specs.Prelude.{List, Contains};
ghost use Rattle.clause_check.specs.declared.literal.Lit.{Lit};
ghost use Rattle.cdcl.specs.Closed.{IsNew};

/// A law on chains of learnt clauses, with nothing to run: a clause that has every literal of an earlier clause, as a
/// copy of it has, tells unit propagation nothing new.
pub fn supersets_are_not_new()
    ensures { (clauses : List (List Lit)) → (c d : List Lit) → Contains clauses c →
        ((m : Lit) → Contains c m → Contains d m) → IsNew clauses d → ⊥ }
{}
