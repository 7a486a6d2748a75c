// What helpers are and say.
ghost use Rattle.std.specs.Prelude.{◌≡◌, ℕ, Bool, false};
ghost use Rattle.helper_box.specs.Asked.{one_more, counted};

use clause_check::{Cnf, Step};
use std::alloc::{AllocError, Global};
use word_dag::Ob;

/// What a helper says of an obligation.
#[derive(Debug, Drop)]
pub enum Claim {
    Nothing,
    /// These steps refute the clauses of the obligation, so that no values make its root 1.
    Unsat(Vec<Step>),
    /// These values of the free words, in the order of their nodes, make its root 1.
    Values(Vec<u64>),
}

/// Claims that are made out of turn, so that many can be made side by side.
pub trait Claims {
    /// What it claims of an obligation, of which these are the clauses, and none where it claims in its turn alone. It
    /// is refused where its own memory runs out.
    fn claim(&self, _alloc: Global, _ob: &Ob, _cnf: &Cnf) -> Result<Option<Claim>, AllocError> {
        Ok(None)
    }
}

/// One that may claim whatever it likes.
pub trait Helper: Claims + Drop + Sync {
    ghost asked: { Self → ℕ };

    ghost ahead: { Self → Bool } = { λ _. false };

    /// Its claim about an obligation, of which these are the clauses. It is refused where the helper's own memory runs
    /// out.
    fn offer(&mut self, alloc: Global, ob: &Ob, cnf: &Cnf) -> Result<Claim, AllocError>
        ensures { asked self.new ≡ one_more (asked self.old) };

    /// Whether it makes its claims out of turn. If so, it counts that it was asked.
    fn count(&mut self) -> bool
        ensures ahead { result ≡ ahead self.old }
        ensures asked { asked self.new ≡ counted result (asked self.old) };

    /// How often it was asked, up to the greatest number of 64 bits.
    fn offers(&self) -> u64
        ensures { result ≡ asked self.now };
}

impl Claims for Box<dyn Helper> {
    fn claim(&self, alloc: Global, ob: &Ob, cnf: &Cnf) -> Result<Option<Claim>, AllocError> {
        (**self).claim(alloc, ob, cnf)
    }
}

impl Helper for Box<dyn Helper> {
    ghost asked = { λ b. (Helper-box b).Helper.asked b.value };

    ghost ahead = { λ b. (Helper-box b).Helper.ahead b.value };

    fn offer(&mut self, alloc: Global, ob: &Ob, cnf: &Cnf) -> Result<Claim, AllocError> {
        (**self).offer(alloc, ob, cnf)
    }

    fn count(&mut self) -> bool {
        (**self).count()
    }

    fn offers(&self) -> u64 {
        (**self).offers()
    }
}
