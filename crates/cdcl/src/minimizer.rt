ghost use Rattle.std.specs.Prelude.{◌≡◌, ◌<◌, All, IfOk, IfSome, length, take, slice_index_or};
ghost use Rattle.clause_check.specs.Clauses.{IsInRange};
ghost use Rattle.cdcl.specs.declared.trail.Entry.{Entry as EntryValue};
ghost use Rattle.cdcl.specs.Marking.{HasReasons, IsForcedBy};
ghost use Rattle.cdcl.specs.Reasons.{clauses_in, entries_in};

use crate::reasons::Reasons;
use clause_check::clause_at;
use std::alloc::{AllocError, Global};

// Through how many clauses a literal is followed back, to see that it is redundant.
const DEPTH: u32 = 4;

/// Which literals of a learnt clause are redundant, since the others imply them (Sörensson and Biere, 2009), as far as
/// it is known: the answers so far, by place in the trail, and the lowest seen place, below which no literal is
/// followed back.
#[derive(Drop)]
pub struct Minimizer {
    answers: Vec<Option<bool>>,
    lowest: usize,
}

impl Minimizer {
    /// Nothing is found yet.
    pub fn new(alloc: Global, seen: &[bool]) -> Result<Minimizer, AllocError>
        ensures { IfOk result (λ m. length m.answers.items ≡ length seen.now) }
    {
        Ok(Minimizer {
            answers: vec![in alloc; None; seen.len()]?,
            lowest: seen.iter().position(|s| *s).unwrap_or(0),
        })
    }

    // Whether the literal at a place follows from those at seen places, by the clauses that forced literals before it:
    // followed back through so many of them, and not below the lowest seen place. The answers so far are kept.
    fn is_redundant(
        &mut self,
        reasons: &Reasons<'_>,
        seen: &[bool],
        place: usize,
        depth: u32,
    ) -> bool
        requires in_range { All (λ s. IsInRange reasons.now.cnf.now.vars s.clause) reasons.now.steps.now }
        requires reasons { HasReasons (clauses_in reasons.now) (entries_in reasons.now) }
        requires within { place < length (entries_in reasons.now) }
        requires len { length seen.now ≡ length (entries_in reasons.now) }
        requires room { length self.old.answers.items ≡ length (entries_in reasons.now) }
        ensures { length self.new.answers.items ≡ length self.old.answers.items }
    {
        if let Some(known) = self.answers[place] {
            return known;
        }
        if depth == 0 || place < self.lowest {
            return false;
        }
        match reasons.trail.entries()[place].reason {
            Some(reason) => {
                for lit in clause_at(reasons.cnf, reasons.steps, reason) {
                    let other = reasons.trail.place(lit.var);
                    if other != place
                        && !seen[other]
                        && !self.is_redundant(reasons, seen, other, depth - 1)
                    {
                        self.answers[place] = Some(false);
                        return false;
                    }
                }
                self.answers[place] = Some(true);
                true
            }
            None => false,
        }
    }

    /// The number of the clause that forced the literal at a seen place, where the literal is redundant.
    pub fn redundant_by(
        &mut self,
        reasons: &Reasons<'_>,
        seen: &[bool],
        place: usize,
    ) -> Option<u32>
        requires in_range { All (λ s. IsInRange reasons.now.cnf.now.vars s.clause) reasons.now.steps.now }
        requires reasons { HasReasons (clauses_in reasons.now) (entries_in reasons.now) }
        requires within { place < length (entries_in reasons.now) }
        requires len { length seen.now ≡ length (entries_in reasons.now) }
        requires room { length self.old.answers.items ≡ length (entries_in reasons.now) }
        ensures forced { IfSome result (λ r. (d : EntryValue) → IsForcedBy (clauses_in reasons.now)
            (take place (entries_in reasons.now)) (slice_index_or (entries_in reasons.now) place d).lit r) }
        ensures room { length self.new.answers.items ≡ length self.old.answers.items }
    {
        if !seen[place] || !self.is_redundant(reasons, seen, place, DEPTH) {
            return None;
        }
        reasons.trail.entries()[place].reason
    }
}
