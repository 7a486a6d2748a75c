// What completeness needs: sets that lack one premise alone, and aren't complete.
ghost use Rattle.set_tree.specs.Formulas.{meaning_of};
ghost use Rattle.set_tree.specs.Lines.{AreValid};
ghost use Rattle.set_tree.specs.Structure.{IsSound};
ghost use Rattle.set_tree.specs.Traces.{IsComplete};
ghost use Rattle.set_tree_completeness.specs.Needed.{AreValidButHand, AreValidButSameEnd, IsCompletePastWindow, IsSoundButResetFixed, IsSoundButTiled, always_low, uncovered, unfixed, unhanded, untimed};

use crate::{formulas_read_within, valid_lines_are_complete};

/// The lines of the kind `hand` are needed: in a sound set nothing may violate any other line, and yet the set isn't
/// complete.
pub fn hand_lines_are_needed()
    ensures sound { IsSound (meaning_of unhanded) unhanded }
    ensures valid { AreValidButHand (meaning_of unhanded) unhanded }
    ensures incomplete { ¬ IsComplete (meaning_of unhanded) unhanded }
{}

/// The lines of the kind `same-end` are needed, likewise.
pub fn same_end_lines_are_needed()
    ensures sound { IsSound (meaning_of untimed) untimed }
    ensures valid { AreValidButSameEnd (meaning_of untimed) untimed }
    ensures incomplete { ¬ IsComplete (meaning_of untimed) untimed }
{}

/// A reset property of fixed length is needed: a set that is sound but for this may have no violated line, and yet
/// isn't complete, since no line speaks of where reset ends.
pub fn fixed_resets_are_needed()
    ensures sound { IsSoundButResetFixed (meaning_of unfixed) unfixed }
    ensures valid { AreValid (meaning_of unfixed) unfixed }
    ensures incomplete { ¬ IsComplete (meaning_of unfixed) unfixed }
{}

/// It is needed that covers meet on each edge: a set that is sound but for this may have no violated line, and yet
/// isn't complete, since a cycle without a cover is claimed by nobody.
pub fn meeting_covers_are_needed()
    ensures sound { IsSoundButTiled (meaning_of uncovered) uncovered }
    ensures valid { AreValid (meaning_of uncovered) uncovered }
    ensures incomplete { ¬ IsComplete (meaning_of uncovered) uncovered }
{}

/// Completeness speaks only of cycles after which the largest window fits: a sound set without a violated line is
/// complete, and yet an output may differ at a cycle where one row is missing for it.
pub fn windows_must_fit()
    ensures sound { IsSound (meaning_of always_low) always_low }
    ensures valid { AreValid (meaning_of always_low) always_low }
    ensures complete { IsComplete (meaning_of always_low) always_low }
    ensures past { ¬ IsCompletePastWindow (meaning_of always_low) always_low }
{
    formulas_read_within();
    valid_lines_are_complete();
}
