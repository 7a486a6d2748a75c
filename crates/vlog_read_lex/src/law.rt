ghost use Rattle.vlog_read_lex.specs.Laws.{SpellsOneList, SpellsOrFaults, HasOneFault, FirstPlacesAreFirst, RunsAreLongest, SignsAreLongest, SignsStand};

/// A text spells at most one list of tokens, or has at most one first fault, and not both.
pub fn one_reading()
    ensures list { SpellsOneList }
    ensures apart { SpellsOrFaults }
    ensures fault { HasOneFault }
{}

/// Each run and each sign is the longest one at its place, and each comment the shortest.
pub fn longest()
    ensures first { FirstPlacesAreFirst }
    ensures runs { RunsAreLongest }
    ensures signs { SignsAreLongest }
    ensures stand { SignsStand }
{}
