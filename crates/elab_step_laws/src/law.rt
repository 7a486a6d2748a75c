// The laws.

ghost use Rattle.elab_step_laws.specs.Laws.{StoreStays, BitsStay, StoreApart, BitsApart, StoreFollows, FlowFollows, BitsFollow, PassesArePaths};

use vlog_tree_runs::bits_are_written;

/// A bit that an assignment doesn't drive is as it was, and so is one that no left side of a block drives.
pub fn bits_stay()
    ensures assignment { StoreStays }
    ensures block { BitsStay }
{
    bits_are_written();
}

/// Where what is read is fixed, a bit depends on no other bit of what is written over.
pub fn bits_are_apart()
    ensures assignment { StoreApart }
    ensures block { BitsApart }
{
    bits_are_written();
}

/// A bit that an assignment surely sets depends on the names that it reads alone. A bit that a block sets on every path
/// depends on those that assignments to its signal depend on, by the pass through the text as by its paths.
pub fn bits_follow()
    ensures assignment { StoreFollows }
    ensures flow { FlowFollows }
    ensures paths { BitsFollow }
{
    bits_are_written();
}

/// One pass through a block says which bits some path leaves unset, what assignments on some path depend on, and what
/// some path reads before it has set all of it.
pub fn passes_are_paths()
    ensures { PassesArePaths }
{}
