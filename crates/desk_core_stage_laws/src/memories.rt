// The laws.

ghost use Rattle.desk_core_stage_laws.specs.Memories.{SizedCanSpread, SizedIsReady, SpreadCanElaborate, SpreadIsNumbered};

/// A module without instances whose texts can be taken where they stand can be freed of its memories.
pub fn sized_can_spread()
    ensures can { SizedCanSpread }
    ensures ready { SizedIsReady }
{}

/// Where it has no fault of memories, it can be made a design without them.
pub fn spread_can_elaborate()
    ensures { SpreadCanElaborate }
{}

/// Without its memories its bits have numbers of words where they have with them.
pub fn spread_is_numbered()
    ensures { SpreadIsNumbered }
{}
