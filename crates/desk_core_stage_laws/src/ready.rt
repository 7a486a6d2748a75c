// The laws.

ghost use Rattle.desk_core_stage_laws.specs.Ready.{FlatHasSizedTexts, MovedBlocksStayReady};

/// A list of modules for which no fault of flattening stands gives a module without instances whose texts can be taken
/// where they stand.
pub fn flat_has_sized_texts()
    ensures { FlatHasSizedTexts }
{}

/// The texts of a block that is fit may be taken in the place that it is moved to.
pub fn moved_blocks_stay_ready()
    ensures { MovedBlocksStayReady }
{}
