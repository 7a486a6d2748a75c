ghost use Rattle.desk_core_stage_laws.specs.Names.{ReadTextsArePlain};

/// The modules that a text spells are plain: no name that they declare has a dot, and each name is read in the present
/// cycle.
pub fn read_texts_are_plain()
    ensures { ReadTextsArePlain }
{}
