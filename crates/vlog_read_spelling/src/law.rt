ghost use Rattle.vlog_read_spelling.specs.Laws.{SpellsOneTree, SpellsOneList};

/// A list of tokens spells at most one expression, in a text of modules and in a set.
pub fn one_tree()
    ensures { SpellsOneTree }
{}

/// A list of tokens spells at most one list of modules.
pub fn one_module_list()
    ensures { SpellsOneList }
{}
