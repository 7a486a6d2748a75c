ghost use Rattle.set_read_laws.specs.Readings.{SpellsOneSet, MeansOneSet, SpellsOrRefused};

/// A list of tokens spells at most one text of a set.
pub fn one_set()
    ensures { SpellsOneSet }
{}

/// A text spells at most one set that has nothing against it, and where it spells one it is refused for no fault of its
/// own.
pub fn one_reading()
    ensures set { MeansOneSet }
    ensures apart { SpellsOrRefused }
{}
