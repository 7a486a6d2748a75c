// The law.
ghost use Rattle.word_dag.specs.Names.{ObligationsHaveOneWordEach, ValuesHaveNamings, WidthsAreKept};

/// Where no two free words of an obligation have one name, side and cycle, any values of its free nodes are those of a
/// naming: at it each node has the word that it has at these values.
pub fn values_have_namings()
    ensures { ValuesHaveNamings }
{}

/// An obligation that is taken out of a dag whose free words of one name, side and cycle have one length has each of
/// them once; nodes that add no free word keep this of a dag.
pub fn obligations_have_one_word_each()
    ensures taken { ObligationsHaveOneWordEach }
    ensures kept { WidthsAreKept }
{}
