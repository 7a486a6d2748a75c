// The law.

ghost use Rattle.desk_core_stage_laws.specs.Numbers.{FlatIsNumbered};

/// A list of modules for which no fault of a constant or a length stands gives a module without instances whose signals
/// have bits of numbers below 2^64.
pub fn flat_is_numbered()
    ensures { FlatIsNumbered }
{}
