ghost use Rattle.std.specs.Prelude.{◌≡◌};
ghost use Rattle.set_read_lookup.specs.Faults.{word_of};

/// What has bounds in a set.
#[derive(Clone, Copy, PartialEq, Eq)]
pub enum Quantity {
    /// A length in bits, 1 to 64.
    Width,
    /// The cycles for which reset is active, 1 to 16.
    Cycles,
    /// The length of an operation in cycles, 1 to 64, and of the reset property, 0 to 64.
    Length,
    /// The window of a property, its length to 64, and the offsets of a constraint, 0 to 64.
    Window,
    /// How many operations a set has, 1 to 64.
    Operations,
    /// How many invariants it has, 0 to 64.
    Invariants,
    /// How many constraints it has, 0 to 64.
    Constraints,
    /// How many names it declares, 1 to 256.
    Names,
    /// How many values an operation hands over, 0 to 64.
    Hands,
}

impl Quantity {
    /// Its word in a message.
    pub fn word(self) -> &'static [u8]
        ensures { result.now ≡ word_of self }
    {
        match self {
            Quantity::Width => b"width",
            Quantity::Cycles => b"cycles",
            Quantity::Length => b"length",
            Quantity::Window => b"window",
            Quantity::Operations => b"operations",
            Quantity::Invariants => b"invariants",
            Quantity::Constraints => b"constraints",
            Quantity::Names => b"names",
            Quantity::Hands => b"hands",
        }
    }
}
