// What may be wrong with the structure of a set.

/// Where an offset stands. The positions are those of properties, 0 being reset and i operation i - 1, of invariants,
/// and of declared names.
#[derive(Clone, Copy, PartialEq, Eq)]
pub enum Place {
    Property(u32),
    Invariant(u32),
    Output(u32),
}

/// A fault of the structure of a set. Properties go by their positions, 0 being reset and i operation i - 1, and
/// outputs by theirs among the declared names.
#[derive(Clone, Copy, PartialEq, Eq)]
pub enum GraphFault {
    /// On the edge from a property to another, the cover of the output doesn't end where the other's begins.
    Tile(u32, u32, u32),
    /// The property has no cover of the output or several, or it leaves its bounds, or it doesn't begin at 0 in reset,
    /// or it ends by a number where the property ends by a condition.
    Cover(u32, u32),
    /// An offset above the window of its property, or above 0 in an invariant, a domain or the condition at which a
    /// property ends.
    Offset(Place),
    /// The property has reset as a successor.
    IntoReset(u32),
    /// Reset hands something over.
    HandAtReset,
}
