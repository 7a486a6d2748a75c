// Where left sides stand.

/// Where a left side stands.
#[derive(Clone, Copy, PartialEq, Eq)]
pub enum Side {
    /// In a continuous assignment, or in a connection to an output.
    Continuous,
    /// In a block.
    Procedural,
}
