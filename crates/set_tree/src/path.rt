// The operations of a trace.

use sqlite_items::Items;

/// A property, by its position, and the cycle at which it starts.
#[derive(Clone, Copy, PartialEq, Eq)]
pub struct At {
    pub property: u32,
    pub start: u64,
}

/// The properties of a trace one after another, from reset on.
#[derive(Drop)]
pub struct Path {
    pub steps: Items<At>,
    /// The last property of the path has no end, or no successor is assumed at its end.
    pub stuck: bool,
}
