// A set beside both windows as nodes.

use crate::frame::Frames;
use crate::window::NodeRow;
use set_tree::Set;
use std::alloc::Global;

/// What the nodes of a line are made with: the set, and both windows as nodes, which reach as far as any of its lines
/// does.
#[derive(Drop)]
pub struct Twins<'a> {
    pub alloc: Global,
    pub set: &'a Set,
    pub frames: Frames,
}

/// The same rows of two windows.
#[derive(Clone, Copy)]
pub struct RowPair<'a> {
    pub first: &'a [NodeRow],
    pub second: &'a [NodeRow],
}

/// The offsets from `from` on that stand before `to`.
#[derive(Clone, Copy)]
pub struct Span {
    pub from: usize,
    pub to: usize,
}
