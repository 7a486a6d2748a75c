/// A line of a report. Properties go by their position, 0 being the reset property and i being operation i - 1;
/// invariants go by theirs, from 0.
#[derive(Clone, Copy, PartialEq, Eq)]
pub enum Line {
    /// `base I`: after reset invariant I holds.
    Base(u32),
    /// `step I`: a step from where all invariants hold keeps invariant I.
    Step(u32),
    /// `reset`: after reset the reset property's commitment holds.
    Reset,
    /// `op P`: where P is assumed it commits.
    Operation(u32),
    /// `end P`: P has an end.
    End(u32),
    /// `split P`: where P ends, some successor is assumed.
    Split(u32),
    /// `same-end P`: P ends at one offset in both traces.
    SameEnd(u32),
    /// `choose P Q`: both traces go on with Q, or neither does.
    Choose(u32, u32),
    /// `hand P Q`: Q hands over the same in both traces.
    Hand(u32, u32),
    /// `determine P`: the outputs are determined wherever P covers them.
    Determine(u32),
}
