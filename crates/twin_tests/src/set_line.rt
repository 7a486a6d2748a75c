// The lines of a set.
ghost use Rattle.std.specs.Prelude.{◌≡◌};
ghost use Rattle.twin_tests_laws.specs.Laws.{property_of};
ghost use Rattle.twin_tests.specs.Ordering.{line_of};

use set_tree::Line;

/// A line of a report on a set, which speaks of windows and of no design. Properties go by their position, 0 being the
/// reset property.
#[derive(Clone, Copy)]
pub enum SetLine {
    /// `end P`: P has an end.
    End(u32),
    /// `split P`: where P ends, some successor is assumed.
    Split(u32),
    /// `same-end P`: P ends at one offset in both traces.
    SameEnd(u32),
    /// `choose P Q`: both traces go on with Q, or neither does.
    Choose(u32, u32),
    /// `hand P Q`: Q hands over the same in both traces.
    Hand(u32, u32),
    /// `determine P`: the outputs are determined wherever P covers them.
    Determine(u32),
}

impl SetLine {
    /// The line as a line of the report.
    pub fn line(self) -> Line
        ensures { result ≡ line_of self }
    {
        match self {
            SetLine::End(p) => Line::End(p),
            SetLine::Split(p) => Line::Split(p),
            SetLine::SameEnd(p) => Line::SameEnd(p),
            SetLine::Choose(p, q) => Line::Choose(p, q),
            SetLine::Hand(p, q) => Line::Hand(p, q),
            SetLine::Determine(p) => Line::Determine(p),
        }
    }

    /// The position of the property that the line speaks of.
    pub fn property(self) -> u32
        ensures { result ≡ property_of (line_of self) }
    {
        match self {
            SetLine::End(p)
            | SetLine::Split(p)
            | SetLine::SameEnd(p)
            | SetLine::Choose(p, _)
            | SetLine::Hand(p, _)
            | SetLine::Determine(p) => p,
        }
    }
}
