// The lines of a design.
ghost use Rattle.std.specs.Prelude.{◌≡◌};
ghost use Rattle.unroll.specs.Named.{line_of};

use set_tree::Line;

/// A line of a report on a design, which speaks of its segments. An invariant goes by its position, from 0, and a
/// property by its own, 0 being the reset property.
#[derive(Clone, Copy)]
pub enum DesignLine {
    /// `base I`: after reset invariant I holds.
    Base(u32),
    /// `step I`: a step from where all invariants hold keeps invariant I.
    Step(u32),
    /// `reset`: after reset the reset property's commitment holds.
    Reset,
    /// `op P`: where P is assumed it commits.
    Operation(u32),
}

impl DesignLine {
    /// The line as a line of the report.
    pub fn line(self) -> Line
        ensures { result ≡ line_of self }
    {
        match self {
            DesignLine::Base(i) => Line::Base(i),
            DesignLine::Step(i) => Line::Step(i),
            DesignLine::Reset => Line::Reset,
            DesignLine::Operation(p) => Line::Operation(p),
        }
    }
}
