// The two kinds of line in a report.
ghost use Rattle.std.specs.Prelude.{◌≡◌};
ghost use Rattle.desk_core_goals.specs.Kinds.{line_of_kind};

use set_tree::Line;
use twin_tests::SetLine;
use unroll::DesignLine;

/// A line of a report by what it speaks of: segments of the design, or windows of the set.
#[derive(Clone, Copy)]
pub enum Kind {
    Design(DesignLine),
    Set(SetLine),
}

/// Which of the two a line of a report is.
pub fn kind_of(line: Line) -> Kind
    ensures { line_of_kind result ≡ line }
{
    match line {
        Line::Base(i) => Kind::Design(DesignLine::Base(i)),
        Line::Step(i) => Kind::Design(DesignLine::Step(i)),
        Line::Reset => Kind::Design(DesignLine::Reset),
        Line::Operation(p) => Kind::Design(DesignLine::Operation(p)),
        Line::End(p) => Kind::Set(SetLine::End(p)),
        Line::Split(p) => Kind::Set(SetLine::Split(p)),
        Line::SameEnd(p) => Kind::Set(SetLine::SameEnd(p)),
        Line::Choose(p, q) => Kind::Set(SetLine::Choose(p, q)),
        Line::Hand(p, q) => Kind::Set(SetLine::Hand(p, q)),
        Line::Determine(p) => Kind::Set(SetLine::Determine(p)),
    }
}
