// What a check is asked for.
use outside::Text;

/// The lines that a check decides.
#[derive(Drop)]
pub enum Which {
    /// Those on the design.
    Ops,
    /// All lines of the report.
    All,
    /// The line of this name.
    One(Text),
    /// The line of this name, and of its counterexamples the least one.
    Least(Text),
}
