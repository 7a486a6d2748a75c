// Goals, and how they ended.
use job_pool::Evidence;
use word_dag::Ob;

/// A line on its way to a verdict: the line, and an obligation of it.
#[derive(Drop)]
pub struct Goal<L> {
    pub line: L,
    pub ob: Ob,
}

/// Where what shows the end of a goal comes from.
#[derive(Clone, Copy, Debug, PartialEq, Eq)]
pub enum Source {
    /// A proof that was kept.
    Kept,
    /// A helper's claim.
    Helped,
    /// The workers.
    Solved,
}

/// A goal with what shows how it ended. Steps are over the clauses of its obligation, and values are those of its free
/// nodes.
#[derive(Drop)]
pub struct Decided<L> {
    pub goal: Goal<L>,
    pub evidence: Evidence,
    pub source: Source,
}
