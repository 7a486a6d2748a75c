// The lines that a check decided.
ghost use Rattle.std.specs.Prelude.{◌≡◌, [], None};
ghost use Rattle.desk_core_reports.specs.Lines.{verdict_of};

use job_pool::Evidence;
use least_trace::LeastEnd;
use outside::Text;
use replay::Shown;
use std::alloc::Global;
use word_dag::Ob;

/// How a line was decided.
#[derive(Clone, Copy, Debug, PartialEq, Eq)]
pub enum Verdict {
    /// Nothing violates the line.
    Proved,
    /// Something violates it.
    Refuted,
    /// The budget was spent before it was decided.
    Spent,
}

/// A line of a report: its name, how it was decided, the obligation that was decided, and what shows the verdict. Steps
/// are over the clauses of the obligation, and values are those of its free nodes. Where it is refuted it has a
/// counterexample.
#[derive(Drop)]
pub struct Line {
    pub name: Text,
    pub verdict: Verdict,
    pub ob: Ob,
    pub evidence: Evidence,
    pub trace: Option<Shown>,
}

/// The lines that a call decided, in the order of its report, and where their evidence comes from.
#[derive(Drop)]
pub struct Book {
    pub lines: Vec<Line>,
    /// How many lines had a proof that was kept.
    pub kept: u64,
    /// How many were shown by a helper's claim.
    pub helped: u64,
    /// How many were handed to the workers.
    pub solved: u64,
    /// The numbers that the workers drew, in ascending order.
    pub draws: Vec<u64>,
    /// Where the least counterexample was asked for and the line is refuted: what shows that none is smaller, or where
    /// the search for it stopped.
    pub least: Option<LeastEnd>,
}

impl Book {
    /// A book without lines.
    pub fn new(alloc: Global) -> Book
        ensures lines { result.lines.items ≡ [] }
        ensures draws { result.draws.items ≡ [] }
        ensures least { result.least ≡ None }
    {
        Book {
            lines: Vec::new(alloc),
            kept: 0,
            helped: 0,
            solved: 0,
            draws: Vec::new(alloc),
            least: None,
        }
    }
}

/// The verdict that evidence shows.
pub fn verdict_of(evidence: &Evidence) -> Verdict
    ensures { result ≡ verdict_of evidence.now }
{
    match evidence {
        Evidence::Derivation(_) => Verdict::Proved,
        Evidence::Values(_) => Verdict::Refuted,
        Evidence::Chain(_) => Verdict::Spent,
    }
}
