use crate::trail::Trail;
use clause_check::{Cnf, Step};

/// The clauses so far, those of the formula and then those of the steps, and the trail, whose literals were chosen or
/// forced by them: what the analysis of a conflict reads.
#[derive(Clone, Copy)]
pub struct Reasons<'a> {
    pub cnf: &'a Cnf,
    pub steps: &'a [Step],
    pub trail: &'a Trail,
}
