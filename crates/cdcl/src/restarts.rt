/// How many conflicts the shortest run has.
const SHORTEST: u64 = 100;

/// When the search begins anew: after runs of conflicts whose lengths are in the proportions 1, 1, 2, 1, 1, 2, 4 and so
/// on (Luby, Sinclair and Zuckerman, 1993), which Knuth's pair of numbers gives one after another.
#[derive(Drop)]
pub struct Restarts {
    // Which run this is.
    count: u64,
    // How long it is, in shortest runs.
    length: u64,
    // How many of its conflicts are left.
    left: u64,
}

impl Restarts {
    /// Before the first run.
    pub fn new() -> Restarts {
        Restarts {
            count: 1,
            length: 1,
            left: SHORTEST,
        }
    }

    /// One more conflict. The answer is whether it ends a run.
    pub fn next(&mut self) -> bool {
        if self.left > 1 {
            self.left -= 1;
            return false;
        }
        if self.count & self.count.wrapping_neg() == self.length {
            self.count = self.count.wrapping_add(1);
            self.length = 1;
        } else {
            self.length = self.length.saturating_mul(2);
        }
        self.left = self.length.saturating_mul(SHORTEST);
        true
    }
}
