use crate::Cycle;

/// A cycle of the counter: whether reset is active, whether it counts, and the register, below 4.
#[derive(Clone, Copy, PartialEq, Eq)]
pub struct CounterCycle {
    pub rst: bool,
    pub en: bool,
    pub q: u8,
}

impl Cycle for CounterCycle {
    ghost use Rattle.std.specs.Prelude.{◌≡◌, [], ◌∷◌, cond};
    ghost use Rattle.set_tree_completeness.specs.NextQ.{next_q};

    ghost follows = { λ c e. e.q ≡ next_q c.rst c.en c.q };

    ghost is_reset = { λ c. c.rst };

    ghost values = { λ c. cond c.en 1 0 ∷ c.q ∷ [] };
}
