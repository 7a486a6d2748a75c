// How much is spent on obligations.
ghost use Rattle.std.specs.Prelude.{◌<◌, ◌≤◌};

/// How much is spent on obligations.
#[derive(Clone, Copy, Debug)]
pub struct Settings {
    /// The most steps that the solver may learn for an obligation, at least 1.
    pub budget: u64,
    /// How many workers decide obligations side by side, 1 to 64.
    pub workers: u32,
    ghost some: { 0 < budget },
    ghost working: { 0 < workers },
    ghost few: { workers ≤ 64 },
}
