// Options.
ghost use Rattle.std.specs.Prelude.{◌≡◌};
ghost use Rattle.signoff_words.specs.Options.{choice_named, has_value, is_same};

/// An option.
#[derive(Clone, Copy, Debug, PartialEq, Eq)]
pub enum Choice {
    /// The most steps of the solver for a line.
    Budget,
    /// How many workers decide lines.
    Workers,
    /// The file in which proofs are kept.
    Store,
    /// How many seconds a peer has.
    Timeout,
    /// Connections without a reply don't count.
    Replied,
    /// A machine is shown as a graph.
    Dot,
    /// Standard error is told how the work goes.
    Progress,
}

impl Choice {
    /// The option of a name.
    pub fn named(name: &[u8]) -> Option<Choice>
        ensures { result ≡ choice_named name.now }
    {
        if name == b"--budget".as_slice() {
            Some(Choice::Budget)
        } else if name == b"--workers".as_slice() {
            Some(Choice::Workers)
        } else if name == b"--store".as_slice() {
            Some(Choice::Store)
        } else if name == b"--timeout".as_slice() {
            Some(Choice::Timeout)
        } else if name == b"--replied".as_slice() {
            Some(Choice::Replied)
        } else if name == b"--dot".as_slice() {
            Some(Choice::Dot)
        } else if name == b"--progress".as_slice() {
            Some(Choice::Progress)
        } else {
            None
        }
    }

    /// Whether a value stands with it.
    pub fn has_value(self) -> bool
        ensures { result ≡ has_value self }
    {
        match self {
            Choice::Budget | Choice::Workers | Choice::Store | Choice::Timeout => true,
            Choice::Replied | Choice::Dot | Choice::Progress => false,
        }
    }

    /// Whether it is this option.
    pub fn is(self, other: Choice) -> bool
        ensures { result ≡ is_same self other }
    {
        self == other
    }
}
