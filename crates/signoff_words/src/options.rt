// What options say.
ghost use Rattle.std.specs.Prelude.{◌≡◌, IfOk, IfSome};
ghost use Rattle.signoff_words.specs.Options.{AreBounded, defaults, with_value};

use crate::choice::Choice;
use crate::number::number_within;
use outside::Text;
use std::alloc::{AllocError, Global};

/// The most steps of the solver for a line, where no option says.
pub const DEFAULT_BUDGET: u64 = 20_000;

/// How many workers decide lines, where no option says.
pub const DEFAULT_WORKERS: u32 = 4;

/// How many seconds a peer has, where no option says.
pub const DEFAULT_TIMEOUT: u32 = 10;

/// What options say.
#[derive(Drop)]
pub struct Options {
    pub budget: u64,
    pub workers: u32,
    pub store: Option<Text>,
    pub timeout: u32,
    pub replied: bool,
    pub dot: bool,
    pub progress: bool,
}

impl Options {
    /// What they say where none is given.
    pub fn defaults() -> Options
        ensures { result ≡ defaults }
    {
        Options {
            budget: DEFAULT_BUDGET,
            workers: DEFAULT_WORKERS,
            store: None,
            timeout: DEFAULT_TIMEOUT,
            replied: false,
            dot: false,
            progress: false,
        }
    }

    /// These, with what an option says by a value. None: the word is none of its values.
    pub fn with_value(
        self,
        alloc: Global,
        choice: Choice,
        value: &[u8],
    ) -> Result<Option<Options>, AllocError>
        requires { AreBounded self }
        ensures is { IfOk result (λ o. o ≡ with_value choice value.now self) }
        ensures bounded { IfOk result (λ o. IfSome o AreBounded) }
    {
        let options = match choice {
            Choice::Budget => match number_within(1, 10_000_000, value) {
                Some(budget) => Options { budget, ..self },
                None => return Ok(None),
            },
            Choice::Workers => match number_within(1, 64, value) {
                Some(workers) => Options {
                    workers: workers as u32,
                    ..self
                },
                None => return Ok(None),
            },
            Choice::Store => Options {
                store: Some(Text::copy(alloc, value)?),
                ..self
            },
            Choice::Timeout => match number_within(1, 3_600, value) {
                Some(timeout) => Options {
                    timeout: timeout as u32,
                    ..self
                },
                None => return Ok(None),
            },
            Choice::Replied => Options {
                replied: true,
                ..self
            },
            Choice::Dot => Options { dot: true, ..self },
            Choice::Progress => Options {
                progress: true,
                ..self
            },
        };
        Ok(Some(options))
    }
}
