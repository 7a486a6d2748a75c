// The names of commands.
ghost use Rattle.std.specs.Prelude.{◌≡◌};
ghost use Rattle.signoff_words.specs.Commands.{name_of, takes, takes_all};

use crate::choice::Choice;

/// The name of a command.
#[derive(Clone, Copy, Debug)]
pub enum Name {
    Ops,
    Check,
    Trace,
    Least,
    Wave,
    Meet,
    Machine,
    Walk,
    Lines,
    Clauses,
    Accept,
    Demo,
    Serve,
    Migrate,
}

impl Name {
    /// The name that a word is.
    pub fn of(word: &[u8]) -> Option<Name>
        ensures { result ≡ name_of word.now }
    {
        if word == b"ops".as_slice() {
            Some(Name::Ops)
        } else if word == b"check".as_slice() {
            Some(Name::Check)
        } else if word == b"trace".as_slice() {
            Some(Name::Trace)
        } else if word == b"least".as_slice() {
            Some(Name::Least)
        } else if word == b"wave".as_slice() {
            Some(Name::Wave)
        } else if word == b"meet".as_slice() {
            Some(Name::Meet)
        } else if word == b"machine".as_slice() {
            Some(Name::Machine)
        } else if word == b"walk".as_slice() {
            Some(Name::Walk)
        } else if word == b"lines".as_slice() {
            Some(Name::Lines)
        } else if word == b"clauses".as_slice() {
            Some(Name::Clauses)
        } else if word == b"accept".as_slice() {
            Some(Name::Accept)
        } else if word == b"demo".as_slice() {
            Some(Name::Demo)
        } else if word == b"serve".as_slice() {
            Some(Name::Serve)
        } else if word == b"migrate".as_slice() {
            Some(Name::Migrate)
        } else {
            None
        }
    }

    /// Whether the command may have an option.
    pub fn takes(self, choice: Choice) -> bool
        ensures { result ≡ takes self choice }
    {
        match self {
            Name::Lines | Name::Clauses | Name::Demo | Name::Migrate => false,
            Name::Accept => matches!(choice, Choice::Store),
            Name::Serve => matches!(
                choice,
                Choice::Budget | Choice::Workers | Choice::Timeout | Choice::Replied
            ),
            Name::Machine => !matches!(choice, Choice::Timeout | Choice::Replied),
            Name::Ops
            | Name::Check
            | Name::Trace
            | Name::Least
            | Name::Wave
            | Name::Meet
            | Name::Walk => matches!(
                choice,
                Choice::Budget | Choice::Workers | Choice::Store | Choice::Progress
            ),
        }
    }

    /// Whether it may have all of these.
    pub fn takes_all(self, given: &[Choice]) -> bool
        ensures { result ≡ takes_all self given.now }
    {
        given.iter().all(|choice| self.takes(*choice))
    }
}
