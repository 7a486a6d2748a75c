// Who may be asked before the workers.
use crate::damage::wrong;
use crate::lies::Lie;
use std::io;

/// A helper of the program, or one that claims what is false.
#[derive(Clone, Copy)]
pub enum Aide {
    Sampler,
    Table,
    Units,
    Lies(Lie),
}

const AIDES: &[(&str, Aide)] = &[
    ("sampler", Aide::Sampler),
    ("table", Aide::Table),
    ("units", Aide::Units),
    ("no-hints", Aide::Lies(Lie::NoHints)),
    ("far-hint", Aide::Lies(Lie::FarHint)),
    ("no-values", Aide::Lies(Lie::NoValues)),
    ("one-too-many", Aide::Lies(Lie::OneTooMany)),
    ("too-great", Aide::Lies(Lie::TooGreat)),
];

/// The one of this name.
pub fn aide_of(name: &str) -> io::Result<Aide> {
    match AIDES.iter().find(|pair| pair.0 == name) {
        Some(pair) => Ok(pair.1),
        None => Err(wrong()),
    }
}
