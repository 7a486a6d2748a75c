//! The tokens of a text, the words that the language leaves out, and what holds of each token of each text.
#![tactic(auto)]

mod class;
mod error;
mod law;
mod number;
mod piece;
mod place;
mod read;
mod scan;
mod signs;
mod token_law;
mod words;

pub use class::{Base, Class};
pub use error::ReadFault;
pub use law::{longest, one_reading};
pub use number::{Size, base_of, based_number, decimal_number, has_unknown, size_of, value};
pub use piece::{Piece, piece_at};
pub use place::byte_of;
pub use read::read_tokens;
pub use scan::{byte_at, closing, has_pair, run_end};
pub use signs::{is_outside_sign, sign_size};
pub use token_law::longest_tokens;
pub use words::{is, is_outside_word};
