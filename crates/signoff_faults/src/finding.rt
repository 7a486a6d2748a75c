// What is found out about a fault.

/// The text that has a fault.
#[derive(Clone, Copy, PartialEq, Eq)]
pub enum Side {
    Module,
    Set,
}

/// A fault's text and byte, as far as they are known, and the sentence that says what is wrong.
#[derive(Drop)]
pub struct Finding {
    pub side: Option<Side>,
    pub byte: Option<usize>,
    pub sentence: String,
}

impl Finding {
    pub fn of_module(byte: Option<usize>, sentence: String) -> Finding {
        Finding {
            side: Some(Side::Module),
            byte,
            sentence,
        }
    }

    pub fn of_set(byte: Option<usize>, sentence: String) -> Finding {
        Finding {
            side: Some(Side::Set),
            byte,
            sentence,
        }
    }

    /// A finding about no text.
    pub fn of_none(sentence: String) -> Finding {
        Finding {
            side: None,
            byte: None,
            sentence,
        }
    }
}
