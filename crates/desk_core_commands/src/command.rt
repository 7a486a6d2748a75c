// Commands and answers.
ghost use Rattle.std.specs.Prelude.{◌≡◌};

use outside::{Sign, Text};
use std::marker::Model;

/// What the desk is asked to do. A name is a block's.
#[derive(Drop)]
pub enum Command {
    /// Puts a block's Verilog text.
    PutModule { name: Text, text: Text },
    /// Puts the text of a block's set of properties.
    PutSet { name: Text, text: Text },
    /// Checks a block's two texts, and keeps the report with its traces.
    Check { name: Text },
    /// Asks for the report of a block's last check.
    GetReport { name: Text },
    /// Asks for the trace of a line of this report, counted from 1.
    GetTrace { name: Text, line: u32 },
    /// Signs off a block's two texts.
    SignOff { name: Text },
    /// Asks for the names of all blocks.
    Blocks,
    /// Asks for all sign-offs.
    Signoffs,
}

/// What the desk answers.
#[derive(Drop)]
pub enum Answer {
    /// The text is the block's.
    Stored,
    /// A text has this fault. It is said in one line, without line feed.
    Refused(Text),
    /// No block has this name.
    NoBlock,
    /// The block lacks one of its texts.
    NoText,
    /// The block has no report.
    NoReport,
    /// The report has no such line, or its line isn't refuted.
    NoTrace,
    /// The report is missing, or doesn't sign off the block.
    NotSigned,
    /// The report.
    Reported(Text),
    /// The text of the trace.
    Traced(Text),
    /// The sign-off's number.
    Signed(u64),
    /// The names of the blocks, in byte order.
    Names(Names),
    /// The sign-offs, by their numbers.
    Signs(Signs),
}

/// Names of blocks.
#[derive(Drop)]
pub struct Names {
    names: Vec<Text>,
}

impl Model for Names {
    ghost use Rattle.std.specs.Prelude.{ℕ, List};

    ghost Value = { List (List ℕ) };

    ghost view = { λ n. n.names.items };
}

impl Names {
    /// These names, in this order.
    pub fn new(names: Vec<Text>) -> Names
        ensures { result ≡ names.items }
    {
        Names { names }
    }

    /// The names, in order.
    pub fn as_slice(&self) -> &[Text]
        ensures { result.now ≡ self.now }
    {
        &self.names
    }
}

/// Sign-offs.
#[derive(Drop)]
pub struct Signs {
    signs: Vec<Sign>,
}

impl Model for Signs {
    ghost use Rattle.std.specs.Prelude.{List};
    ghost use Rattle.outside.specs.declared.rows.Sign.{Sign};

    ghost Value = { List Sign };

    ghost view = { λ s. s.signs.items };
}

impl Signs {
    /// These sign-offs, in this order.
    pub fn new(signs: Vec<Sign>) -> Signs
        ensures { result ≡ signs.items }
    {
        Signs { signs }
    }

    /// The sign-offs, in order.
    pub fn as_slice(&self) -> &[Sign]
        ensures { result.now ≡ self.now }
    {
        &self.signs
    }
}
