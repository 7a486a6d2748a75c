// Which rule on clocks a name breaks, as far as the texts tell.
use crate::modules::{Named, Pick, declared_in};
use crate::tokens::{
    behind, behind_word, byte_at, first, number_at, stands, up_to, width_at, word_at, word_of,
};
use vlog_read_lex::is;
use vlog_tree::Token;

/// A rule on clocks.
#[derive(Clone, Copy, PartialEq, Eq)]
pub enum Rule {
    FallingEdge,
    ManyEdges,
    NoReset,
    NoInput,
    NoBit,
    TwoClocks,
    Read,
    Unknown,
}

impl Rule {
    /// What a sentence says behind the name.
    pub fn sentence(self) -> &'static str {
        match self {
            Rule::FallingEdge =>
                "is waited for at its falling edge: all blocks wait for `posedge` of the one clock",
            Rule::ManyEdges =>
                "is waited for beside two others: a block waits for the clock, and for one reset at most",
            Rule::NoReset => {
                "is waited for beside a reset, so the block is `if (!rst) .. else ..` for `negedge rst`"
            }
            Rule::NoInput =>
                "is waited for but is no input of the top module: a clock comes from there by its name alone",
            Rule::NoBit => "is waited for but has several bits: a clock and a reset have one",
            Rule::TwoClocks =>
                "is one of two clocks: all blocks wait for the same input of the top module",
            Rule::Read =>
                "is the clock and is read here: a clock is waited for, and passed on by its name alone",
            Rule::Unknown => {
                "breaks a rule: one clock, its rising edge, a reset that is tested first, both from the top"
            }
        }
    }
}

/// A broken rule and where it is broken.
#[derive(Clone, Copy)]
pub struct Broken {
    pub rule: Rule,
    pub byte: Option<usize>,
}

fn is_edge(word: &[u8]) -> bool {
    is(word, b"posedge") || is(word, b"negedge")
}

// The first list of events that begins with an edge of a name and that breaks a rule by itself, else the first one that
// begins so.
fn waiting_for<'a>(body: &'a [Token], name: &[u8]) -> Option<&'a [Token]> {
    let mut found = None;
    let mut previous: &[u8] = b"";
    for at in 0..body.len() {
        let here = &body[at..];
        if is(previous, b"(") && is_edge(word_at(here, 0)) && stands(here, 1, name) {
            if of_list(here).is_some() {
                return Some(here);
            }
            found = found.or(Some(here));
        }
        previous = word_at(here, 0);
    }
    found
}

// Another name whose edge some block of a module waits for first.
fn waits_for_another(body: &[Token], name: &[u8]) -> bool {
    let mut previous: &[u8] = b"";
    for at in 0..body.len() {
        let here = &body[at..];
        if is(previous, b"(") && is_edge(word_at(here, 0)) && !stands(here, 1, name) {
            return true;
        }
        previous = word_at(here, 0);
    }
    false
}

// How many edges a list of events has.
fn edges_in(list: &[Token]) -> usize {
    up_to(list, b")")
        .iter()
        .filter(|token| is_edge(word_of(token)))
        .count()
}

// Whether the condition at a place tests one of the edges of a list.
fn tests_edge(list: &[Token], condition: &[Token]) -> bool {
    let negated = stands(condition, 0, b"!") || stands(condition, 0, b"~");
    let name = if negated {
        behind(condition, 1)
    } else {
        condition
    };
    let is_zero = stands(name, 1, b"==") && number_at(name, 2) == Some(0);
    let edge: &[u8] = if negated || is_zero {
        b"negedge"
    } else {
        b"posedge"
    };
    behind_word(up_to(list, b")"), edge, word_at(name, 0)).is_some()
}

// Whether the body of a block with two edges begins with an `if` that tests one of them.
fn tests_reset(list: &[Token]) -> bool {
    let Some(end) = first(list, b")") else {
        return false;
    };
    let body = if stands(end, 1, b"begin") {
        behind(end, 2)
    } else {
        behind(end, 1)
    };
    stands(body, 0, b"if") && tests_edge(list, behind(body, 2))
}

// Where a name is read: not in its declaration, not in a list of events, and not passed on alone.
fn read_in<'a>(body: &'a [Token], name: &[u8]) -> Option<&'a [Token]> {
    let mut previous: &[u8] = b"";
    let mut is_header = true;
    for at in 0..body.len() {
        let here = &body[at..];
        let word = word_at(here, 0);
        let passed = is(previous, b"(") && stands(here, 1, b")");
        if !is_header && is(word, name) && !is_edge(previous) && !is(previous, b".") && !passed {
            if declared_in(body, name, Pick::First).is_none_or(|declared| byte_at(declared.named)
                != byte_at(here))
            {
                return Some(here);
            }
        }
        is_header = is_header && !is(word, b";");
        previous = word;
    }
    None
}

// The rule that a list of events breaks by itself.
fn of_list(list: &[Token]) -> Option<Rule> {
    match edges_in(list) {
        1 if stands(list, 0, b"negedge") => Some(Rule::FallingEdge),
        1 => None,
        2 if !tests_reset(list) => Some(Rule::NoReset),
        2 => None,
        _ => Some(Rule::ManyEdges),
    }
}

// The rule that a name in a list of events breaks at the top.
fn of_top(named: &Named<'_>) -> Option<Rule> {
    let declared = declared_in(named.body, named.last, Pick::First)?;
    if !is(declared.kind(), b"input") {
        return Some(Rule::NoInput);
    }
    if width_at(declared.range()) != Some(1) {
        return Some(Rule::NoBit);
    }
    None
}

// The rule that a name breaks whose lists of events break none by themselves.
fn of_uses(named: &Named<'_>, list: &[Token]) -> Broken {
    let read = read_in(named.body, named.last).and_then(byte_at);
    let rule = match read {
        _ if named.outer.is_none() && waits_for_another(named.body, named.last) => Rule::TwoClocks,
        Some(_) if named.outer.is_none() => {
            return Broken {
                rule: Rule::Read,
                byte: read,
            };
        }
        Some(_) => Rule::Unknown,
        None => Rule::NoInput,
    };
    Broken {
        rule,
        byte: byte_at(list),
    }
}

// The rule that a name breaks that no block of its module waits for: an expression reads it, or an instance has another
// clock.
fn of_no_list(named: &Named<'_>) -> Broken {
    let read = read_in(named.body, named.last).and_then(byte_at);
    let rule = if read.is_some() {
        Rule::Read
    } else if named.outer.is_none() {
        Rule::TwoClocks
    } else {
        Rule::Unknown
    };
    Broken { rule, byte: read }
}

/// The rule that a name breaks, as far as the module tells in which it stands.
pub fn broken_rule(named: &Named<'_>) -> Broken {
    let Some(list) = waiting_for(named.body, named.last) else {
        return of_no_list(named);
    };
    let at_top = if named.outer.is_none() {
        of_top(named)
    } else {
        None
    };
    match of_list(list).or(at_top) {
        Some(rule) => Broken {
            rule,
            byte: byte_at(list),
        },
        None => of_uses(named, list),
    }
}
