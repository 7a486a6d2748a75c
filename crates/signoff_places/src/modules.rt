// Where the names of modules are declared and used. A module is the list of its tokens from its name up to its
// `endmodule`.
ghost use Rattle.std.specs.Prelude.{◌≡◌};
ghost use Rattle.std.specs.Option.{option_copied};
ghost use Rattle.signoff_places.specs.Tokens.{word_at};
ghost use Rattle.signoff_places.specs.Modules.{
  module_in,
  behind_kind,
  range_of,
  is_reg,
  is_parameter,
  given_in,
  is_use,
  used_in,
};

use crate::tokens::{behind, behind_word, byte_at, stands, up_to, word_at};
use vlog_read_lex::is;
use vlog_tree::Token;

/// A module by its name.
pub fn module_in<'a>(tokens: &'a [Token], name: &[u8]) -> Option<&'a [Token]>
    ensures { option_copied result ≡ module_in tokens.now name.now }
{
    Some(up_to(behind_word(tokens, b"module", name)?, b"endmodule"))
}

/// An instance: from the name of its module on, and from its own name on.
#[derive(Clone, Copy)]
pub struct Instance<'a> {
    pub item: &'a [Token],
    pub named: &'a [Token],
}

impl<'a> Instance<'a> {
    /// The name of its module.
    pub fn of_module(&self) -> &'a [u8]
        ensures { result.now ≡ word_at self.now.item.now 0 }
    {
        word_at(self.item, 0)
    }
}

fn ends_item(word: &[u8]) -> bool {
    is(word, b";") || is(word, b"end") || is(word, b"endcase")
}

/// An instance of a module by its name: the name stands before `(`, and isn't that of a port.
pub fn instance_in<'a>(body: &'a [Token], name: &[u8]) -> Option<Instance<'a>> {
    let mut item = body;
    let mut previous: &[u8] = b"";
    for at in 0..body.len() {
        let named = &body[at..];
        let word = word_at(named, 0);
        if ends_item(previous) && !ends_item(word) {
            item = named;
        }
        if is(word, name) && stands(named, 1, b"(") && !is(previous, b".") {
            return Some(Instance { item, named });
        }
        previous = word;
    }
    None
}

/// The last instance of a name.
pub fn last_instance_in<'a>(body: &'a [Token], name: &[u8]) -> Option<Instance<'a>> {
    let mut found = instance_in(body, name)?;
    for _ in 0..body.len() {
        match instance_in(behind(found.named, 1), name) {
            Some(later) => found = later,
            None => return Some(found),
        }
    }
    Some(found)
}

/// What a hierarchical name leads to: the module in which its last part stands, and the instance of that module, none
/// at the top.
#[derive(Clone, Copy)]
pub struct Named<'a> {
    pub body: &'a [Token],
    pub outer: Option<Instance<'a>>,
    pub last: &'a [u8],
}

impl<'a> Named<'a> {
    /// The name of the module.
    pub fn module_name(&self) -> &'a [u8]
        ensures { result.now ≡ word_at self.now.body.now 0 }
    {
        word_at(self.body, 0)
    }
}

/// Follows the instances of a hierarchical name from the top.
pub fn named_in<'a>(tokens: &'a [Token], top: &[u8], path: &'a [u8]) -> Option<Named<'a>> {
    let mut named = Named {
        body: module_in(tokens, top)?,
        outer: None,
        last: b"",
    };
    for part in path.split(|byte| *byte == b'.') {
        if !named.last.is_empty() {
            let instance = instance_in(named.body, named.last)?;
            named.body = module_in(tokens, instance.of_module())?;
            named.outer = Some(instance);
        }
        named.last = part;
    }
    Some(named)
}

// The place behind `wire`, `reg` or `signed`, or the same one where none of them stands.
fn behind_kind(place: &[Token]) -> &[Token]
    ensures { result.now ≡ behind_kind place.now }
{
    let word = word_at(place, 0);
    if is(word, b"wire") || is(word, b"reg") || is(word, b"signed") {
        behind(place, 1)
    } else {
        place
    }
}

/// A declaration of a name: from the word that begins it on, and from the name on.
#[derive(Clone, Copy)]
pub struct Declared<'a> {
    pub item: &'a [Token],
    pub named: &'a [Token],
}

impl<'a> Declared<'a> {
    /// `input`, `output`, `wire`, `reg`, `parameter` or `localparam`.
    pub fn kind(&self) -> &'a [u8]
        ensures { result.now ≡ word_at self.now.item.now 0 }
    {
        word_at(self.item, 0)
    }

    /// Whether it has the word `reg`.
    pub fn is_reg(&self) -> bool
        ensures { result ≡ is_reg self.now.item.now }
    {
        stands(self.item, 0, b"reg") || stands(self.item, 1, b"reg")
    }

    /// Whether it declares a parameter.
    pub fn is_parameter(&self) -> bool
        ensures { result ≡ is_parameter self.now.item.now }
    {
        stands(self.item, 0, b"parameter") || stands(self.item, 0, b"localparam")
    }

    /// Where the range stands, or the name where there is none.
    pub fn range(&self) -> &'a [Token]
        ensures { result.now ≡ range_of self.now.item.now }
    {
        behind_kind(behind_kind(behind(self.item, 1)))
    }
}

fn declares(word: &[u8]) -> bool {
    is(word, b"input")
        || is(word, b"output")
        || is(word, b"wire")
        || is(word, b"reg")
        || is(word, b"parameter")
        || is(word, b"localparam")
}

fn opens(word: &[u8]) -> bool {
    is(word, b"(") || is(word, b"[") || is(word, b"{")
}

fn closes(word: &[u8]) -> bool {
    is(word, b")") || is(word, b"]") || is(word, b"}")
}

// Where a scan over declarations stands.
#[derive(Clone, Copy, PartialEq, Eq)]
enum Part {
    // In no declaration.
    Elsewhere,
    // Where a name may stand, within so many brackets.
    Name(u32),
    // Behind `=`, within so many brackets.
    Value(u32),
}

impl Part {
    fn deeper(self) -> Part {
        match self {
            Part::Elsewhere => Part::Elsewhere,
            Part::Name(depth) => Part::Name(depth.saturating_add(1)),
            Part::Value(depth) => Part::Value(depth.saturating_add(1)),
        }
    }

    fn shallower(self) -> Part {
        match self {
            Part::Elsewhere | Part::Name(0) | Part::Value(0) => Part::Elsewhere,
            Part::Name(depth) => Part::Name(depth.saturating_sub(1)),
            Part::Value(depth) => Part::Value(depth.saturating_sub(1)),
        }
    }

    // The part behind a word or a sign.
    fn behind(self, word: &[u8]) -> Part {
        if declares(word) {
            Part::Name(0)
        } else if is(word, b";") {
            Part::Elsewhere
        } else if opens(word) {
            self.deeper()
        } else if closes(word) {
            self.shallower()
        } else if is(word, b"=") && self == Part::Name(0) {
            Part::Value(0)
        } else if is(word, b",") && self == Part::Value(0) {
            Part::Name(0)
        } else {
            self
        }
    }
}

/// Which of several places is looked for.
#[derive(Clone, Copy, PartialEq, Eq)]
pub enum Pick {
    First,
    Last,
}

/// The first or the last declaration of a name in a module.
pub fn declared_in<'a>(body: &'a [Token], name: &[u8], pick: Pick) -> Option<Declared<'a>> {
    let mut found = None;
    let mut part = Part::Elsewhere;
    let mut item = body;
    let mut previous: &[u8] = b"";
    for at in 0..body.len() {
        let named = &body[at..];
        let word = word_at(named, 0);
        if declares(word) && !declares(previous) {
            item = named;
        }
        if part == Part::Name(0) && is(word, name) {
            found = Some(Declared { item, named });
            if pick == Pick::First {
                return found;
            }
        }
        part = part.behind(word);
        previous = word;
    }
    found
}

// Whether a name stands at a place, and isn't that of a port behind a dot.
fn is_use(here: &[Token], name: &[u8], previous: &[u8]) -> bool
    ensures { result ≡ is_use name.now previous.now here.now }
{
    stands(here, 0, name) && !is(previous, b".")
}

/// Where a name first stands in a module other than as that of a port behind a dot.
pub fn used_in<'a>(body: &'a [Token], name: &[u8]) -> Option<&'a [Token]>
    ensures { option_copied result ≡ used_in body.now name.now }
{
    let mut previous: &[u8] = b"";
    for at in 0..body.len() {
        let here = &body[at..];
        if is_use(here, name, previous) {
            return Some(here);
        }
        previous = word_at(here, 0);
    }
    None
}

/// The connection or the override of an instance by a name, at that name.
pub fn given_in<'a>(instance: &Instance<'a>, name: &[u8]) -> Option<&'a [Token]>
    ensures { option_copied result ≡ given_in instance.now.item.now name.now }
{
    behind_word(up_to(instance.item, b";"), b".", name)
}

/// The place of what a hierarchical name names: its declaration, else its instance, else the module, else its first
/// use.
pub fn place_of_name<'a>(named: &Named<'a>) -> Option<&'a [Token]> {
    if let Some(declared) = declared_in(named.body, named.last, Pick::First) {
        return Some(declared.named);
    }
    if let Some(instance) = instance_in(named.body, named.last) {
        return Some(instance.named);
    }
    if is(named.module_name(), named.last) {
        return Some(named.body);
    }
    used_in(named.body, named.last)
}

/// The byte of what a hierarchical name names.
pub fn byte_of_name(tokens: &[Token], top: &[u8], path: &[u8]) -> Option<usize> {
    let named = named_in(tokens, top, path)?;
    byte_at(place_of_name(&named)?)
}
