// What the names and the numbers of a set come to. Where there is nothing, or memory runs out, what was held is dropped
// by a call: dropped in place, it would be proved anew at each such exit.
ghost use Rattle.std.specs.Prelude.{◌≡◌, ◌^◌, ◌<◌, ◌-◌, Some, IfOk, IfSome, length, option_map, IfNone, IfErr, OnOk, MatchOption, None};
ghost use Rattle.set_read_lookup.specs.Meaning.{
  within,
  width_of,
  low_of,
  name_of,
  constraints_of,
  invariants_of,
  is_output,
  output_from,
  end_of,
  cover_of,
  each,
  operation_from,
  successor_of,
  high_from,
  sizes_of,
  looked_of,
  property_of,
  properties_of,
  Means,
  MeansNothing,
};
ghost use Rattle.set_read_lookup.specs.Faults.{HasSmallNumbers, IsValid, Stands};

use crate::formed::all_formed;
use crate::limit::limit_of;
use crate::quantity::Quantity;
use crate::twice::twice_of;
use crate::unknown::unknown_of;
use crate::wrong::Wrong;
use outside::Text;
use set_tree::{
    Bits, Cover, CoverText, Declaration, EndText, Length, LengthText, Name, Property, PropertyText,
    Role, Rule, RuleKind, RuleText, Set, SetText, To,
};
use sqlite_items::Items;
use std::alloc::{AllocError, Global};
use std::collections::VecDeque;

/// The lengths of a property and its window.
#[derive(Clone, Copy, PartialEq, Eq)]
pub struct Sizes {
    pub low: u8,
    pub high: u8,
    pub window: u8,
}

/// What was looked up for a property.
#[derive(Drop)]
pub struct Looked {
    pub sizes: Sizes,
    pub covers: Items<Cover>,
    pub next: Items<u32>,
}

fn byte(number: u64) -> Option<u8>
    ensures { result ≡ within 256 number }
{
    if number < 256 {
        Some(number as u8)
    } else {
        None
    }
}

fn short(number: u64) -> Option<u32>
    ensures { result ≡ within (2 ^ 32) number }
{
    if number < 1 << 32 {
        Some(number as u32)
    } else {
        None
    }
}

pub fn width_of(bits: Option<Bits>) -> Option<u8>
    ensures { result ≡ width_of bits }
{
    match bits {
        None => Some(1),
        Some(bits) => {
            if bits.low <= bits.high && bits.high - bits.low < 64 {
                Some((bits.high - bits.low + 1) as u8)
            } else {
                None
            }
        }
    }
}

pub fn low_of(bits: Option<Bits>) -> u64
    ensures { result ≡ low_of bits }
{
    match bits {
        None => 0,
        Some(bits) => bits.low,
    }
}

fn name_of(declaration: Declaration) -> Option<Name>
    ensures { result ≡ name_of declaration }
{
    match (width_of(declaration.bits), short(low_of(declaration.bits))) {
        (Some(width), Some(low)) => Some(Name {
            name: declaration.name,
            role: declaration.role,
            width,
            low,
            signed: declaration.signed,
            domain: declaration.domain,
        }),
        _ => {
            drop(declaration);
            None
        }
    }
}

#[tactic(auto, using(crate::proofs::Each::front_joined))]
fn names_of(
    alloc: Global,
    declarations: Vec<Declaration>,
) -> Result<Option<Items<Name>>, AllocError>
    ensures { IfOk result (λ names. names ≡ each name_of declarations.items) }
{
    let mut names = Vec::new(alloc);
    for declaration in declarations {
        match name_of(declaration) {
            Some(name) => names.push(name)?,
            None => return Ok(None),
        }
    }
    Ok(Some(Items::from_vec(names)))
}

// The rules of a set by their kinds.
#[derive(Drop)]
struct Rules {
    constraints: Vec<Rule>,
    invariants: Vec<Rule>,
}

fn rules_of(alloc: Global, rules: Vec<RuleText>) -> Result<Rules, AllocError>
    ensures constraints { IfOk result (λ r. r.constraints.items ≡ constraints_of rules.items) }
    ensures invariants { IfOk result (λ r. r.invariants.items ≡ invariants_of rules.items) }
{
    let mut constraints = Vec::new(alloc);
    let mut invariants = Vec::new(alloc);
    for text in rules {
        let RuleText {
            kind,
            name,
            formula,
        } = text;
        match kind {
            RuleKind::Constraint => constraints.push(Rule { name, formula })?,
            RuleKind::Invariant => invariants.push(Rule { name, formula })?,
        }
    }
    Ok(Rules {
        constraints,
        invariants,
    })
}

fn is_output(role: Role) -> bool
    ensures { result ≡ is_output role }
{
    match role {
        Role::Output => true,
        Role::Input | Role::State => false,
    }
}

/// The place of the first output of a name.
pub fn output_of(declarations: &[Declaration], name: &[u8]) -> Option<usize>
    ensures at { result ≡ output_from declarations.now name.now 0 }
    ensures within { IfSome result (λ at. at < length declarations.now) }
{
    for (at, declaration) in declarations.iter().enumerate() {
        if is_output(declaration.role) && declaration.name.bytes() == name {
            return Some(at);
        }
    }
    None
}

fn end_of(end: EndText) -> Option<To>
    ensures { result ≡ end_of end }
{
    match end {
        EndText::At(offset) => Some(To::At(short(offset)?)),
        EndText::AfterEnd(distance) => Some(To::AfterEnd(short(distance)?)),
    }
}

fn cover_of(declarations: &[Declaration], cover: &CoverText) -> Option<Cover>
    requires { length declarations.now < 2 ^ 32 }
    ensures { result ≡ cover_of declarations.now cover.now }
{
    let output = output_of(declarations, cover.output.bytes())?;
    let from = short(cover.from)?;
    let to = end_of(cover.to)?;
    Some(Cover {
        output: output as u32,
        from,
        to,
    })
}

#[tactic(auto, using(crate::proofs::Each::front_joined))]
fn covers_of(
    alloc: Global,
    declarations: &[Declaration],
    covers: &[CoverText],
) -> Result<Option<Items<Cover>>, AllocError>
    requires { length declarations.now < 2 ^ 32 }
    ensures { IfOk result (λ list. list ≡ each (cover_of declarations.now) covers.now) }
{
    let mut list = Vec::new(alloc);
    for cover in covers {
        match cover_of(declarations, cover) {
            Some(cover) => list.push(cover)?,
            None => return Ok(None),
        }
    }
    Ok(Some(Items::from_vec(list)))
}

// The successor number of the first operation of a name.
fn operation_of(operations: &[PropertyText], name: &[u8]) -> Option<usize>
    requires { length operations.now < 2 ^ 32 - 1 }
    ensures at { result ≡ operation_from operations.now name.now 1 }
    ensures small { IfSome result (λ at. at < 2 ^ 32) }
{
    for (at, operation) in operations.iter().enumerate() {
        if operation.name.bytes() == name {
            return Some(at + 1);
        }
    }
    None
}

pub fn successor_of(operations: &[PropertyText], name: &[u8]) -> Option<u32>
    requires { length operations.now < 2 ^ 32 - 1 }
    ensures { result ≡ successor_of operations.now name.now }
{
    if name == b"reset".as_slice() {
        return Some(0);
    }
    Some(operation_of(operations, name)? as u32)
}

#[tactic(auto, using(crate::proofs::Each::front_joined))]
fn next_of(
    alloc: Global,
    operations: &[PropertyText],
    names: &[Text],
) -> Result<Option<Items<u32>>, AllocError>
    requires { length operations.now < 2 ^ 32 - 1 }
    ensures { IfOk result (λ list. list ≡ each (successor_of operations.now) names.now) }
{
    let mut list = Vec::new(alloc);
    for name in names {
        match successor_of(operations, name.bytes()) {
            Some(next) => list.push(next)?,
            None => return Ok(None),
        }
    }
    Ok(Some(Items::from_vec(list)))
}

pub fn high_of(length: &LengthText) -> u64
    ensures { result ≡ high_from length.now.low length.now.until }
{
    match &length.until {
        None => length.low,
        Some(until) => until.high,
    }
}

fn sizes_of(property: &PropertyText) -> Option<Sizes>
    ensures { result ≡ sizes_of property.now }
{
    let high = high_of(&property.length);
    let window = match property.window {
        None => high,
        Some(window) => window,
    };
    Some(Sizes {
        low: byte(property.length.low)?,
        high: byte(high)?,
        window: byte(window)?,
    })
}

fn looked_of(
    alloc: Global,
    declarations: &[Declaration],
    operations: &[PropertyText],
    property: &PropertyText,
) -> Result<Option<Looked>, AllocError>
    requires declarations { length declarations.now < 2 ^ 32 }
    requires operations { length operations.now < 2 ^ 32 - 1 }
    ensures { IfOk result (λ looked. looked ≡ looked_of declarations.now operations.now property.now) }
{
    let Some(sizes) = sizes_of(property) else {
        return Ok(None);
    };
    let Some(covers) = covers_of(alloc, declarations, property.covers.as_slice())? else {
        return Ok(None);
    };
    let Some(next) = next_of(alloc, operations, property.next.as_slice())? else {
        return Ok(None);
    };
    Ok(Some(Looked {
        sizes,
        covers,
        next,
    }))
}

#[tactic(auto, using(crate::proofs::Each::front_joined))]
fn all_looked(
    alloc: Global,
    declarations: &[Declaration],
    operations: &[PropertyText],
) -> Result<Option<Vec<Looked>>, AllocError>
    requires declarations { length declarations.now < 2 ^ 32 }
    requires operations { length operations.now < 2 ^ 32 - 1 }
    ensures { IfOk result (λ list. option_map (λ v. v.items) list ≡ each
        (looked_of declarations.now operations.now) operations.now) }
{
    let mut list = Vec::new(alloc);
    for property in operations {
        match looked_of(alloc, declarations, operations, property)? {
            Some(looked) => list.push(looked)?,
            None => return Ok(None),
        }
    }
    Ok(Some(list))
}

fn property_of(text: PropertyText, looked: Looked) -> Property
    ensures { result ≡ property_of text looked }
{
    let PropertyText {
        name,
        length,
        window: _,
        assume,
        commit,
        hand,
        covers: _,
        next: _,
    } = text;
    let Looked {
        sizes,
        covers,
        next,
    } = looked;
    Property {
        name,
        length: Length {
            low: sizes.low,
            high: sizes.high,
            until: length.until.map(|until| until.condition),
        },
        window: sizes.window,
        assume,
        commit,
        hand,
        covers,
        next,
    }
}

fn properties_of(
    alloc: Global,
    looked: Vec<Looked>,
    texts: Vec<PropertyText>,
) -> Result<Items<Property>, AllocError>
    ensures { IfOk result (λ list. list ≡ properties_of looked.items texts.items) }
{
    let mut list = Vec::new(alloc);
    let mut texts = VecDeque::from_vec(texts);
    for looked in looked {
        match texts.pop_front() {
            Some(text) => list.push(property_of(text, looked))?,
            None => break,
        }
    }
    Ok(Items::from_vec(list))
}

// The lists of a set whose names were looked up.
#[derive(Drop)]
struct Lists {
    names: Items<Name>,
    rules: Rules,
    operations: Items<Property>,
}

fn lists_of(
    alloc: Global,
    declarations: Vec<Declaration>,
    rules: Vec<RuleText>,
    operations: Vec<PropertyText>,
    looked: Vec<Looked>,
) -> Result<Option<Lists>, AllocError>
    ensures names { IfOk result (λ lists. MatchOption lists (each name_of declarations.items ≡ None)
        (λ l. each name_of declarations.items ≡ Some l.names)) }
    ensures constraints { IfOk result (λ lists. IfSome lists
        (λ l. l.rules.constraints.items ≡ constraints_of rules.items)) }
    ensures invariants { IfOk result (λ lists. IfSome lists
        (λ l. l.rules.invariants.items ≡ invariants_of rules.items)) }
    ensures operations { IfOk result (λ lists. IfSome lists
        (λ l. l.operations ≡ properties_of looked.items operations.items)) }
{
    let Some(names) = names_of(alloc, declarations)? else {
        return Ok(None);
    };
    let rules = rules_of(alloc, rules)?;
    let operations = properties_of(alloc, looked, operations)?;
    Ok(Some(Lists {
        names,
        rules,
        operations,
    }))
}

// What was looked up for a set.
#[derive(Drop)]
struct Found {
    first: Looked,
    rest: Vec<Looked>,
}

// Looks up what a set needs.
fn looked_through(alloc: Global, text: &SetText) -> Result<Option<Found>, AllocError>
    requires declarations { length text.now.declarations < 2 ^ 32 }
    requires operations { length text.now.operations < 2 ^ 32 - 1 }
    ensures first { IfOk result (λ found. IfSome found
        (λ f. looked_of text.now.declarations text.now.operations text.now.first ≡ Some f.first)) }
    ensures rest { IfOk result (λ found. IfSome found
        (λ f. each (looked_of text.now.declarations text.now.operations) text.now.operations ≡ Some f.rest.items)) }
    ensures none { IfOk result (λ found. IfNone found (MeansNothing text.now)) }
{
    let declarations = text.declarations.as_slice();
    let operations = text.operations.as_slice();
    let Some(first) = looked_of(alloc, declarations, operations, &text.first)? else {
        return Ok(None);
    };
    let Some(rest) = all_looked(alloc, declarations, operations)? else {
        return Ok(None);
    };
    Ok(Some(Found { first, rest }))
}

/// The block, its clock and its reset.
#[derive(Drop)]
pub struct Head {
    pub block: Text,
    pub clock: Text,
    pub reset: Text,
    pub high: bool,
}

fn assembled(head: Head, cycles: u8, first: Property, lists: Lists) -> Set
    ensures head { result.block ≡ head.block }
    ensures clock { result.clock ≡ head.clock }
    ensures reset { result.reset ≡ head.reset }
    ensures high { result.high ≡ head.high }
    ensures cycles { result.cycles ≡ cycles }
    ensures names { result.names ≡ lists.names }
    ensures constraints { result.constraints ≡ lists.rules.constraints.items }
    ensures invariants { result.invariants ≡ lists.rules.invariants.items }
    ensures first { result.first ≡ first }
    ensures operations { result.operations ≡ lists.operations }
{
    Set {
        block: head.block,
        clock: head.clock,
        reset: head.reset,
        high: head.high,
        cycles,
        names: lists.names,
        constraints: Items::from_vec(lists.rules.constraints),
        invariants: Items::from_vec(lists.rules.invariants),
        first,
        operations: lists.operations,
    }
}

// The set of a text for which all was looked up.
fn gathered(alloc: Global, text: SetText, found: Found) -> Result<Option<Set>, AllocError>
    requires cycles { text.cycles < 256 }
    requires first { looked_of text.declarations text.operations text.first ≡ Some found.first }
    requires rest { each (looked_of text.declarations text.operations) text.operations ≡ Some found.rest.items }
    ensures { IfOk result (λ set. MatchOption set (MeansNothing text) (Means text)) }
{
    let cycles = text.cycles as u8;
    let lists = lists_of(
        alloc,
        text.declarations.into_vec(),
        text.rules.into_vec(),
        text.operations.into_vec(),
        found.rest,
    );
    let head = Head {
        block: text.block,
        clock: text.clock,
        reset: text.reset,
        high: text.high,
    };
    let first = property_of(text.first, found.first);
    match lists {
        Ok(Some(lists)) => Ok(Some(assembled(head, cycles, first, lists))),
        Ok(None) => {
            drop((head, first));
            Ok(None)
        }
        Err(error) => {
            drop((head, first));
            Err(error)
        }
    }
}

// The set that a text means, where it means one.
fn set_of(alloc: Global, text: SetText) -> Result<Option<Set>, AllocError>
    requires cycles { text.cycles < 256 }
    requires declarations { length text.declarations < 2 ^ 32 }
    requires operations { length text.operations < 2 ^ 32 - 1 }
    ensures { IfOk result (λ set. MatchOption set (MeansNothing text) (Means text)) }
{
    match looked_through(alloc, &text) {
        Ok(Some(found)) => gathered(alloc, text, found),
        Ok(None) => {
            drop(text);
            Ok(None)
        }
        Err(error) => {
            drop(text);
            Err(error)
        }
    }
}

// Whether a text has nothing against it.
fn check(alloc: Global, text: &SetText) -> Result<(), Wrong>
    requires { HasSmallNumbers text.now }
    ensures ok { OnOk result (IsValid text.now) }
    ensures err { IfErr result (Stands text.now) }
{
    if let Some(quantity) = limit_of(text) {
        return Err(Wrong::Limit(quantity));
    }
    // Few names are known: where each name is, one of the first of a long list stands there again.
    if let Some(name) = unknown_of(text) {
        return Err(Wrong::Unknown(Text::copy(alloc, name.bytes())?));
    }
    if let Some(name) = twice_of(alloc, text)? {
        return Err(Wrong::Twice(name));
    }
    if !all_formed(alloc, text)? {
        return Err(Wrong::Limit(Quantity::Width));
    }
    Ok(())
}

// The set of a text that has nothing against it.
fn valid_set(alloc: Global, text: SetText) -> Result<Set, Wrong>
    requires numbers { HasSmallNumbers text }
    requires valid { IsValid text }
    ensures means { IfOk result (Means text) }
    ensures err { IfErr result (Stands text) }
{
    match set_of(alloc, text)? {
        Some(set) => Ok(set),
        None => unreachable!(),
    }
}

/// The set that a text means. Its numbers of bits and of offsets must be below 2^32, as those that digits alone spell
/// are. `Unknown`, `Twice` and `Limit` are what the text has against it; where several stand, one of them.
pub fn look_up(alloc: Global, text: SetText) -> Result<Set, Wrong>
    requires { HasSmallNumbers text }
    ensures means { IfOk result (Means text) }
    ensures valid { OnOk result (IsValid text) }
    ensures err { IfErr result (Stands text) }
{
    match check(alloc, &text) {
        Ok(()) => valid_set(alloc, text),
        Err(wrong) => {
            drop(text);
            Err(wrong)
        }
    }
}
