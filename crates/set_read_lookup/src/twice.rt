// Names that stand twice.
ghost use Rattle.std.specs.Prelude.{◌≡◌, ◌++◌, ◌∷◌, [], map, IfOk, OnOk};
ghost use Rattle.std.specs.List.{list_any};
ghost use Rattle.std.specs.Option.{option_copied};
ghost use Rattle.std.specs.Str.{bytes_eq};
ghost use Rattle.set_read_lookup.specs.Faults.{first_twice, first_next_twice, signal_names, property_names, Finds, StandsTwice, properties_in};

use outside::Text;
use set_tree::{Declaration, PropertyText, RuleText, SetText};
use sqlite_items::Items;
use std::alloc::{AllocError, Global};

fn has(names: &[Text], name: &[u8]) -> bool
    ensures { result ≡ list_any (λ m. bytes_eq m name.now) names.now }
{
    for other in names {
        if other.bytes() == name {
            return true;
        }
    }
    false
}

// The first name that stands again behind its place.
fn twice_in(names: &[Text]) -> Option<&Text>
    ensures { option_copied result ≡ first_twice names.now }
{
    for (at, name) in names.iter().enumerate() {
        if has(&names[at + 1..], name.bytes()) {
            return Some(name);
        }
    }
    None
}

// The first name that stands twice in one list of successors.
fn next_twice(operations: &[PropertyText]) -> Option<&Text>
    ensures { option_copied result ≡ first_next_twice operations.now }
{
    for operation in operations {
        if let Some(name) = twice_in(operation.next.as_slice()) {
            return Some(name);
        }
    }
    None
}

// The names are noted in a list of the caller's, so that nothing has to be dropped where memory runs out.

fn note(alloc: Global, names: &mut Items<Text>, name: &Text) -> Result<(), AllocError>
    ensures { OnOk result (names.new ≡ names.old ++ name.now ∷ []) }
{
    names.push(Text::copy(alloc, name.bytes())?)
}

fn note_signals(
    alloc: Global,
    names: &mut Items<Text>,
    declarations: &[Declaration],
) -> Result<(), AllocError>
    ensures { OnOk result (names.new ≡ names.old ++ map (λ d. d.name) declarations.now) }
{
    for declaration in declarations {
        note(alloc, names, &declaration.name)?;
    }
    Ok(())
}

fn note_operations(
    alloc: Global,
    names: &mut Items<Text>,
    properties: &[PropertyText],
) -> Result<(), AllocError>
    ensures { OnOk result (names.new ≡ names.old ++ map (λ p. p.name) properties.now) }
{
    for operation in properties {
        note(alloc, names, &operation.name)?;
    }
    Ok(())
}

fn note_rules(alloc: Global, names: &mut Items<Text>, rules: &[RuleText]) -> Result<(), AllocError>
    ensures { OnOk result (names.new ≡ names.old ++ map (λ r. r.name) rules.now) }
{
    for rule in rules {
        note(alloc, names, &rule.name)?;
    }
    Ok(())
}

// The names of the properties and the rules.
fn note_properties(alloc: Global, names: &mut Items<Text>, text: &SetText) -> Result<(), AllocError>
    ensures { OnOk result (names.new ≡ names.old ++ property_names text.now) }
{
    note(alloc, names, &text.first.name)?;
    note_operations(alloc, names, text.operations.as_slice())?;
    note_rules(alloc, names, text.rules.as_slice())
}

fn owned(alloc: Global, name: Option<&Text>) -> Result<Option<Text>, AllocError>
    ensures { IfOk result (λ o. o ≡ option_copied name.entry) }
{
    match name {
        Some(name) => Ok(Some(Text::copy(alloc, name.bytes())?)),
        None => Ok(None),
    }
}

fn signal_twice(alloc: Global, text: &SetText) -> Result<Option<Text>, AllocError>
    ensures { IfOk result (λ o. o ≡ first_twice (signal_names text.now)) }
{
    let mut names = Items::new(alloc);
    note_signals(alloc, &mut names, text.declarations.as_slice())?;
    owned(alloc, twice_in(names.as_slice()))
}

fn property_twice(alloc: Global, text: &SetText) -> Result<Option<Text>, AllocError>
    ensures { IfOk result (λ o. o ≡ first_twice (property_names text.now)) }
{
    let mut names = Items::new(alloc);
    note_properties(alloc, &mut names, text)?;
    owned(alloc, twice_in(names.as_slice()))
}

fn successor_twice(alloc: Global, text: &SetText) -> Result<Option<Text>, AllocError>
    ensures { IfOk result (λ o. o ≡ first_next_twice (properties_in text.now)) }
{
    match twice_in(text.first.next.as_slice()) {
        Some(name) => owned(alloc, Some(name)),
        None => owned(alloc, next_twice(text.operations.as_slice())),
    }
}

/// A name that stands twice.
pub fn twice_of(alloc: Global, text: &SetText) -> Result<Option<Text>, AllocError>
    ensures { IfOk result (Finds (StandsTwice text.now)) }
{
    if let Some(name) = signal_twice(alloc, text)? {
        return Ok(Some(name));
    }
    if let Some(name) = property_twice(alloc, text)? {
        return Ok(Some(name));
    }
    successor_twice(alloc, text)
}
