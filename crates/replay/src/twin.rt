// What is shown of the lines of a set.
ghost use Rattle.std.specs.Prelude.{◌≡◌, ℕ, ◌≤◌, List, map, IfOk, None, true};
ghost use Rattle.std.specs.List.{All};
ghost use Rattle.std.specs.Option.{IfSome};
ghost use Rattle.set_tree.specs.declared.set.Name.{Name as Declared};
ghost use Rattle.set_tree.specs.Formulas.{meaning_of};
ghost use Rattle.set_tree.specs.Meaning.{Row};
ghost use Rattle.set_tree.specs.Lines.{last_row};
ghost use Rattle.set_tree.specs.Parts.{IsPosition, window_of};
ghost use Rattle.word_dag.specs.Nodes.{Naming, root_value};
ghost use Rattle.word_dag.specs.Names.{HasOneWordEach, naming_from};
ghost use Rattle.twin_tests_laws.specs.Laws.{property_of};
ghost use Rattle.twin_tests_laws.specs.Lines.{IsOf, edge_end, split_end};
ghost use Rattle.twin_tests.specs.Framing.{SpeaksOf};
ghost use Rattle.twin_tests.specs.Ordering.{line_of};
ghost use Rattle.replay_eval.specs.Judging.{AreViolating};
ghost use Rattle.replay.specs.Values.{AreOf};
ghost use Rattle.replay.specs.Windows.{AreNamedWindows, HasSecond, ShowsNamedWindows, ShowsWindows, ViolatesAt, compares, declared_names, line_end, second_rows};

use crate::shown::{Shown, Trace};
use crate::values::{Values, values_of};
use crate::window::rows_of;
use outside::Text;
use replay_eval::Windows;
use set_tree::{Name, Property, Rows, Set};
use set_tree_structure::Sound;
use std::alloc::{AllocError, Global};
use twin_tests::{SetLine, property_of};
use word_dag::Ob;

/// The window of a property.
pub fn window_of(set: &Sound, at: u32) -> u8
    requires { IsPosition set.now at }
    ensures window { result ≡ window_of set.now at }
    ensures small { result ≤ 64 }
{
    property_of(set.set(), at as usize).window
}

// The last row of windows that reach as far as these successors read from `n` on.
fn last_row(set: &Sound, window: u8, n: u8, next: &[u32]) -> u8
    requires positions { All (IsPosition set.now) next.now }
    requires window { window ≤ 64 }
    requires end { n ≤ 64 }
    ensures last { result ≡ last_row set.now window n next.now }
    ensures small { result ≤ 128 }
{
    let mut last = window;
    for successor in next {
        last = last.max(n + window_of(set, *successor));
    }
    last
}

fn split_end(set: &Sound, at: u32, n: u8) -> u8
    requires position { IsPosition set.now at }
    requires end { n ≤ 64 }
    ensures last { result ≡ split_end set.now at n }
    ensures small { result ≤ 128 }
{
    let next = property_of(set.set(), at as usize).next.as_slice();
    last_row(set, window_of(set, at), n, next)
}

fn edge_end(set: &Sound, from: u32, to: u32, n: u8) -> u8
    requires from { IsPosition set.now from }
    requires to { IsPosition set.now to }
    requires end { n ≤ 64 }
    ensures last { result ≡ edge_end set.now from to n }
    ensures small { result ≤ 128 }
{
    window_of(set, from).max(n + window_of(set, to))
}

// The last row of the windows of a line where its property ends at `n`.
fn line_end(set: &Sound, line: SetLine, n: u8) -> u8
    requires speaks { SpeaksOf set.now (line_of line) }
    requires end { n ≤ 64 }
    ensures last { result ≡ line_end set.now (line_of line) n }
    ensures small { result ≤ 128 }
{
    match line {
        SetLine::End(p) | SetLine::SameEnd(p) | SetLine::Determine(p) => window_of(set, p),
        SetLine::Split(p) => split_end(set, p, n),
        SetLine::Choose(p, q) | SetLine::Hand(p, q) => edge_end(set, p, q, n),
    }
}

// Whether a line compares two windows.
fn compares(line: SetLine) -> bool
    ensures { result ≡ compares (line_of line) }
{
    match line {
        SetLine::End(_) | SetLine::Split(_) => false,
        SetLine::SameEnd(_) | SetLine::Choose(..) | SetLine::Hand(..) | SetLine::Determine(_) =>
            true,
    }
}

// The declared names.
fn names_of(alloc: Global, names: &[Name]) -> Result<Rows<Text>, AllocError>
    ensures { IfOk result (λ texts. texts ≡ map (λ (name : Declared). name.name) names.now) }
{
    let mut texts = Rows::new(alloc);
    for name in names {
        texts.push(Text::copy(alloc, name.name.bytes())?)?;
    }
    Ok(texts)
}

/// Rows under the declared names.
pub fn trace_of(alloc: Global, set: &Set, rows: Rows<Rows<u64>>) -> Result<Trace, AllocError>
    ensures names { IfOk result (λ trace. trace.names ≡ declared_names set.now) }
    ensures rows { IfOk result (λ trace. trace.rows ≡ rows) }
{
    Ok(Trace {
        names: names_of(alloc, set.names.as_slice())?,
        rows,
    })
}

// The second trace, where a line compares two.
fn second_of(
    alloc: Global,
    set: &Set,
    line: SetLine,
    rows: Rows<Rows<u64>>,
) -> Result<Option<Trace>, AllocError>
    ensures second { IfOk result (HasSecond set.now (compares (line_of line))) }
    ensures rows { (n : ℕ) (first : List Row) → AreViolating (meaning_of set.now) set.now (line_of line) n first rows →
        IfOk result (λ second. AreViolating (meaning_of set.now) set.now (line_of line) n first (second_rows second)) }
    ensures same { compares (line_of line) ≡ true → IfOk result (λ second. second_rows second ≡ rows) }
{
    if !compares(line) {
        return Ok(None);
    }
    let trace = trace_of(alloc, set, rows)?;
    Ok(Some(trace))
}

// The windows of a line where its property ends at `n`, if they violate it.
fn shown_at(
    alloc: Global,
    set: &Sound,
    values: &Values<'_>,
    line: SetLine,
    n: u8,
) -> Result<Option<Shown>, AllocError>
    requires speaks { SpeaksOf set.now (line_of line) }
    requires end { n ≤ 64 }
    ensures shown { IfOk result (λ found. IfSome found (ShowsWindows set.now (line_of line))) }
    ensures named { IfOk result (λ found. (e : Naming) → AreOf e values.now →
        IfSome found (AreNamedWindows set.now (line_of line) e n)) }
    ensures none { IfOk result (λ found. (e : Naming) → AreOf e values.now → found ≡ None →
        ViolatesAt set.now (line_of line) e n → ⊥) }
{
    let names = set.set().names.as_slice();
    let count = line_end(set, line, n) + 1;
    let first = rows_of(alloc, values, names, 0, count)?;
    let second = rows_of(alloc, values, names, 1, count)?;
    let windows = Windows {
        set,
        one: first.as_slice(),
        other: second.as_slice(),
    };
    let violated = windows.violate(alloc, line, n)?;
    if !violated {
        return Ok(None);
    }
    let first = trace_of(alloc, set.set(), first)?;
    let second = second_of(alloc, set.set(), line, second)?;
    Ok(Some(Shown {
        start: Rows::new(alloc),
        before: 0,
        first,
        second,
    }))
}

/// What is shown of a line of a set that is refuted by values of its obligation's free nodes, one each in number order:
/// the windows that they name, every word that the obligation doesn't have being 0. They violate the line. Where the
/// property of the line may end at several offsets, the windows are those of the first one at which they do.
pub fn twin_trace(
    alloc: Global,
    sound: &Sound,
    line: SetLine,
    ob: &Ob,
    values: &[u64],
) -> Result<Shown, AllocError>
    requires of_line { IsOf (meaning_of sound.now) sound.now (line_of line) ob.now.nodes ob.now.root }
    requires speaks { SpeaksOf sound.now (line_of line) }
    requires words { HasOneWordEach ob.now.nodes }
    requires root { (root_value values.now ob.now.nodes ob.now.root).value ≡ 1 }
    ensures shows { IfOk result (ShowsWindows sound.now (line_of line)) }
    ensures named { IfOk result (ShowsNamedWindows sound.now (line_of line) (naming_from ob.now.nodes values.now)) }
{
    let words = values_of(alloc, ob.nodes(), values)?;
    let length = &property_of(sound.set(), line.property() as usize).length;
    for n in length.low..length.high + 1 {
        if let Some(shown) = shown_at(alloc, sound, &words, line, n)? {
            return Ok(shown);
        }
    }
    unreachable!()
}
