// What is shown of the lines of a design.
ghost use Rattle.std.specs.Prelude.{◌≡◌, ◌<◌, ◌≤◌, length, map, IfOk};
ghost use Rattle.std.specs.List.{All, AllZip};
ghost use Rattle.vlog_tree.specs.Valuation.{IsLength};
ghost use Rattle.set_tree.specs.Formulas.{meaning_of};
ghost use Rattle.word_core.specs.Words.{Bits};
ghost use Rattle.word_dag.specs.Nodes.{Naming, root_value, word_at};
ghost use Rattle.elab_step_design.specs.declared.design.Register.{Register as Registers};
ghost use Rattle.word_dag.specs.Names.{HasOneWordEach, naming_from};
ghost use Rattle.unroll_laws.specs.Lines.{IsOf};
ghost use Rattle.unroll_laws.specs.Tests.{rows_from};
ghost use Rattle.twin_tests.specs.Framing.{SpeaksOf};
ghost use Rattle.unroll.specs.Copies.{IsPlaceOf};
ghost use Rattle.unroll.specs.Named.{line_of};
ghost use Rattle.replay.specs.Segments.{ShowsNamed, ShowsSegment, last_cycle, named_start, resets_of};
ghost use Rattle.replay.specs.Values.{AreOf};

use crate::cycle::{register_names, value_in, words_at};
use crate::shown::{Shown, Start};
use crate::source::{Position, Source};
use crate::twin::{trace_of, window_of};
use crate::values::{Values, value_at, values_of};
use crate::window::cut;
use elab_step_design::Register;
use outside::Text;
use set_tree::Rows;
use set_tree_structure::Sound;
use std::alloc::{AllocError, Global};
use unroll::{DesignLine, Moment, cycle_of, places_of};
use unroll_binding::Bound;
use word_core::Word;
use word_dag::Ob;

// How many reset cycles stand before the cycles of a line.
fn resets_of(set: &Sound, line: DesignLine) -> u8
    ensures resets { result ≡ resets_of set.now (line_of line) }
    ensures small { result ≤ 64 }
{
    match line {
        DesignLine::Base(_) | DesignLine::Reset => set.set().cycles,
        DesignLine::Step(_) | DesignLine::Operation(_) => 0,
    }
}

// The number of a line's last cycle.
fn last_cycle(set: &Sound, line: DesignLine) -> u8
    requires { SpeaksOf set.now (line_of line) }
    ensures last { result ≡ last_cycle set.now (line_of line) }
    ensures small { result ≤ 64 }
{
    match line {
        DesignLine::Base(_) => 0,
        DesignLine::Step(_) => 1,
        DesignLine::Reset => window_of(set, 0),
        DesignLine::Operation(p) => window_of(set, p),
    }
}

// The values of the nodes at these places.
fn row_of(alloc: Global, words: &[Word], places: &[u64]) -> Result<Rows<u64>, AllocError>
    ensures { IfOk result (λ row. row ≡ map (λ place. (word_at words.now place).value) places.now) }
{
    let mut row = Rows::new(alloc);
    for place in places {
        row.push(value_in(words, *place))?;
    }
    Ok(row)
}

/// The first rows of the segment whose values a source has, its reset cycles among them.
pub fn rows_of_source<S: Source>(
    alloc: Global,
    bound: &Bound,
    source: &S,
    resets: u8,
    count: usize,
) -> Result<Rows<Rows<u64>>, AllocError>
    requires { count ≤ S.count source.now }
    ensures { IfOk result (λ rows. (e : Naming) → S.gives source.now e →
        rows ≡ rows_from bound.now.design bound.now.set resets e 0 count) }
{
    let registers = register_names(alloc, bound.design())?;
    let places = places_of(alloc, bound)?;
    let mut words = Vec::new(alloc);
    let mut rows = Rows::new(alloc);
    for at in 0..count {
        let position = Position { at, resets };
        words = words_at(alloc, bound, source, &registers, position, words.as_slice())?;
        let row = row_of(alloc, words.as_slice(), places.as_slice())?;
        rows.push(row)?;
    }
    Ok(rows)
}

// The first value of a register.
fn start_of(
    alloc: Global,
    register: &Register,
    values: &Values<'_>,
    resets: u8,
) -> Result<Start, AllocError>
    requires { IsLength register.now.width }
    ensures { IfOk result (λ start. (e : Naming) → AreOf e values.now → start ≡ named_start e resets register.now) }
{
    let first = Moment {
        position: 0,
        resets,
    };
    let name = register.name.bytes();
    let value = value_at(values, name, 0, cycle_of(first));
    Ok(Start {
        name: Text::copy(alloc, name)?,
        value: cut(value, register.width),
    })
}

// The registers' first values.
fn starts_of(
    alloc: Global,
    registers: &[Register],
    values: &Values<'_>,
    resets: u8,
) -> Result<Rows<Start>, AllocError>
    requires { All (λ r. IsLength r.width) registers.now }
    ensures { IfOk result (λ starts. (e : Naming) → AreOf e values.now →
        starts ≡ map (named_start e resets) registers.now) }
{
    let mut starts = Rows::new(alloc);
    for register in registers {
        starts.push(start_of(alloc, register, values, resets)?)?;
    }
    Ok(starts)
}

/// How far a segment reaches: its reset cycles, and the number of its last cycle, cycle 0 being the first without
/// reset.
#[derive(Clone, Copy)]
pub struct Reach {
    pub resets: u8,
    pub last: u8,
}

/// The segment that values of an obligation's free nodes name, one each in number order, every word that the obligation
/// doesn't have being 0. Its reset cycles stand first.
pub fn shown_segment(
    alloc: Global,
    bound: &Bound,
    reach: Reach,
    ob: &Ob,
    values: &[u64],
) -> Result<Shown, AllocError>
    requires resets { reach.resets ≤ 64 }
    requires last { reach.last ≤ 64 }
    ensures { IfOk result (ShowsNamed bound.now.design bound.now.set
        (naming_from ob.now.nodes values.now) reach.resets reach.last) }
{
    let design = bound.design();
    // the nodes of a design fit
    let _fit = design.dag();
    let values = values_of(alloc, ob.nodes(), values)?;
    let set = bound.set();
    let before = reach.resets;
    let count = before + reach.last + 1;
    let rows = rows_of_source(alloc, bound, &values, before, usize::from(count))?;
    Ok(Shown {
        start: starts_of(alloc, design.registers(), &values, before)?,
        before: u32::from(before),
        first: trace_of(alloc, set.set(), rows)?,
        second: None,
    })
}

/// What is shown of a line of a design that is refuted by values of its obligation's free nodes, one each in number
/// order: the segment that they name, every word that the obligation doesn't have being 0. It violates the line. Its
/// reset cycles, where the line has them, stand first.
pub fn replay(
    alloc: Global,
    bound: &Bound,
    line: DesignLine,
    ob: &Ob,
    values: &[u64],
) -> Result<Shown, AllocError>
    requires of_line { IsOf bound.now.design (meaning_of bound.now.set) bound.now.set
        (line_of line) ob.now.nodes ob.now.root }
    requires speaks { SpeaksOf bound.now.set (line_of line) }
    requires words { HasOneWordEach ob.now.nodes }
    requires root { (root_value values.now ob.now.nodes ob.now.root).value ≡ 1 }
    ensures { IfOk result (ShowsSegment bound.now.design (meaning_of bound.now.set) bound.now.set (line_of line)
        (naming_from ob.now.nodes values.now)) }
{
    let design = bound.design();
    // the nodes of a design fit
    let _fit = design.dag();
    let set = bound.set();
    let resets = resets_of(set, line);
    let last = last_cycle(set, line);
    let shown = shown_segment(alloc, bound, Reach { resets, last }, ob, values)?;
    Ok(shown)
}
