// Violated lines of a set.
use crate::scene::Scene;
use crate::span::{Item, Span};
use set_tree::To;
use signoff_places::{declared_name, shown, titled};
use std::alloc::{AllocError, Global};
use vlog_tree::Expr;

// The length of a property.
const LENGTH: Item<'static> = Item {
    word: b"length",
    clause: 0,
    number: 0,
};

// The successors of a property.
const NEXT: Item<'static> = Item {
    word: b"next",
    clause: 0,
    number: 0,
};

/// An edge from a property to one that follows it, by their positions.
#[derive(Clone, Copy)]
pub struct Edge {
    pub from: u32,
    pub to: u32,
}

/// Adds that the property at a position doesn't end, and the values at each cycle at which it could.
pub fn add_endless(scene: &Scene<'_>, out: &mut Vec<u8>, at: u32) -> Result<(), AllocError> {
    let length = &scene.property(at).length;
    let Some(until) = &length.until else {
        return Ok(());
    };
    let title = titled(scene.alloc, scene.set, at)?;
    let low = length.low;
    let high = length.high;
    let sentence = format!(in scene.alloc;
        "{title} starts at cycle 0 and doesn't end: its condition is false from cycle {low} to cycle {high}"
    )?;
    scene.add_note(out, scene.span(at, LENGTH), sentence.as_str())?;
    for cycle in usize::from(low)..usize::from(high) + 1 {
        scene.add_values(out, until, cycle)?;
    }
    Ok(())
}

// The first assumption of the property at a position that doesn't hold at a cycle, and what comes of it; of two windows
// the one that is alone.
fn unassumed(
    scene: &Scene<'_>,
    at: u32,
    cycle: usize,
) -> Result<Option<(usize, &'static str)>, AllocError> {
    let assumptions = scene.property(at).assume.as_slice();
    let one = scene.first.first_false(assumptions, cycle)?;
    let other = scene.second.first_false(assumptions, cycle)?;
    Ok(match (one, other) {
        (Some(clause), _) if scene.second.rows.is_empty() => Some((clause, "isn't assumed")),
        (None, Some(clause)) => Some((clause, "is assumed in the first window alone")),
        (Some(clause), None) => Some((clause, "is assumed in the second window alone")),
        _ => None,
    })
}

fn unassumed_sentence(
    scene: &Scene<'_>,
    at: u32,
    cycle: usize,
    (clause, how): (usize, &str),
    span: Option<Span>,
) -> Result<String, AllocError> {
    let title = titled(scene.alloc, scene.set, at)?;
    let assumption = scene.named("assumption", clause, span)?;
    format!(in scene.alloc; "{title} {how} at cycle {cycle}: its {assumption} is false")
}

// Adds that the property at a position isn't assumed at a cycle, or is in one of two windows alone, by the first
// assumption that doesn't hold there.
fn add_unassumed(
    scene: &Scene<'_>,
    out: &mut Vec<u8>,
    at: u32,
    cycle: usize,
) -> Result<(), AllocError> {
    let Some((clause, how)) = unassumed(scene, at, cycle)? else {
        return Ok(());
    };
    let Some(formula) = scene.property(at).assume.get(clause) else {
        return Ok(());
    };
    let span = scene.span(
        at,
        Item {
            word: b"assume",
            clause,
            number: 0,
        },
    );
    let sentence = unassumed_sentence(scene, at, cycle, (clause, how), span)?;
    scene.add_note(out, span, sentence.as_str())?;
    scene.add_values(out, formula, cycle)
}

// Adds that the property at a position ends at a cycle at which no successor is assumed.
fn add_end(scene: &Scene<'_>, out: &mut Vec<u8>, at: u32, end: usize) -> Result<(), AllocError> {
    let title = titled(scene.alloc, scene.set, at)?;
    let sentence = format!(in scene.alloc;
        "{title} ends at cycle {end}, where no successor's assumptions hold"
    )?;
    scene.add_note(out, scene.span(at, NEXT), sentence.as_str())
}

/// Adds that no successor is assumed where the property at a position ends, and why each isn't.
pub fn add_split(scene: &Scene<'_>, out: &mut Vec<u8>, at: u32) -> Result<(), AllocError> {
    let Some(end) = scene.first.end_of(scene.property(at))? else {
        return Ok(());
    };
    add_end(scene, out, at, end)?;
    for next in scene.property(at).next.as_slice() {
        add_unassumed(scene, out, *next, end)?;
    }
    Ok(())
}

// What is said of a property's end.
fn ending(alloc: Global, end: Option<usize>) -> Result<String, AllocError> {
    match end {
        Some(cycle) => format!(in alloc; "ends at cycle {cycle}"),
        None => String::from_str(alloc, "doesn't end"),
    }
}

fn ends_sentence(
    scene: &Scene<'_>,
    at: u32,
    one: Option<usize>,
    other: Option<usize>,
) -> Result<String, AllocError> {
    let title = titled(scene.alloc, scene.set, at)?;
    let first = ending(scene.alloc, one)?;
    let second = ending(scene.alloc, other)?;
    format!(in scene.alloc; "{title} {first} in the first window, {second} in the second")
}

/// Adds that the property at a position ends at different cycles.
pub fn add_ends(scene: &Scene<'_>, out: &mut Vec<u8>, at: u32) -> Result<(), AllocError> {
    let property = scene.property(at);
    let one = scene.first.end_of(property)?;
    let other = scene.second.end_of(property)?;
    let sentence = ends_sentence(scene, at, one, other)?;
    scene.add_note(out, scene.span(at, LENGTH), sentence.as_str())?;
    let earlier = one.unwrap_or(usize::MAX).min(other.unwrap_or(usize::MAX));
    match &property.length.until {
        Some(until) => scene.add_values(out, until, earlier),
        None => Ok(()),
    }
}

/// Adds that the second property of an edge is assumed in one window alone.
pub fn add_choice(scene: &Scene<'_>, out: &mut Vec<u8>, edge: Edge) -> Result<(), AllocError> {
    match scene.first.end_of(scene.property(edge.from))? {
        Some(cycle) => add_unassumed(scene, out, edge.to, cycle),
        None => Ok(()),
    }
}

// A hand-over of the property at a position, by its number, and the cycle at which that property begins.
#[derive(Clone, Copy)]
struct HandOver {
    at: u32,
    number: usize,
    cycle: usize,
}

fn hand_sentence(
    scene: &Scene<'_>,
    hand: HandOver,
    span: Option<Span>,
    one: u64,
    other: u64,
) -> Result<String, AllocError> {
    let cycle = hand.cycle;
    let title = titled(scene.alloc, scene.set, hand.at)?;
    let hand = scene.named("hand-over", hand.number, span)?;
    format!(in scene.alloc;
        "the {hand} of {title} at cycle {cycle} is {one} in the first window, {other} in the second"
    )
}

// Adds a hand-over if it differs.
fn add_hand(
    scene: &Scene<'_>,
    out: &mut Vec<u8>,
    hand: HandOver,
    formula: &Expr,
) -> Result<(), AllocError> {
    let one = scene.first.value_of(formula, hand.cycle)?.unwrap_or(0);
    let other = scene.second.value_of(formula, hand.cycle)?.unwrap_or(0);
    if one == other {
        return Ok(());
    }
    let span = scene.span(
        hand.at,
        Item {
            word: b"hand",
            clause: 0,
            number: hand.number,
        },
    );
    let sentence = hand_sentence(scene, hand, span, one, other)?;
    scene.add_note(out, span, sentence.as_str())?;
    scene.add_values(out, formula, hand.cycle)
}

/// Adds each hand-over of the second property of an edge that differs.
pub fn add_hands(scene: &Scene<'_>, out: &mut Vec<u8>, edge: Edge) -> Result<(), AllocError> {
    let Some(cycle) = scene.first.end_of(scene.property(edge.from))? else {
        return Ok(());
    };
    let hands = scene.property(edge.to).hand.as_slice();
    for number in 0..hands.len() {
        let hand = HandOver {
            at: edge.to,
            number,
            cycle,
        };
        add_hand(scene, out, hand, &hands[number])?;
    }
    Ok(())
}

// Whether an output is claimed at a cycle, in each window.
fn claims(scene: &Scene<'_>, output: u32, cycle: usize) -> Result<(bool, bool), AllocError> {
    let Some(domain) = scene
        .set
        .names
        .get(output as usize)
        .and_then(|name| name.domain.as_ref())
    else {
        return Ok((true, true));
    };
    let one = scene.first.value_of(domain, cycle)? != Some(0);
    let other = scene.second.value_of(domain, cycle)? != Some(0);
    Ok((one, other))
}

// How the values of an output differ that is claimed at a cycle. None: they are the same.
fn unlike(scene: &Scene<'_>, output: u32, cycle: usize) -> Result<Option<String>, AllocError> {
    let name = shown(declared_name(scene.set, output));
    let one = scene.first.value(output as usize, cycle).unwrap_or(0);
    let other = scene.second.value(output as usize, cycle).unwrap_or(0);
    if one == other {
        return Ok(None);
    }
    Ok(Some(format!(in scene.alloc;
        "output {name} is claimed at cycle {cycle} and differs: {one} in the first window, {other} in the second"
    )?))
}

// Why an output isn't determined at a cycle. None: it is.
fn difference(scene: &Scene<'_>, output: u32, cycle: usize) -> Result<Option<String>, AllocError> {
    let which = match claims(scene, output, cycle)? {
        (true, true) => return unlike(scene, output, cycle),
        (false, false) => return Ok(None),
        (true, false) => "first",
        (false, true) => "second",
    };
    let name = shown(declared_name(scene.set, output));
    Ok(Some(format!(in scene.alloc;
        "output {name} is claimed at cycle {cycle} in the {which} window alone"
    )?))
}

// The cycle before which a cover ends, where its property ends at a cycle.
fn cover_end(to: To, end: usize) -> usize {
    match to {
        To::At(offset) => offset as usize,
        To::AfterEnd(distance) => end.saturating_add(distance as usize),
    }
}

/// Adds for each output that the property at a position covers the first cycle at which it isn't determined.
pub fn add_outputs(scene: &Scene<'_>, out: &mut Vec<u8>, at: u32) -> Result<(), AllocError> {
    let property = scene.property(at);
    let Some(end) = scene.first.end_of(property)? else {
        return Ok(());
    };
    let covers = property.covers.as_slice();
    for clause in 0..covers.len() {
        let cover = covers[clause];
        for cycle in cover.from as usize..cover_end(cover.to, end) {
            if let Some(sentence) = difference(scene, cover.output, cycle)? {
                let span = scene.span(
                    at,
                    Item {
                        word: b"cover",
                        clause,
                        number: 0,
                    },
                );
                scene.add_note(out, span, sentence.as_str())?;
                break;
            }
        }
    }
    Ok(())
}
