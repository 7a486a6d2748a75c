// Violated lines of a design.
use crate::scene::Scene;
use crate::span::{Item, Span, invariant_span};
use signoff_places::{invariant_name, shown, titled};
use std::alloc::AllocError;
use vlog_tree::Expr;

/// Adds that an invariant doesn't hold at a cycle of what is shown.
pub fn add_invariant(
    scene: &Scene<'_>,
    out: &mut Vec<u8>,
    run: &str,
    at: u32,
    cycle: usize,
) -> Result<(), AllocError> {
    let Some(rule) = scene.set.invariants.get(at as usize) else {
        return Ok(());
    };
    let name = invariant_name(scene.set, at);
    let span = invariant_span(scene.tokens, name);
    let name = shown(name);
    let sentence = format!(in scene.alloc; "{run} violates invariant {name} at cycle {cycle}")?;
    scene.add_note(out, span, sentence.as_str())?;
    scene.add_values(out, &rule.formula, cycle)
}

fn commitment_sentence(
    scene: &Scene<'_>,
    at: u32,
    clause: usize,
    span: Option<Span>,
) -> Result<String, AllocError> {
    let title = titled(scene.alloc, scene.set, at)?;
    let commitment = scene.named("commitment", clause, span)?;
    format!(in scene.alloc; "{title} violates its {commitment} at cycle 0")
}

// Adds a commitment of the property at a position, which starts at cycle 0, if it doesn't hold.
fn add_commitment(
    scene: &Scene<'_>,
    out: &mut Vec<u8>,
    at: u32,
    clause: usize,
    formula: &Expr,
) -> Result<(), AllocError> {
    if scene.first.value_of(formula, 0)? != Some(0) {
        return Ok(());
    }
    let span = scene.span(
        at,
        Item {
            word: b"commit",
            clause,
            number: 0,
        },
    );
    let sentence = commitment_sentence(scene, at, clause, span)?;
    scene.add_note(out, span, sentence.as_str())?;
    scene.add_values(out, formula, 0)
}

/// Adds each commitment that doesn't hold of the property at a position, which starts at cycle 0.
pub fn add_commitments(scene: &Scene<'_>, out: &mut Vec<u8>, at: u32) -> Result<(), AllocError> {
    let commitments = scene.property(at).commit.as_slice();
    for clause in 0..commitments.len() {
        add_commitment(scene, out, at, clause, &commitments[clause])?;
    }
    Ok(())
}
