// Steps that the last one doesn't rest on are left out. Sweeps find more than a refutation needs, and so does a search.

use clause_check::{Step, in_32_bits};
use std::alloc::{AllocError, Global};

// Whether each step is the last one, or a hint of a step that is kept. There are so many input clauses.
fn kept(alloc: Global, inputs: usize, steps: &[Step]) -> Result<Vec<bool>, AllocError> {
    let mut kept = vec![in alloc; false; steps.len()]?;
    if let Some(last) = kept.last_mut() {
        *last = true;
    }
    for (place, step) in steps.iter().enumerate().rev() {
        if !kept.get(place).copied().unwrap_or(false) {
            continue;
        }
        for hint in &step.hints {
            if let Some(place) = (*hint as usize).checked_sub(inputs) {
                if let Some(mark) = kept.get_mut(place) {
                    *mark = true;
                }
            }
        }
    }
    Ok(kept)
}

/// The steps that the last one rests on, with new numbers.
pub fn trimmed(alloc: Global, inputs: usize, steps: Vec<Step>) -> Result<Vec<Step>, AllocError> {
    let kept = kept(alloc, inputs, steps.as_slice())?;
    let mut numbers: Vec<u32> = Vec::new(alloc);
    let mut left: Vec<Step> = Vec::new(alloc);
    for (mut step, is_kept) in steps.into_iter().zip(kept) {
        numbers.push(in_32_bits(inputs.saturating_add(left.len()))?)?;
        if is_kept {
            for hint in step.hints.iter_mut() {
                if let Some(place) = (*hint as usize).checked_sub(inputs) {
                    *hint = numbers.get(place).copied().unwrap_or(*hint);
                }
            }
            left.push(step)?;
        }
    }
    Ok(left)
}
