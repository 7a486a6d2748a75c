// The obligation of a line that is asked for alone.
use crate::examples::{COUNTER, COUNTER_SET};
use desk_core_goals::{LineFault, goal_named, obs_of_all};
use desk_core_stages::bound_of;
use std::alloc::Global;
use std::process::Abort;
use std::test::Fail;
use unroll_binding::Bound;
use word_dag::{Named, text};

// Whether it has the text of this one, which stands among those of all lines: proofs are kept under the text.
fn is_same(alloc: Global, bound: &Bound, among: &Named) -> Result<bool, LineFault> {
    let alone = goal_named(alloc, bound, &among.name)?;
    let found = text(alloc, &alone.ob)?;
    let wanted = text(alloc, &among.ob)?;
    Ok(found.as_slice() == wanted.as_slice())
}

// How many lines have the same text alone as among all.
fn count_same(alloc: Global, bound: &Bound) -> Result<usize, LineFault> {
    let mut count: usize = 0;
    for among in obs_of_all(alloc, bound)? {
        if is_same(alloc, bound, &among)? {
            count = count.saturating_add(1);
        }
    }
    Ok(count)
}

#[test]
fn a_line_alone_has_the_text_that_it_has_among_all(rt: HostRuntime) -> Result<(), Fail> {
    let Ok(bound) = bound_of(rt.alloc(), COUNTER, COUNTER_SET) else {
        panic!(rt; "no bound set");
    };
    let same = count_same(rt.alloc(), &bound);
    // a call, since a proof would write out the drop of all trees here
    drop(bound);
    assert!(rt; matches!(same, Ok(21)));
    Ok(())
}
