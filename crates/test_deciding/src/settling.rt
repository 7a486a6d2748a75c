// Goals settled by a prover, and rows of kept proofs moved.
use crate::helpers::{Liar, zero};
use helper_box::{Helper, Table};
use job_pool::Evidence;
use outside::{Keeper, MemKeeper, QuietGate, Text};
use proof_store::{Goal, Prover, Settings, Settled, StoreFault, migrate};
use proof_store_records::{fits_version_1, read_steps, write_steps_1};
use set_tree::Line;
use std::alloc::{AllocError, Global};
use std::process::Abort;
use std::test::Fail;
use std::thread::Threads;
use word_core::Word;
use word_dag::{Node, Ob, Op, text};

// A word is less than another one and also greater.
fn between(alloc: Global) -> Result<Ob, AllocError> {
    let mut nodes = Vec::new(alloc);
    nodes.push(Node::Free {
        name: Text::copy(alloc, b"a")?,
        width: 4,
        side: 0,
        cycle: 0,
    })?;
    nodes.push(Node::Free {
        name: Text::copy(alloc, b"b")?,
        width: 4,
        side: 0,
        cycle: 0,
    })?;
    nodes.push(Node::Two {
        op: Op::Ult,
        width: 1,
        a: 0,
        b: 1,
    })?;
    nodes.push(Node::Two {
        op: Op::Ult,
        width: 1,
        a: 1,
        b: 0,
    })?;
    nodes.push(Node::Two {
        op: Op::And,
        width: 1,
        a: 2,
        b: 3,
    })?;
    Ok(Ob::new(nodes, 4))
}

// A word is 5.
fn five(alloc: Global) -> Result<Ob, AllocError> {
    let mut nodes = Vec::new(alloc);
    nodes.push(Node::Free {
        name: Text::copy(alloc, b"x")?,
        width: 4,
        side: 0,
        cycle: 0,
    })?;
    nodes.push(Node::Const(Word::new(4, 5)))?;
    nodes.push(Node::Two {
        op: Op::Eq,
        width: 1,
        a: 0,
        b: 1,
    })?;
    Ok(Ob::new(nodes, 2))
}

// What an obligation's end is shown by.
#[derive(Clone, Copy, Debug, PartialEq, Eq)]
enum End {
    Derivation,
    Values,
    Chain,
}

fn end_of(evidence: &Evidence) -> End {
    match evidence {
        Evidence::Derivation(_) => End::Derivation,
        Evidence::Values(_) => End::Values,
        Evidence::Chain(_) => End::Chain,
    }
}

// How many are kept, helped and solved, and how many numbers were drawn.
fn counts(settled: &Settled<Line>) -> (u64, u64, u64, usize) {
    (
        settled.kept,
        settled.helped,
        settled.solved,
        settled.draws.len(),
    )
}

// Whether the obligations end so, in their order.
fn end_so(settled: &Settled<Line>, ends: &[End]) -> bool {
    settled.decided.len() == ends.len()
        && settled
            .decided
            .iter()
            .zip(ends.iter())
            .all(|(one, end)| end_of(&one.evidence) == *end)
}

const SETTINGS: Settings = Settings {
    budget: 1_000,
    workers: 2,
};

// Settles at most three goals.
fn settled(
    rt: &(impl Threads + Sync + Abort + AllocGlobal),
    goals: Vec<Goal<Line>>,
    keeper: &mut MemKeeper,
    helpers: &mut Vec<Box<dyn Helper>>,
) -> Result<Settled<Line>, StoreFault> {
    assert!(rt; goals.len() <= 3);
    let mut prover = Prover {
        rt,
        alloc: rt.alloc(),
        settings: SETTINGS,
        keeper,
        helpers,
        gate: &QuietGate,
    };
    prover.settle(goals)
}

// How many are kept, helped and solved, how many numbers are drawn, and the ends.
type Want<'a> = ((u64, u64, u64, usize), &'a [End]);

// Settles goals, and wants what comes of them.
fn settles(
    rt: &(impl Threads + Sync + Abort + AllocGlobal),
    goals: Vec<Goal<Line>>,
    keeper: &mut MemKeeper,
    helpers: &mut Vec<Box<dyn Helper>>,
    want: Want<'_>,
) -> Result<(), Fail> {
    let settled = settled(rt, goals, keeper, helpers)?;
    assert_eq!(rt; counts(&settled), want.0);
    assert!(rt; end_so(&settled, want.1));
    Ok(())
}

const ENDS: &[End] = &[End::Derivation, End::Derivation, End::Values];

// Two goals whose root is never 1, and one whose root is 1 at one value.
fn three(alloc: Global) -> Result<Vec<Goal<Line>>, AllocError> {
    let mut goals = Vec::new(alloc);
    goals.push(Goal {
        line: Line::Reset,
        ob: zero(alloc)?,
    })?;
    goals.push(Goal {
        line: Line::Operation(1),
        ob: between(alloc)?,
    })?;
    goals.push(Goal {
        line: Line::Operation(2),
        ob: five(alloc)?,
    })?;
    Ok(goals)
}

// The row of an obligation gets another first byte.
fn spoil(alloc: Global, keeper: &mut MemKeeper, ob: &Ob) -> Result<(), Fail> {
    let key = text(alloc, ob)?;
    let mut bytes = keeper.proof(alloc, &key)?.ok_or("not kept")?;
    if let Some(first) = bytes.first_mut() {
        *first ^= 1;
    }
    keeper.put_proof(alloc, &key, &bytes)?;
    Ok(())
}

// The second row is damaged before the third turn.
fn settled_again(
    rt: &(impl Threads + Sync + Abort + AllocGlobal),
    keeper: &mut MemKeeper,
    helpers: &mut Vec<Box<dyn Helper>>,
) -> Result<(), Fail> {
    let alloc: Global = rt.alloc();
    settles(rt, three(alloc)?, keeper, helpers, ((0, 0, 3, 5), ENDS))?;
    settles(rt, three(alloc)?, keeper, helpers, ((2, 0, 1, 3), ENDS))?;
    spoil(alloc, keeper, &between(alloc)?)?;
    settles(rt, three(alloc)?, keeper, helpers, ((1, 0, 2, 4), ENDS))?;
    settles(rt, three(alloc)?, keeper, helpers, ((2, 0, 1, 3), ENDS))
}

#[test]
fn proofs_are_kept_and_checked_again(rt: HostRuntime) -> Result<(), Fail> {
    let alloc: Global = rt.alloc();
    let mut keeper = MemKeeper::new(alloc, Vec::new(alloc));
    settled_again(&rt, &mut keeper, &mut Vec::new(alloc))
}

// Settles three goals over an empty keeper, and wants what comes of them and how often the liar was asked by then.
fn helped(
    rt: &(impl Threads + Sync + Abort + AllocGlobal),
    helpers: &mut Vec<Box<dyn Helper>>,
    want: Want<'_>,
    asked: u64,
) -> Result<(), Fail> {
    let alloc: Global = rt.alloc();
    let mut keeper = MemKeeper::new(alloc, Vec::new(alloc));
    settles(rt, three(alloc)?, &mut keeper, helpers, want)?;
    let so_often = helpers
        .first()
        .is_some_and(|helper| helper.offers() == asked);
    assert!(rt; so_often);
    Ok(())
}

fn helped_by_a_table(
    rt: &(impl Threads + Sync + Abort + AllocGlobal),
    helpers: &mut Vec<Box<dyn Helper>>,
) -> Result<(), Fail> {
    let alloc: Global = rt.alloc();
    helpers.push(Box::new(alloc, Liar { offers: 0 })?)?;
    helped(rt, helpers, ((0, 0, 3, 5), ENDS), 3)?;
    helpers.push(Box::new(alloc, Table::new())?)?;
    helped(rt, helpers, ((0, 1, 2, 4), ENDS), 6)?;
    let last = helpers.last().is_some_and(|helper| helper.offers() == 3);
    assert!(rt; last);
    Ok(())
}

#[test]
fn claims_that_pass_count(rt: HostRuntime) -> Result<(), Fail> {
    helped_by_a_table(&rt, &mut Vec::new(rt.alloc()))
}

// Whether the keeper fails where this call of it does.
fn fails(rt: &(impl Threads + Sync + Abort + AllocGlobal), call: u64) -> Result<bool, Fail> {
    let alloc: Global = rt.alloc();
    let mut keeper = MemKeeper::new(alloc, [call].as_slice().to_vec(alloc)?);
    match settled(rt, three(alloc)?, &mut keeper, &mut Vec::new(alloc)) {
        Ok(_) => Ok(false),
        Err(StoreFault::Keeper) => Ok(true),
        Err(StoreFault::Memory) => Err(AllocError)?,
    }
}

// Each of the calls that the keeper gets fails in turn; the first is answered without a fault where no call fails.
#[test]
fn a_keeper_that_fails_is_told(rt: HostRuntime) -> Result<(), Fail> {
    for call in 1..7u64 {
        let failed = fails(&rt, call)?;
        assert!(rt; failed == (call < 6));
    }
    Ok(())
}

// Puts the record of an obligation's proof again as one of version 1.
fn put_first(alloc: Global, keeper: &mut MemKeeper, ob: &Ob) -> Result<(), Fail> {
    let key = text(alloc, ob)?;
    let bytes = keeper.proof(alloc, &key)?.ok_or("not kept")?;
    let steps = read_steps(alloc, &bytes)?.ok_or("no record")?;
    if fits_version_1(&steps) {
        let first = write_steps_1(alloc, &steps)?;
        keeper.put_proof(alloc, &key, &first)?;
    }
    Ok(())
}

// At most so many rows are come to; how many were moved and left, and whether there are more.
const MOVES: &[(u64, (u64, u64, bool))] = &[
    (1, (1, 0, true)),
    (9, (1, 1, false)),
    (2, (0, 2, true)),
];

fn moves(rt: &(impl Abort + AllocGlobal), keeper: &mut MemKeeper) -> Result<(), Fail> {
    for (most, want) in MOVES {
        assert!(rt; 0 < *most);
        let moved = migrate(rt.alloc(), keeper, *most)?;
        assert_eq!(rt; (moved.moved, moved.left, moved.more), *want);
    }
    Ok(())
}

// Settles three goals, moves their rows from the first version, and settles them again.
fn settled_and_moved(
    rt: &(impl Threads + Sync + Abort + AllocGlobal),
    keeper: &mut MemKeeper,
) -> Result<(), Fail> {
    let alloc: Global = rt.alloc();
    let helpers = &mut Vec::new(alloc);
    settles(rt, three(alloc)?, keeper, helpers, ((0, 0, 3, 5), ENDS))?;
    put_first(alloc, keeper, &zero(alloc)?)?;
    put_first(alloc, keeper, &between(alloc)?)?;
    moves(rt, keeper)?;
    settles(rt, three(alloc)?, keeper, helpers, ((2, 0, 1, 3), ENDS))
}

#[test]
fn rows_are_moved(rt: HostRuntime) -> Result<(), Fail> {
    let alloc: Global = rt.alloc();
    settled_and_moved(&rt, &mut MemKeeper::new(alloc, Vec::new(alloc)))
}
