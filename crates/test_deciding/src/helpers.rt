use clause_check::{Cnf, Step};
use cnf_build::build;
use helper_box::{Claim, Claims, Helper, Sampler, Table, Units, offer_all};
use outside::Text;
use std::alloc::{AllocError, Global};
use std::process::Abort;
use std::test::Fail;
use word_core::Word;
use word_dag::{Node, Ob, Op};

/// Claims of everything that no values make its root 1.
#[derive(Drop)]
pub struct Liar {
    pub offers: u64,
}

impl Claims for Liar {}

impl Helper for Liar {
    ghost asked = { λ s. s.offers };

    fn offer(&mut self, alloc: Global, _ob: &Ob, _cnf: &Cnf) -> Result<Claim, AllocError> {
        self.offers = self.offers.saturating_add(1);
        let steps: Vec<Step> = Vec::new(alloc);
        Ok(Claim::Unsat(steps))
    }

    fn count(&mut self) -> bool {
        false
    }

    fn offers(&self) -> u64 {
        self.offers
    }
}

// Whether a free word is this one: 1 at one value alone.
fn is_word(alloc: Global, word: Word) -> Result<Ob, AllocError> {
    let mut nodes = Vec::new(alloc);
    nodes.push(Node::Free {
        name: Text::copy(alloc, b"x")?,
        width: word.width(),
        side: 0,
        cycle: 0,
    })?;
    nodes.push(Node::Const(word))?;
    nodes.push(Node::Two {
        op: Op::Eq,
        width: 1,
        a: 0,
        b: 1,
    })?;
    Ok(Ob::new(nodes, 2))
}

/// An obligation whose root is never 1.
pub fn zero(alloc: Global) -> Result<Ob, AllocError> {
    let mut nodes = Vec::new(alloc);
    nodes.push(Node::Const(Word::new(1, 0)))?;
    Ok(Ob::new(nodes, 0))
}

// A liar, who is asked first, and the three helpers of the program.
fn add_helpers(alloc: Global, all: &mut Vec<Box<dyn Helper>>) -> Result<(), AllocError> {
    all.push(Box::new(alloc, Liar { offers: 0 })?)?;
    all.push(Box::new(alloc, Sampler::new(1, 1_000))?)?;
    all.push(Box::new(alloc, Table::new())?)?;
    all.push(Box::new(alloc, Units::new())?)?;
    Ok(())
}

// What is claimed: the value of the one free word, that there are none, or nothing.
#[derive(Clone, Copy, Debug, PartialEq, Eq)]
enum Claimed {
    Value(u64),
    Unsat,
    Nothing,
}

fn kind_of(claim: &Claim) -> Claimed {
    match claim {
        Claim::Values(values) => Claimed::Value(values.first().copied().unwrap_or(0)),
        Claim::Unsat(_) => Claimed::Unsat,
        Claim::Nothing => Claimed::Nothing,
    }
}

// What is claimed of an obligation, where each helper was asked so often by then.
fn offered(
    alloc: Global,
    ob: &Ob,
    helpers: &mut Vec<Box<dyn Helper>>,
    asked: [u64; 4],
) -> Result<Option<Claimed>, AllocError> {
    let built = build(alloc, ob)?;
    let claim = offer_all(helpers, alloc, ob, &built.cnf)?;
    let so_often = helpers
        .iter()
        .zip(asked.iter())
        .all(|(helper, count)| helper.offers() == *count);
    Ok(if so_often {
        Some(kind_of(&claim))
    } else {
        None
    })
}

// Wants this claim, and that each helper was asked so often.
fn claims(
    rt: &(impl Abort + AllocGlobal),
    ob: &Ob,
    asked: [u64; 4],
    want: Claimed,
) -> Result<(), Fail> {
    let mut helpers: Vec<Box<dyn Helper>> = Vec::new(rt.alloc());
    add_helpers(rt.alloc(), &mut helpers)?;
    let claim = offered(rt.alloc(), ob, &mut helpers, asked)?;
    assert_eq!(rt; claim, Some(want));
    Ok(())
}

#[test]
fn the_first_claim_that_passes_is_taken(rt: HostRuntime) -> Result<(), Fail> {
    // The sampler finds a value of one bit, the table the one value of twelve bits, and nobody that of forty.
    for (word, asked, want) in [
        (Word::new(1, 1), [1, 1, 0, 0], Claimed::Value(1)),
        (Word::new(12, 2_741), [1, 1, 1, 0], Claimed::Value(2_741)),
        (Word::new(40, 5), [1, 1, 1, 1], Claimed::Nothing),
    ] {
        let ob = is_word(rt.alloc(), word)?;
        claims(&rt, &ob, asked, want)?;
    }
    // Propagation alone refutes a constant 0.
    claims(&rt, &zero(rt.alloc())?, [1, 1, 1, 1], Claimed::Unsat)
}
