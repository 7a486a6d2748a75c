// Derivations of LRAT texts.
ghost use Rattle.std.specs.Prelude.{◌≡◌, ◌≤◌, ◌<◌, ◌↔◌, ◌∷◌, ◌++◌, [], List, ℕ, All, AllPairs, IfErr, IfOk, MatchOption, OnOk, true, length, map};
ghost use Rattle.clause_check.specs.declared.formula.Step.{Step};
ghost use Rattle.clause_check.specs.Clauses.{IsClause, IsInRange, negated};
ghost use Rattle.clause_check.specs.Looks.{IsBlank};
ghost use Rattle.clause_check.specs.Derivations.{IsRefutation};
ghost use Rattle.clause_check_texts.specs.Steps.{ComeTo, Follows, last_id};
ghost use Rattle.clause_check_texts.specs.Faults.{IsReadOf, Stands};
ghost use Rattle.clause_check_texts.specs.Reading.{Comes, RefusesStep, StandsAt, fault_at};

use crate::fault::ProofFault;
use crate::follow::{assume, follow, forget};
use crate::ids::clause_numbers;
use crate::line::{Addition, Entry, content_of};
use crate::words::first_line;
use clause_check::{Clause, Cnf, Lit, Step};
use std::alloc::{AllocError, Global};

/// The steps so far, and their IDs.
#[derive(Drop)]
pub struct Past {
    pub ids: Vec<u64>,
    pub steps: Vec<Step>,
}

/// Why a line is refused.
#[derive(Debug, Drop)]
pub enum LineFault {
    /// It is no line of LRAT, or its step's ID isn't above all before it.
    Syntax,
    /// Its step isn't implied.
    Unimplied,
    /// There is no memory.
    Memory,
}

impl From<AllocError> for LineFault {
    ghost use Rattle.std.specs.Prelude.{◌≡◌};
    ghost use Rattle.clause_check_texts.specs.declared.read.LineFault.TheVariants.{Memory};

    ghost from_gives = { λ _ fault. fault ≡ Memory };

    fn from(_error: AllocError) -> LineFault {
        LineFault::Memory
    }
}

impl LineFault {
    // The fault of the line of this number.
    fn at(self, line: u64) -> ProofFault
        ensures { result ≡ fault_at line self }
    {
        match self {
            LineFault::Syntax => ProofFault::Syntax(line),
            LineFault::Unimplied => ProofFault::Unimplied(line),
            LineFault::Memory => ProofFault::Memory,
        }
    }
}

// The clause of the literals that aren't known.
fn clause_of(alloc: Global, known: &[Lit]) -> Result<Clause, AllocError>
    requires { IsClause (map negated known.now) }
    ensures { IfOk result (λ clause. clause ≡ map negated known.now) }
{
    let mut lits = Vec::new(alloc);
    for lit in known {
        lits.push(lit.negated())?;
    }
    Ok(Clause::new(lits))
}

// The step that a line adds, where one follows.
fn step_of(
    alloc: Global,
    cnf: &Cnf,
    past: &Past,
    addition: &Addition,
    values: &mut [Option<bool>],
) -> Result<Option<Step>, AllocError>
    requires room { cnf.now.vars ≤ length values.old }
    requires blank { IsBlank values.old }
    requires in_range { All (λ s. IsInRange cnf.now.vars s.clause) past.now.steps.items }
    requires rising { AllPairs (λ a b. a < b) past.now.ids.items }
    ensures blank { OnOk result (IsBlank values.new) }
    ensures step { IfOk result (λ step. MatchOption step
        ((s : Step) → Follows cnf.now past.now.ids.items past.now.steps.items addition.now.lits.items addition.now.hints.items s → ⊥)
        (Follows cnf.now past.now.ids.items past.now.steps.items addition.now.lits.items addition.now.hints.items)) }
{
    let mut known = Vec::new(alloc);
    let possible = assume(cnf.vars, addition.lits.as_slice(), values, &mut known)?;
    if !possible {
        forget(known.as_slice(), values);
        return Ok(None);
    }
    let clause = clause_of(alloc, known.as_slice())?;
    let inputs = cnf.clauses.len();
    let mut hints = clause_numbers(
        alloc,
        inputs,
        past.ids.as_slice(),
        addition.hints.as_slice(),
    )?;
    let count = follow(
        cnf,
        past.steps.as_slice(),
        hints.as_slice(),
        values,
        &mut known,
    )?;
    forget(known.as_slice(), values);
    match count {
        Some(count) => {
            hints.truncate(count);
            Ok(Some(Step { clause, hints }))
        }
        None => Ok(None),
    }
}

// The last ID.
fn last_id(cnf: &Cnf, ids: &[u64]) -> u64
    ensures { result ≡ last_id (length cnf.now.clauses) ids.now }
{
    match ids.last() {
        Some(id) => *id,
        None => cnf.clauses.len() as u64,
    }
}

// Adds a step behind the others.
fn keep(past: &mut Past, id: u64, step: Step) -> Result<(), AllocError>
    ensures ids { OnOk result (past.new.ids.items ≡ past.old.ids.items ++ id ∷ []) }
    ensures steps { OnOk result (past.new.steps.items ≡ past.old.steps.items ++ step ∷ []) }
{
    past.ids.push(id)?;
    past.steps.push(step)?;
    Ok(())
}

// Takes the step of a line. The answer is whether it has the empty clause.
fn take_step(
    alloc: Global,
    cnf: &Cnf,
    past: &mut Past,
    values: &mut [Option<bool>],
    addition: &Addition,
) -> Result<bool, LineFault>
    requires come { (before : List (List ℕ)) × ComeTo cnf.now before past.old.ids.items past.old.steps.items }
    requires room { cnf.now.vars ≤ length values.old }
    requires blank { IsBlank values.old }
    requires above { last_id (length cnf.now.clauses) past.old.ids.items < addition.now.id }
    ensures blank { OnOk result (IsBlank values.new) }
    ensures step { IfOk result (λ closed. (step : Step) ×
        Follows cnf.now past.old.ids.items past.old.steps.items addition.now.lits.items addition.now.hints.items step
        × (past.new.ids.items ≡ past.old.ids.items ++ addition.now.id ∷ []) × (past.new.steps.items ≡ past.old.steps.items ++ step ∷ []) × ((closed ≡ true) ↔ (step.clause ≡ []))) }
    ensures err { IfErr result (λ fault. RefusesStep cnf.now past.old.ids.items past.old.steps.items addition.now.lits.items addition.now.hints.items fault) }
{
    let Some(step) = step_of(alloc, cnf, past, addition, values)? else {
        return Err(LineFault::Unimplied);
    };
    let closed = step.clause.lits().is_empty();
    keep(past, addition.id, step)?;
    Ok(closed)
}

// Reads a line. The answer is whether it adds the empty clause.
fn read_line(
    alloc: Global,
    cnf: &Cnf,
    past: &mut Past,
    values: &mut [Option<bool>],
    line: &[u8],
) -> Result<bool, LineFault>
    requires come { (before : List (List ℕ)) × ComeTo cnf.now before past.old.ids.items past.old.steps.items }
    requires room { cnf.now.vars ≤ length values.old }
    requires blank { IsBlank values.old }
    ensures blank { OnOk result (IsBlank values.new) }
    ensures step { IfOk result (λ closed. Comes cnf.now past.old.ids.items past.old.steps.items line.now closed past.new.ids.items past.new.steps.items) }
    ensures err { IfErr result (StandsAt cnf.now past.old.ids.items past.old.steps.items line.now) }
{
    match content_of(alloc, line)? {
        None => Err(LineFault::Syntax),
        Some(Entry::Nothing) => Ok(false),
        Some(Entry::Addition(addition)) => {
            if addition.id <= last_id(cnf, past.ids.as_slice()) {
                return Err(LineFault::Syntax);
            }
            take_step(alloc, cnf, past, values, &addition)
        }
    }
}

// The steps of a text that isn't too long.
fn read_lines(
    alloc: Global,
    cnf: &Cnf,
    values: &mut [Option<bool>],
    text: &[u8],
) -> Result<Vec<Step>, ProofFault>
    requires room { cnf.now.vars ≤ length values.old }
    requires blank { IsBlank values.old }
    requires short { length text.now ≤ 67108864 }
    ensures ok { IfOk result (λ steps. IsRefutation cnf.now steps.items) }
    ensures read { IfOk result (λ steps. IsReadOf cnf.now text.now steps.items) }
    ensures err { IfErr result (Stands cnf.now text.now) }
{
    let mut past = Past {
        ids: Vec::new(alloc),
        steps: Vec::new(alloc),
    };
    let mut left = Some(text);
    let mut number: u64 = 0;
    while let Some(rest) = left {
        let split = first_line(rest);
        number += 1;
        match read_line(alloc, cnf, &mut past, values, split.front) {
            Ok(true) => return Ok(past.steps),
            Ok(false) => left = split.left,
            Err(fault) => return Err(fault.at(number)),
        }
    }
    Err(ProofFault::Open)
}

/// The steps of a text of LRAT, up to the first that has the empty clause: a refutation of the formula, whoever wrote
/// the text.
///
/// The text is lines between line feeds, and a line is words between blanks (spaces, tabs and carriage returns). Lines
/// with no word and lines that begin with `c` are skipped. A step is `ID LIT.. 0 HINT.. 0`, and a deletion `ID d ID..
/// 0`, which is skipped as well: later hints may still name the clause. Numbers are decimal and below 2^60. The input
/// clauses have the IDs from 1, and the ID of a step is above all before it. A step has each literal once, and its
/// hints up to the first whose clause is false.
///
/// It takes time linear in the text and in the literals of the clauses that hints name, and for each hint the logarithm
/// of the number of steps. `Long`: the text has more than 67,108,864 bytes. `Syntax` and `Unimplied` name the first
/// line that is refused: it is no line of LRAT, or no step with its literals and the first of its hints follows, as
/// where a hint is negative or names no clause, where a variable isn't one of the formula's, or stands there with both
/// signs. `Open`: the text ends before the empty clause. `Memory` can come at any of them.
pub fn read_proof(alloc: Global, cnf: &Cnf, text: &[u8]) -> Result<Vec<Step>, ProofFault>
    ensures ok { IfOk result (λ steps. IsRefutation cnf.now steps.items) }
    ensures read { IfOk result (λ steps. IsReadOf cnf.now text.now steps.items) }
    ensures err { IfErr result (Stands cnf.now text.now) }
{
    if text.len() > 67_108_864 {
        return Err(ProofFault::Long);
    }
    let mut values = vec![in alloc; None; cnf.vars as usize]?;
    read_lines(alloc, cnf, values.as_mut_slice(), text)
}
