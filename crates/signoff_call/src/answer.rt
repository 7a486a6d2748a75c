// What a run answers.
ghost use Rattle.std.specs.Prelude.{◌≡◌, ◌≢◌, ◌++◌, IfOk, if◌then◌else◌};
ghost use Rattle.std.specs.List.{list_any};
ghost use Rattle.desk_core_faults.specs.Texts.{fault_line, status_of};
ghost use Rattle.desk_core_faults.specs.declared.fault.CheckFault.TheVariants.{Memory};
ghost use Rattle.signoff_call.specs.Answers.{done, is_refuted, is_spent, meet_status, met as met_of, refusal as refusal_of, reported, status_from};
ghost use Rattle.desk_core_reports.specs.Lines.{is_proved};

use desk_core_faults::{CheckFault, fault_line, status_of};
use desk_core_reports::{Report, Verdict};
use outside::Text;
use std::alloc::{AllocError, Global};

/// A status, the bytes that go out with it, and whether they are a report.
#[derive(Drop)]
pub struct Answer {
    pub status: u8,
    pub bytes: Text,
    pub reports: bool,
}

/// Whether a line is refuted.
pub fn is_refuted(verdict: Verdict) -> bool
    ensures { result ≡ is_refuted verdict }
{
    match verdict {
        Verdict::Proved => false,
        Verdict::Refuted => true,
        Verdict::Spent => false,
    }
}

/// Whether the budget was spent on a line.
pub fn is_spent(verdict: Verdict) -> bool
    ensures { result ≡ is_spent verdict }
{
    match verdict {
        Verdict::Proved => false,
        Verdict::Refuted => false,
        Verdict::Spent => true,
    }
}

// Whether a line is refuted.
fn has_refuted(verdicts: &[Verdict]) -> bool
    ensures { result ≡ list_any is_refuted verdicts.now }
{
    verdicts.iter().any(|verdict| is_refuted(*verdict))
}

// Whether the budget was spent on a line.
fn has_spent(verdicts: &[Verdict]) -> bool
    ensures { result ≡ list_any is_spent verdicts.now }
{
    verdicts.iter().any(|verdict| is_spent(*verdict))
}

// 1 where a line fails, else 10 where the budget was spent on one, else 0.
fn worst(fails: bool, verdicts: &[Verdict]) -> u8
    ensures { result ≡ if fails then 1 else if list_any is_spent verdicts.now then 10 else 0 }
{
    if fails {
        1
    } else if has_spent(verdicts) {
        10
    } else {
        0
    }
}

fn status_from(verdicts: &[Verdict]) -> u8
    ensures { result ≡ status_from verdicts.now }
{
    worst(has_refuted(verdicts), verdicts)
}

/// What is said of a report, with its status.
pub fn reported(verdicts: &[Verdict], bytes: Text) -> Answer
    ensures { result ≡ reported verdicts.now bytes }
{
    Answer {
        status: status_from(verdicts),
        bytes,
        reports: true,
    }
}

// Whether a line is proved.
fn is_proved(verdict: Verdict) -> bool
    ensures { result ≡ is_proved verdict }
{
    match verdict {
        Verdict::Proved => true,
        Verdict::Refuted => false,
        Verdict::Spent => false,
    }
}

// A line that is proved is met by nothing.
fn has_proved(verdicts: &[Verdict]) -> bool
    ensures { result ≡ list_any is_proved verdicts.now }
{
    verdicts.iter().any(|verdict| is_proved(*verdict))
}

fn meet_status(verdicts: &[Verdict]) -> u8
    ensures { result ≡ meet_status verdicts.now }
{
    worst(has_proved(verdicts), verdicts)
}

/// What is said of what can be met.
pub fn met(report: Report) -> Answer
    ensures { result ≡ met_of report }
{
    Answer {
        status: meet_status(&report.verdicts),
        bytes: report.text,
        reports: true,
    }
}

/// All was done, and this is said.
pub fn done(bytes: Text) -> Answer
    ensures { result ≡ done bytes }
{
    Answer {
        status: 0,
        bytes,
        reports: true,
    }
}

/// A line that says why, and the name of what it is about.
pub fn refusal(alloc: Global, status: u8, line: &[u8], name: &[u8]) -> Result<Answer, AllocError>
    ensures { IfOk result (λ a. a ≡ refusal_of status (line.now ++ name.now)) }
{
    let mut bytes = line.to_vec(alloc)?;
    bytes.extend_from_slice(name)?;
    bytes.push(10)?;
    Ok(Answer {
        status,
        bytes: Text::new(bytes),
        reports: false,
    })
}

// The line of a fault, with its status.
fn refused(alloc: Global, fault: &CheckFault) -> Result<Answer, AllocError>
    ensures { IfOk result (λ a. a ≡ refusal_of (status_of fault.now) (fault_line fault.now)) }
{
    let line = fault_line(alloc, fault)?;
    refusal(alloc, status_of(fault), line.bytes(), b"")
}

/// The answer where a stage refuses; running out of memory is none.
pub fn turned_down(alloc: Global, fault: CheckFault) -> Result<Answer, AllocError>
    ensures memory { IfOk result (λ _. fault ≢ Memory) }
    ensures line { IfOk result (λ a. a ≡ refusal_of (status_of fault) (fault_line fault)) }
{
    if let CheckFault::Memory = fault {
        return Err(AllocError);
    }
    let answer = refused(alloc, &fault);
    drop(fault);
    answer
}
