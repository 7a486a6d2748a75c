// The text of a report.
ghost use Rattle.std.specs.Prelude.{◌≡◌, ◌++◌, map, IfOk, OnOk};
ghost use Rattle.std.specs.List.{flat_map};
ghost use Rattle.desk_core_reports.specs.Lines.{all_proved, is_proved};
ghost use Rattle.desk_core_reports.specs.Reports.{is_all, is_complete, last_line, line_text, report_text, verdict_word};

use crate::book::{Line, Verdict};
use desk_core_commands::Which;
use outside::Text;
use std::alloc::{AllocError, Global};

/// A report: its text, the verdicts of its lines, and whether all lines were asked for and proved.
#[derive(Drop)]
pub struct Report {
    pub text: Text,
    pub verdicts: Vec<Verdict>,
    pub complete: bool,
}

fn is_proved(verdict: Verdict) -> bool
    ensures { result ≡ is_proved verdict }
{
    match verdict {
        Verdict::Proved => true,
        Verdict::Refuted => false,
        Verdict::Spent => false,
    }
}

/// Whether each line is proved.
pub fn all_proved(lines: &[Line]) -> bool
    ensures { result ≡ all_proved lines.now }
{
    lines.iter().all(|line| is_proved(line.verdict))
}

fn verdict_word(verdict: Verdict) -> &'static [u8]
    ensures { result.now ≡ verdict_word verdict }
{
    match verdict {
        Verdict::Proved => b"proved ",
        Verdict::Refuted => b"refuted ",
        Verdict::Spent => b"spent ",
    }
}

fn last_line(which: &Which, all: bool) -> &'static [u8]
    ensures { result.now ≡ last_line which.now all }
{
    match which {
        Which::Ops => if all {
            b"satisfied\n"
        } else {
            b"not satisfied\n"
        },
        Which::All => if all {
            b"signed off\n"
        } else {
            b"not signed off\n"
        },
        Which::One(_) | Which::Least(_) => b"",
    }
}

fn add_line(text: &mut Vec<u8>, line: &Line) -> Result<(), AllocError>
    ensures { OnOk result (text.new.items ≡ text.old.items ++ line_text line.now) }
{
    text.extend_from_slice(verdict_word(line.verdict))?;
    text.extend_from_slice(line.name.bytes())?;
    text.push(b'\n')?;
    Ok(())
}

fn report_text(alloc: Global, which: &Which, lines: &[Line]) -> Result<Text, AllocError>
    ensures { IfOk result (λ text. text ≡ report_text which.now lines.now) }
{
    let mut text = Vec::new(alloc);
    for line in lines {
        add_line(&mut text, line)?;
    }
    text.extend_from_slice(last_line(which, all_proved(lines)))?;
    Ok(Text::new(text))
}

fn verdicts(alloc: Global, lines: &[Line]) -> Result<Vec<Verdict>, AllocError>
    ensures { IfOk result (λ vs. vs.items ≡ map (λ l. l.verdict) lines.now) }
{
    let mut all = Vec::with_capacity(alloc, lines.len())?;
    for line in lines {
        all.push(line.verdict)?;
    }
    Ok(all)
}

fn is_all(which: &Which) -> bool
    ensures { result ≡ is_all which.now }
{
    match which {
        Which::Ops => false,
        Which::All => true,
        Which::One(_) | Which::Least(_) => false,
    }
}

/// The report of lines that were asked for.
pub fn report_of(alloc: Global, which: &Which, lines: &[Line]) -> Result<Report, AllocError>
    ensures text { IfOk result (λ r. r.text ≡ report_text which.now lines.now) }
    ensures verdicts { IfOk result (λ r. r.verdicts.items ≡ map (λ l. l.verdict) lines.now) }
    ensures complete { IfOk result (λ r. r.complete ≡ is_complete which.now lines.now) }
{
    Ok(Report {
        text: report_text(alloc, which, lines)?,
        verdicts: verdicts(alloc, lines)?,
        complete: is_all(which) && all_proved(lines),
    })
}
