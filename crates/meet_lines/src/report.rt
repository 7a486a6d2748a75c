// The report of what can be met.
ghost use Rattle.std.specs.Prelude.{◌≡◌, ◌++◌, IfOk, OnOk, None, map, option_map};
ghost use Rattle.std.specs.List.{flat_map};
ghost use Rattle.meet_lines.specs.Meetings.{all_met, is_complete, is_met, last_line, line_text, meet_text, meet_word, shown_line};

use desk_core_reports::{Line, Report, Verdict};
use outside::Text;
use replay::shown_text;
use std::alloc::{AllocError, Global};

fn is_met(verdict: Verdict) -> bool
    ensures { result ≡ is_met verdict }
{
    match verdict {
        Verdict::Proved => false,
        Verdict::Refuted => true,
        Verdict::Spent => false,
    }
}

fn all_met(lines: &[Line]) -> bool
    ensures { result ≡ all_met lines.now }
{
    lines.iter().all(|line| is_met(line.verdict))
}

// A line's obligation is refuted by the values of a segment that meets the line.
fn meet_word(verdict: Verdict) -> &'static [u8]
    ensures { result.now ≡ meet_word verdict }
{
    match verdict {
        Verdict::Proved => b"unmet",
        Verdict::Refuted => b"met",
        Verdict::Spent => b"spent",
    }
}

fn last_line(lines: &[Line]) -> &'static [u8]
    ensures { result.now ≡ last_line lines.now }
{
    if all_met(lines) {
        b"all met\n"
    } else {
        b"not all met\n"
    }
}

fn add_line(text: &mut Vec<u8>, line: &Line) -> Result<(), AllocError>
    ensures { OnOk result (text.new.items ≡ text.old.items ++ line_text line.now) }
{
    text.extend_from_slice(meet_word(line.verdict))?;
    text.push(b' ')?;
    text.extend_from_slice(line.name.bytes())?;
    text.push(b'\n')?;
    Ok(())
}

// A line, and the segment that is shown of it.
fn add_shown(alloc: Global, text: &mut Vec<u8>, line: &Line) -> Result<(), AllocError>
    ensures { OnOk result (text.new.items ≡ text.old.items ++ shown_line line.now) }
{
    add_line(text, line)?;
    if let Some(shown) = &line.trace {
        text.extend_from_slice(shown_text(alloc, shown)?.bytes())?;
    }
    Ok(())
}

// All lines, and what they come to.
fn all_text(alloc: Global, lines: &[Line]) -> Result<Vec<u8>, AllocError>
    ensures { IfOk result (λ text. text.items ≡ meet_text None lines.now) }
{
    let mut text = Vec::new(alloc);
    for line in lines {
        add_line(&mut text, line)?;
    }
    text.extend_from_slice(last_line(lines))?;
    Ok(text)
}

// The line of a name, with its segment.
fn one_text(alloc: Global, lines: &[Line]) -> Result<Vec<u8>, AllocError>
    ensures { IfOk result (λ text. text.items ≡ flat_map shown_line lines.now) }
{
    let mut text = Vec::new(alloc);
    for line in lines {
        add_shown(alloc, &mut text, line)?;
    }
    Ok(text)
}

fn verdicts(alloc: Global, lines: &[Line]) -> Result<Vec<Verdict>, AllocError>
    ensures { IfOk result (λ vs. vs.items ≡ map (λ l. l.verdict) lines.now) }
{
    let mut all = Vec::with_capacity(alloc, lines.len())?;
    for line in lines {
        all.push(line.verdict)?;
    }
    Ok(all)
}

/// The report of lines that were asked for: all, or the one of a name.
pub(crate) fn report_of(
    alloc: Global,
    name: Option<&Text>,
    lines: &[Line],
) -> Result<Report, AllocError>
    ensures text { IfOk result (λ r. r.text ≡ meet_text (option_map (λ n. n.now) name.entry) lines.now) }
    ensures verdicts { IfOk result (λ r. r.verdicts.items ≡ map (λ l. l.verdict) lines.now) }
    ensures complete { IfOk result (λ r. r.complete ≡ is_complete (option_map (λ n. n.now) name.entry) lines.now) }
{
    let text = match name {
        None => all_text(alloc, lines)?,
        Some(_) => one_text(alloc, lines)?,
    };
    Ok(Report {
        text: Text::new(text),
        verdicts: verdicts(alloc, lines)?,
        complete: name.is_none() && all_met(lines),
    })
}
