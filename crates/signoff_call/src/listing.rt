// The names of lines that aren't decided, and their clauses.
ghost use Rattle.std.specs.Prelude.{◌≡◌, ◌++◌, ◌∷◌, [], List, Option, ℕ, IfOk, OnOk};
ghost use Rattle.std.specs.List.{flat_map};
ghost use Rattle.outside.specs.Tables.{Tables};
ghost use Rattle.set_tree.specs.declared.line.Line.{Line as Lines};
ghost use Rattle.desk_core_reports.specs.declared.book.Book.{Book};
ghost use Rattle.twin_tests_laws.specs.Names.{line_name};
ghost use Rattle.signoff_call.specs.Bound.{ShowsClauses};
ghost use Rattle.signoff_call.specs.Tasks.{AnswersClauses, AnswersLines, names_text, stores};

use crate::answer::{Answer, done, turned_down};
use desk_core::check_fault_of;
use desk_core_goals::{all_lines, clauses_text};
use desk_core_stages::bound_of;
use outside::Text;
use set_tree::{Line, Set};
use std::alloc::{AllocError, Global};
use twin_tests_laws::line_name;
use unroll_binding::Bound;

// Adds the name of a line.
fn add_name(alloc: Global, text: &mut Vec<u8>, set: &Set, line: Line) -> Result<(), AllocError>
    ensures { OnOk result (text.new.items ≡ text.old.items ++ (line_name set.now line ++ 10 ∷ [])) }
{
    let name = line_name(alloc, set, line)?;
    text.extend_from_slice(name.bytes())?;
    text.push(b'\n')?;
    Ok(())
}

// The names of lines.
fn names_of(alloc: Global, set: &Set, lines: &[Line]) -> Result<Text, AllocError>
    ensures { IfOk result (λ text. text ≡ flat_map (λ (line : Lines). line_name set.now line ++ 10 ∷ []) lines.now) }
{
    let mut text = Vec::new(alloc);
    for line in lines {
        add_name(alloc, &mut text, set, *line)?;
    }
    Ok(Text::new(text))
}

// The names of all lines.
fn names_text(alloc: Global, bound: &Bound) -> Result<Text, AllocError>
    ensures { IfOk result (λ text. text ≡ names_text bound.now.set) }
{
    let lines = all_lines(alloc, bound)?;
    names_of(alloc, bound.set().set(), lines.as_slice())
}

/// The names of all lines of two texts, in the order of a report.
pub fn lines_listed(alloc: Global, module: &Text, set: &Text) -> Result<Answer, AllocError>
    ensures answer { IfOk result (λ a. (book : Book) (tables : Option Tables) (asked : List ℕ) → book.lines.items ≡ []
        → AnswersLines «module».now set.now book (stores tables tables asked) a) }
    ensures keeper { IfOk result (λ a. a.status ≡ 8 → ⊥) }
{
    match bound_of(alloc, module.bytes(), set.bytes()) {
        Ok(bound) => {
            let names = names_text(alloc, &bound);
            // a call, since a proof would write out the drop of all trees here
            drop(bound);
            Ok(done(names?))
        }
        Err(fault) => turned_down(alloc, fault),
    }
}

// The clauses of the line of a name of a set that is bound.
fn clauses_shown(alloc: Global, bound: &Bound, name: &Text) -> Result<Answer, AllocError>
    ensures answer { IfOk result (ShowsClauses bound.now name.now) }
    ensures keeper { IfOk result (λ a. a.status ≡ 8 → ⊥) }
{
    match clauses_text(alloc, bound, name) {
        Ok(text) => Ok(done(text)),
        Err(fault) => turned_down(alloc, check_fault_of(fault)),
    }
}

/// The clauses of the line of a name of two texts, in DIMACS.
pub fn clauses_listed(
    alloc: Global,
    module: &Text,
    set: &Text,
    name: &Text,
) -> Result<Answer, AllocError>
    ensures answer { IfOk result (λ a. (book : Book) (tables : Option Tables) (asked : List ℕ) → book.lines.items ≡ []
        → AnswersClauses «module».now set.now name.now book (stores tables tables asked) a) }
    ensures keeper { IfOk result (λ a. a.status ≡ 8 → ⊥) }
{
    match bound_of(alloc, module.bytes(), set.bytes()) {
        Ok(bound) => {
            let answer = clauses_shown(alloc, &bound, name);
            drop(bound);
            answer
        }
        Err(fault) => turned_down(alloc, fault),
    }
}
