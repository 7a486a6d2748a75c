// The names in formulas.
ghost use Rattle.std.specs.Prelude.{◌≡◌, ◌∷◌, [], not};
ghost use Rattle.std.specs.List.{find, list_any, flat_map};
ghost use Rattle.std.specs.Option.{option_copied};
ghost use Rattle.set_read_lookup.specs.Faults.{names_in, is_declared, is_wanted};

use set_tree::Declaration;
use vlog_tree::{Expr, Name};

/// What is looked for in formulas: a name that isn't declared, one with an offset above a bound, or any name.
#[derive(Drop)]
pub enum Wanted<'a> {
    Undeclared(&'a [Declaration]),
    Beyond(u32),
    Any,
}

/// Whether a name is declared.
pub fn is_declared(declarations: &[Declaration], name: &[u8]) -> bool
    ensures { result ≡ is_declared declarations.now name.now }
{
    for declaration in declarations {
        if declaration.name.bytes() == name {
            return true;
        }
    }
    false
}

fn is_wanted(wanted: &Wanted<'_>, name: &Name) -> bool
    ensures { result ≡ is_wanted wanted.now name.now }
{
    match wanted {
        Wanted::Undeclared(declarations) => !is_declared(declarations, name.text.bytes()),
        Wanted::Beyond(bound) => *bound < name.offset,
        Wanted::Any => true,
    }
}

// The name itself, where it is wanted.
fn itself<'a>(name: &'a Name, wanted: &Wanted<'_>) -> Option<&'a Name>
    ensures { option_copied result ≡ find (is_wanted wanted.now) (name.now ∷ []) }
{
    if is_wanted(wanted, name) {
        Some(name)
    } else {
        None
    }
}

/// The first wanted name in a formula.
#[cycle(names)]
pub fn wanted_in<'a>(expr: &'a Expr, wanted: &Wanted<'_>) -> Option<&'a Name>
    ensures { option_copied result ≡ find (is_wanted wanted.now) (names_in expr.now) }
{
    match expr {
        Expr::Number(_) => None,
        Expr::Name(name) => itself(name, wanted),
        Expr::Select(name, index) => itself(name, wanted).or(wanted_in(index.get(), wanted)),
        Expr::Part(name, _, a, b) => {
            itself(name, wanted).or(wanted_in(a.get(), wanted).or(wanted_in(b.get(), wanted)))
        }
        Expr::ConstantSelect(_, index) => wanted_in(index.get(), wanted),
        Expr::ConstantPart(_, _, a, b) => wanted_in(a.get(), wanted).or(wanted_in(b.get(), wanted)),
        Expr::Cast(_, inner) => wanted_in(inner.get(), wanted),
        Expr::Paren(inner) => wanted_in(inner.get(), wanted),
        Expr::Concat(parts) => wanted_among(parts.as_slice(), wanted),
        Expr::Repeat(count, parts) => {
            wanted_in(count.get(), wanted).or(wanted_among(parts.as_slice(), wanted))
        }
        Expr::Unary(_, a) => wanted_in(a.get(), wanted),
        Expr::Binary(_, a, b) => wanted_in(a.get(), wanted).or(wanted_in(b.get(), wanted)),
        Expr::Choice(condition, a, b) => wanted_in(condition.get(), wanted).or(wanted_in(
            a.get(),
            wanted,
        ).or(wanted_in(b.get(), wanted))),
    }
}

/// The first wanted name in some formulas.
#[cycle(names)]
pub fn wanted_among<'a>(exprs: &'a [Expr], wanted: &Wanted<'_>) -> Option<&'a Name>
    ensures { option_copied result ≡ find (is_wanted wanted.now) (flat_map names_in exprs.now) }
{
    for expr in exprs {
        if let Some(name) = wanted_in(expr, wanted) {
            return Some(name);
        }
    }
    None
}
