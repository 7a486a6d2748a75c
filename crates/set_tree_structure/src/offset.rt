// The offsets that formulas read.

ghost use Rattle.std.specs.Prelude.{◌≡◌, ℕ, ◌&&◌, not, true, false};
ghost use Rattle.set_tree.specs.Formulas.{largest_offset};
ghost use Rattle.set_tree_structure.specs.Tests.{reads_within, all_read_within, reads_ahead, keeps_window};

use set_tree::Property;
use vlog_tree::Expr;

/// The largest offset of the names in a formula, 0 where it names nothing.
pub fn largest(formula: &Expr) -> u32
    ensures { result ≡ largest_offset formula.now }
{
    match formula {
        Expr::Number(_) => 0,
        Expr::Name(name) => name.offset,
        Expr::Select(name, a) => name.offset.max(largest(a.get())),
        Expr::Part(name, _, a, b) => name.offset.max(largest(a.get()).max(largest(b.get()))),
        Expr::ConstantSelect(_, a) => largest(a.get()),
        Expr::ConstantPart(_, _, a, b) => largest(a.get()).max(largest(b.get())),
        Expr::Cast(_, a) => largest(a.get()),
        Expr::Paren(a) => largest(a.get()),
        Expr::Unary(_, a) => largest(a.get()),
        Expr::Binary(_, a, b) => largest(a.get()).max(largest(b.get())),
        Expr::Choice(condition, a, b) => {
            largest(condition.get()).max(largest(a.get()).max(largest(b.get())))
        }
        Expr::Concat(parts) => {
            let mut most = 0;
            for part in parts.as_slice() {
                most = most.max(largest(part));
            }
            most
        }
        Expr::Repeat(count, parts) => {
            let mut most = largest(count.get());
            for part in parts.as_slice() {
                most = most.max(largest(part));
            }
            most
        }
    }
}

/// Whether a formula reads no offset above a window.
pub fn reads_within(window: u32, formula: &Expr) -> bool
    ensures { result ≡ reads_within window formula.now }
{
    largest(formula) <= window
}

fn all_read_within(window: u32, formulas: &[Expr]) -> bool
    ensures { result ≡ all_read_within window formulas.now }
{
    for formula in formulas {
        if !reads_within(window, formula) {
            return false;
        }
    }
    true
}

/// Whether a condition that may be there reads a later row than the present one.
pub fn reads_ahead(condition: &Option<Expr>) -> bool
    ensures { result ≡ reads_ahead condition.now }
{
    match condition {
        None => false,
        Some(formula) => !reads_within(0, formula),
    }
}

/// Whether the formulas of a property read no offset above its window, and the condition at which it ends none above 0.
pub fn keeps_window(property: &Property) -> bool
    ensures { result ≡ keeps_window property.now }
{
    let window = u32::from(property.window);
    all_read_within(window, property.assume.as_slice())
        && all_read_within(window, property.commit.as_slice())
        && all_read_within(window, property.hand.as_slice())
        && !reads_ahead(&property.length.until)
}
