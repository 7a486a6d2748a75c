// Names in expressions that stand for no parameter.

ghost use Rattle.std.specs.Prelude.{◌≡◌, ◌∷◌, [], not};
ghost use Rattle.std.specs.List.{find, flat_map};
ghost use Rattle.std.specs.Option.{option_copied};
ghost use Rattle.elab_flat_faults.specs.Texts.{names_in};
ghost use Rattle.elab_flat_params.specs.Constants.{is_known, is_strange};

use outside::Text;
use vlog_tree::{Expr, Valuation};

fn is_known(name: &Text, params: &Valuation) -> bool
    ensures { result ≡ is_known params.now name.now }
{
    params.find(name.bytes(), 0).is_some()
}

// The name itself, where it stands for no parameter.
fn itself<'a>(name: &'a Text, params: &Valuation) -> Option<&'a Text>
    ensures { option_copied result ≡ find (is_strange params.now) (name.now ∷ []) }
{
    if is_known(name, params) {
        None
    } else {
        Some(name)
    }
}

/// The first name in an expression that stands for none of these parameters.
#[cycle(strangers)]
pub fn stranger_in<'a>(expr: &'a Expr, params: &Valuation) -> Option<&'a Text>
    ensures { option_copied result ≡ find (is_strange params.now) (names_in expr.now) }
{
    match expr {
        Expr::Number(_) => None,
        Expr::Name(name) => itself(&name.text, params),
        Expr::Select(name, index) => itself(&name.text, params).or(stranger_in(
            index.get(),
            params,
        )),
        Expr::Part(name, _, a, b) => itself(&name.text, params).or(stranger_in(a.get(), params).or(
            stranger_in(b.get(), params),
        )),
        Expr::ConstantSelect(_, index) => stranger_in(index.get(), params),
        Expr::ConstantPart(_, _, a, b) => stranger_in(a.get(), params).or(stranger_in(
            b.get(),
            params,
        )),
        Expr::Cast(_, inner) => stranger_in(inner.get(), params),
        Expr::Paren(inner) => stranger_in(inner.get(), params),
        Expr::Concat(parts) => stranger_among(parts.as_slice(), params),
        Expr::Repeat(count, parts) => {
            stranger_in(count.get(), params).or(stranger_among(parts.as_slice(), params))
        }
        Expr::Unary(_, a) => stranger_in(a.get(), params),
        Expr::Binary(_, a, b) => stranger_in(a.get(), params).or(stranger_in(b.get(), params)),
        Expr::Choice(condition, a, b) => stranger_in(condition.get(), params).or(stranger_in(
            a.get(),
            params,
        ).or(stranger_in(b.get(), params))),
    }
}

// The first such name in some expressions.
#[cycle(strangers)]
fn stranger_among<'a>(exprs: &'a [Expr], params: &Valuation) -> Option<&'a Text>
    ensures { option_copied result ≡ find (is_strange params.now) (flat_map names_in exprs.now) }
{
    for expr in exprs {
        if let Some(name) = stranger_in(expr, params) {
            return Some(name);
        }
    }
    None
}
