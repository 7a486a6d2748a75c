// Counts within one another: numbers of part-selects and counts of replications that have such numbers in them. Each
// says how long an expression is, so that one is taken anew for each that it stands in.

use vlog_tree::Expr;

// Whether a part-select or a replication stands in an expression.
#[cycle(finding)]
fn has_count(expr: &Expr) -> bool {
    match expr {
        Expr::Number(_) | Expr::Name(_) => false,
        Expr::Part(_, _, _, _) | Expr::ConstantPart(_, _, _, _) | Expr::Repeat(_, _) => true,
        Expr::Select(_, a) => has_count(a.get()),
        Expr::ConstantSelect(_, a) => has_count(a.get()),
        Expr::Cast(_, a) => has_count(a.get()),
        Expr::Paren(a) => has_count(a.get()),
        Expr::Unary(_, a) => has_count(a.get()),
        Expr::Binary(_, a, b) => has_count(a.get()) || has_count(b.get()),
        Expr::Choice(c, a, b) => has_count(c.get()) || has_count(a.get()) || has_count(b.get()),
        Expr::Concat(items) => any_has_count(items.as_slice()),
    }
}

#[cycle(finding)]
fn any_has_count(exprs: &[Expr]) -> bool {
    for expr in exprs {
        if has_count(expr) {
            return true;
        }
    }
    false
}

/// Whether such a number of an expression has such a number in it.
#[cycle(nesting)]
pub fn nests_counts(expr: &Expr) -> bool {
    match expr {
        Expr::Number(_) | Expr::Name(_) => false,
        Expr::Part(_, _, a, b) => has_count(a.get()) || has_count(b.get()),
        Expr::ConstantPart(_, _, a, b) => has_count(a.get()) || has_count(b.get()),
        Expr::Repeat(count, items) => has_count(count.get()) || any_nests_counts(items.as_slice()),
        Expr::Select(_, a) => nests_counts(a.get()),
        Expr::ConstantSelect(_, a) => nests_counts(a.get()),
        Expr::Cast(_, a) => nests_counts(a.get()),
        Expr::Paren(a) => nests_counts(a.get()),
        Expr::Unary(_, a) => nests_counts(a.get()),
        Expr::Binary(_, a, b) => nests_counts(a.get()) || nests_counts(b.get()),
        Expr::Choice(c, a, b) => {
            nests_counts(c.get()) || nests_counts(a.get()) || nests_counts(b.get())
        }
        Expr::Concat(items) => any_nests_counts(items.as_slice()),
    }
}

#[cycle(nesting)]
fn any_nests_counts(exprs: &[Expr]) -> bool {
    for expr in exprs {
        if nests_counts(expr) {
            return true;
        }
    }
    false
}
