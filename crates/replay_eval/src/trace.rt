// Rows as traces of a set.

ghost use Rattle.std.specs.Prelude.{◌≡◌, ◌^◌, ◌≤◌, not, ◌||◌, nat_eq, nat_lt};
ghost use Rattle.std.specs.List.{list_all, All};
ghost use Rattle.vlog_tree.specs.Valuation.{IsLength};
ghost use Rattle.set_tree.specs.Parts.{is_input};
ghost use Rattle.replay_eval.specs.Traces.{fits_names, agrees, all_agree};

use set_tree::{Name, Role, Rows};

// Whether a value has at most so many bits.
fn fits(width: u8, value: u64) -> bool
    requires { width ≤ 64 }
    ensures { result ≡ nat_lt value (2 ^ width) }
{
    width >= 64 || value < 1u64 << width
}

// Whether a row has a value for each name, of its length.
fn fits_names(names: &[Name], row: &[u64]) -> bool
    requires { All (λ n. IsLength n.width) names.now }
    ensures { result ≡ fits_names names.now row.now }
{
    if names.len() != row.len() {
        return false;
    }
    for i in 0..names.len() {
        if !fits(names[i].width, row[i]) {
            return false;
        }
    }
    true
}

/// Whether rows are a trace of these names.
pub fn is_trace(names: &[Name], rows: &[Rows<u64>]) -> bool
    requires { All (λ n. IsLength n.width) names.now }
    ensures { result ≡ list_all (fits_names names.now) rows.now }
{
    for row in rows {
        if !fits_names(names, row.as_slice()) {
            return false;
        }
    }
    true
}

fn is_input(role: Role) -> bool
    ensures { result ≡ is_input role }
{
    match role {
        Role::Input => true,
        Role::Output | Role::State => false,
    }
}

// Whether a name is no input, or has one value twice.
fn agrees_on(name: &Name, one: u64, other: u64) -> bool
    ensures { result ≡ (not (is_input name.now.role) || nat_eq one other) }
{
    !is_input(name.role) || one == other
}

// Whether the inputs have the same values in two rows.
fn agrees(names: &[Name], one: &[u64], other: &[u64]) -> bool
    ensures { result ≡ agrees names.now one.now other.now }
{
    if names.len() != one.len() || names.len() != other.len() {
        return false;
    }
    for i in 0..names.len() {
        if !agrees_on(&names[i], one[i], other[i]) {
            return false;
        }
    }
    true
}

/// Whether there are as many rows, and in each the inputs have the same values.
pub fn all_agree(names: &[Name], one: &[Rows<u64>], other: &[Rows<u64>]) -> bool
    ensures { result ≡ all_agree names.now one.now other.now }
{
    if one.len() != other.len() {
        return false;
    }
    for i in 0..one.len() {
        if !agrees(names, one[i].as_slice(), other[i].as_slice()) {
            return false;
        }
    }
    true
}
