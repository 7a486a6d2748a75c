// Values of signals.

ghost use Rattle.std.specs.Prelude.{◌≡◌, ◌≤◌, ◌^◌, ◌↔◌, nat_lt, IsTrue};
ghost use Rattle.std.specs.List.{All};
ghost use Rattle.elab_step_nets.specs.Asked.{CanElaborate};
ghost use Rattle.test_judges.specs.Values.{AreValues, all_fit};

use vlog_tree_runs::{Flat, Signal};

// Whether a value has at most as many bits as its signal.
fn fits(signal: &Signal, value: u64) -> bool
    requires { signal.now.width ≤ 64 }
    ensures { result ≡ nat_lt value (2 ^ signal.now.width) }
{
    u128::from(value) < 1 << signal.width
}

fn all_fit(signals: &[Signal], values: &[u64]) -> bool
    requires { All (λ g. g.width ≤ 64) signals.now }
    ensures { result ≡ all_fit signals.now values.now }
{
    if signals.len() != values.len() {
        return false;
    }
    for i in 0..signals.len() {
        if !fits(&signals[i], values[i]) {
            return false;
        }
    }
    true
}

/// Whether there is one value for each signal of a module, of its length.
pub fn are_values(flat: &Flat, values: &[u64]) -> bool
    requires { CanElaborate flat.now }
    ensures { IsTrue result ↔ AreValues flat.now.signals values.now }
{
    all_fit(flat.signals.as_slice(), values)
}
