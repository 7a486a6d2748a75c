// The first name that fails a test.
ghost use Rattle.std.specs.Prelude.{◌≡◌};
ghost use Rattle.std.specs.List.{find, list_any};
ghost use Rattle.std.specs.Option.{option_copied};
ghost use Rattle.std.specs.Str.{bytes_eq};
ghost use Rattle.unroll_binding.specs.Binding.{net_at, has_width, is_name, same, is_missing, is_other_width, is_input, is_bit_input, is_declared, is_extra, is_clock_or_reset, is_output, fits_role, is_other_role, waits_for_other, is_bad_clock, is_bad_reset, is_other_reset};

use elab_step_design::{Design, Net};
use outside::Text;
use set_tree::{Name, Role, Set};
use vlog_tree_runs::Async;

fn net_at<'a>(nets: &'a [Net], name: &[u8]) -> Option<&'a Net>
    ensures { option_copied result ≡ net_at nets.now name.now }
{
    for net in nets {
        if net.name.bytes() == name {
            return Some(net);
        }
    }
    None
}

fn has_width(net: Option<&Net>, width: u8) -> bool
    ensures { result ≡ has_width (option_copied net.entry) width }
{
    match net {
        Some(net) => net.width == width,
        None => false,
    }
}

fn is_missing(design: &Design, name: &Name) -> bool
    ensures { result ≡ is_missing design.now name.now }
{
    net_at(design.nets(), name.name.bytes()).is_none()
}

fn is_other_width(design: &Design, name: &Name) -> bool
    ensures { result ≡ is_other_width design.now name.now }
{
    let net = net_at(design.nets(), name.name.bytes());
    net.is_some() && !has_width(net, name.width)
}

/// The first declared name that no signal has.
pub fn missing<'a>(design: &Design, names: &'a [Name]) -> Option<&'a Name>
    ensures { option_copied result ≡ find (is_missing design.now) names.now }
{
    for name in names {
        if is_missing(design, name) {
            return Some(name);
        }
    }
    None
}

/// The first declared name whose signal has another length.
pub fn other_width<'a>(design: &Design, names: &'a [Name]) -> Option<&'a Name>
    ensures { option_copied result ≡ find (is_other_width design.now) names.now }
{
    for name in names {
        if is_other_width(design, name) {
            return Some(name);
        }
    }
    None
}

fn is_declared(names: &[Name], name: &[u8]) -> bool
    ensures { result ≡ list_any (λ n. bytes_eq n.name name.now) names.now }
{
    for declared in names {
        if declared.name.bytes() == name {
            return true;
        }
    }
    false
}

fn is_extra(set: &Set, net: &Net) -> bool
    ensures { result ≡ is_extra set.now net.now }
{
    let name = net.name.bytes();
    name != set.clock.bytes()
        && name != set.reset.bytes()
        && !is_declared(set.names.as_slice(), name)
}

/// The first input that is neither the clock nor the reset nor declared.
pub fn extra_input<'a>(set: &Set, inputs: &'a [Net]) -> Option<&'a Net>
    ensures { option_copied result ≡ find (is_extra set.now) inputs.now }
{
    for net in inputs {
        if is_extra(set, net) {
            return Some(net);
        }
    }
    None
}

fn is_input(design: &Design, name: &[u8]) -> bool
    ensures { result ≡ is_input design.now name.now }
{
    net_at(design.inputs(), name).is_some()
}

fn is_bit_input(design: &Design, name: &[u8]) -> bool
    ensures { result ≡ is_bit_input design.now name.now }
{
    has_width(net_at(design.inputs(), name), 1)
}

fn is_name(name: &[u8], clock: Option<&Text>) -> bool
    ensures { result ≡ is_name name.now (option_copied clock.entry) }
{
    match clock {
        Some(clock) => clock.bytes() == name,
        None => false,
    }
}

fn is_clock_or_reset(design: &Design, set: &Set, name: &[u8]) -> bool
    ensures { result ≡ is_clock_or_reset design.now set.now name.now }
{
    is_name(name, design.clock()) || set.reset.bytes() == name
}

fn is_output(outputs: &[Text], name: &[u8]) -> bool
    ensures { result ≡ list_any (λ y. bytes_eq y name.now) outputs.now }
{
    for output in outputs {
        if output.bytes() == name {
            return true;
        }
    }
    false
}

fn fits_role(design: &Design, set: &Set, role: Role, name: &[u8]) -> bool
    ensures { result ≡ fits_role design.now set.now role name.now }
{
    match role {
        Role::Input => is_input(design, name) && !is_clock_or_reset(design, set, name),
        Role::Output => is_output(design.outputs(), name),
        Role::State => !is_input(design, name),
    }
}

/// The first declared name that is something else in the design.
pub fn other_role<'a>(design: &Design, set: &'a Set) -> Option<&'a Name>
    ensures { option_copied result ≡ find (is_other_role design.now set.now) set.now.names }
{
    for name in set.names.as_slice() {
        if !fits_role(design, set, name.role, name.name.bytes()) {
            return Some(name);
        }
    }
    None
}

/// Whether the set's clock is no input of one bit, or the design waits for another one.
pub fn is_bad_clock(design: &Design, set: &Set) -> bool
    ensures { result ≡ is_bad_clock design.now set.now }
{
    let name = set.clock.bytes();
    let clock = design.clock();
    !is_bit_input(design, name) || (clock.is_some() && !is_name(name, clock))
}

/// Whether the set's reset is no input of one bit, or is the clock.
pub fn is_bad_reset(design: &Design, set: &Set) -> bool
    ensures { result ≡ is_bad_reset design.now set.now }
{
    !is_bit_input(design, set.reset.bytes()) || set.clock.bytes() == set.reset.bytes()
}

fn same(one: bool, other: bool) -> bool
    ensures { result ≡ same one other }
{
    if one { other } else { !other }
}

/// The first asynchronous reset that isn't the set's reset at its level.
pub fn other_reset<'a>(set: &Set, asyncs: &'a [Async]) -> Option<&'a Async>
    ensures { option_copied result ≡ find (is_other_reset set.now) asyncs.now }
{
    for reset in asyncs {
        if !(reset.name.bytes() == set.reset.bytes() && same(reset.high, set.high)) {
            return Some(reset);
        }
    }
    None
}
