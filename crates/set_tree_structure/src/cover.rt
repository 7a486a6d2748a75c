// Covers, and where they meet.

ghost use Rattle.std.specs.Prelude.{◌≡◌, ℕ, ◌+◌, ◌≤◌, ◌<◌, ◌^◌, ◌&&◌, ◌||◌, not, nat_eq, true, false, slice_get};
ghost use Rattle.std.specs.List.{list_all, list_any, count_by};
ghost use Rattle.set_tree.specs.Parts.{cover_end};
ghost use Rattle.set_tree_structure.specs.Tests.{is_output, is_output_at, is_number, fits_cover, is_cover_of, has_cover, leads_to, ends_at, meets_all, meets};

use set_tree::{Cover, Length, Property, Role, Set, To};

fn is_output(role: Role) -> bool
    ensures { result ≡ is_output role }
{
    match role {
        Role::Output => true,
        Role::Input | Role::State => false,
    }
}

/// Whether a position is that of an output.
pub fn is_output_at(set: &Set, at: u32) -> bool
    ensures { result ≡ is_output_at set.now at }
{
    match set.names.get(at as usize) {
        Some(name) => is_output(name.role),
        None => false,
    }
}

fn is_number(end: To) -> bool
    ensures { result ≡ is_number end }
{
    match end {
        To::At(_) => true,
        To::AfterEnd(_) => false,
    }
}

// The offset at which a cover ends, where its property ends at `at`.
fn cover_end(end: To, at: u8) -> u64
    ensures value { result ≡ cover_end end at }
    ensures small { result < 2 ^ 33 }
{
    match end {
        To::At(offset) => u64::from(offset),
        To::AfterEnd(distance) => u64::from(at) + u64::from(distance),
    }
}

// Whether a cover keeps the bounds that its property sets.
fn fits_cover(property: &Property, cover: Cover) -> bool
    ensures { result ≡ fits_cover property.now cover }
{
    u64::from(cover.from) <= cover_end(cover.to, property.length.low)
        && cover_end(cover.to, property.length.high) <= u64::from(property.window) + 1
        && !(property.length.until.is_some() && is_number(cover.to))
}

// Whether a cover keeps its bounds; that of reset begins at 0.
fn is_cover_of(at: u32, property: &Property, cover: Cover) -> bool
    ensures { result ≡ is_cover_of at property.now cover }
{
    fits_cover(property, cover) && (at != 0 || cover.from == 0)
}

fn count_of(output: u32, covers: &[Cover]) -> usize
    ensures { result ≡ count_by (λ c. nat_eq c.output output) covers.now }
{
    let mut count = 0;
    for cover in covers {
        if cover.output == output {
            count += 1;
        }
    }
    count
}

fn all_fit(at: u32, property: &Property, output: u32) -> bool
    ensures { result ≡ list_all (λ c. not (nat_eq c.output output) || is_cover_of at property.now c) property.now.covers }
{
    for cover in property.covers.as_slice() {
        if cover.output == output && !is_cover_of(at, property, *cover) {
            return false;
        }
    }
    true
}

/// Whether the property at a position has one cover of an output, and it keeps its bounds.
pub fn has_cover(at: u32, property: &Property, output: u32) -> bool
    ensures { result ≡ has_cover at property.now output }
{
    count_of(output, property.covers.as_slice()) == 1 && all_fit(at, property, output)
}

/// Whether a property has a successor.
pub fn leads_to(successor: u32, property: &Property) -> bool
    ensures { result ≡ leads_to successor property.now }
{
    for next in property.next.as_slice() {
        if *next == successor {
            return true;
        }
    }
    false
}

// Whether a cover of a property of this length ends where the successor's begins.
fn ends_at(length: &Length, end: To, from: u32) -> bool
    ensures { result ≡ ends_at length.now end from }
{
    let begins = u64::from(from);
    cover_end(end, length.low) == u64::from(length.low) + begins
        && cover_end(end, length.high) == u64::from(length.high) + begins
}

fn meets_all(length: &Length, cover: Cover, next: &[Cover]) -> bool
    ensures { result ≡ meets_all length.now cover next.now }
{
    for after in next {
        if after.output == cover.output && !ends_at(length, cover.to, after.from) {
            return false;
        }
    }
    true
}

/// Whether, on the edge from a property to another, the cover of an output ends where the other's begins.
pub fn meets(property: &Property, successor: &Property, output: u32) -> bool
    ensures { result ≡ meets property.now successor.now output }
{
    let next = successor.covers.as_slice();
    for cover in property.covers.as_slice() {
        if cover.output == output && !meets_all(&property.length, *cover, next) {
            return false;
        }
    }
    true
}
