ghost use Rattle.std.specs.Prelude.{◌≡◌, ◌≤◌, ◌<◌, IfSome, length, slice_index};
ghost use Rattle.vlog_read_lex.specs.Places.{has_pair, run_end, closing};

use crate::class::Class;

/// The byte at a place, and 0 past the end.
pub fn byte_at(bytes: &[u8], at: usize) -> u8
    ensures { result ≡ slice_index bytes.now at }
{
    if at < bytes.len() { bytes[at] } else { 0 }
}

/// Whether two bytes stand at a place.
pub fn has_pair(bytes: &[u8], at: usize, first: u8, second: u8) -> bool
    requires { at ≤ length bytes.now }
    ensures { result ≡ has_pair first second bytes.now at }
{
    at < bytes.len() && bytes[at] == first && at + 1 < bytes.len() && bytes[at + 1] == second
}

/// The end of the run of bytes of a class.
pub fn run_end(bytes: &[u8], from: usize, class: Class) -> usize
    requires { from ≤ length bytes.now }
    ensures exact { result ≡ run_end class bytes.now from }
    ensures low { from ≤ result }
    ensures high { result ≤ length bytes.now }
{
    for at in from..bytes.len() {
        if !class.has(bytes[at]) {
            return at;
        }
    }
    bytes.len()
}

/// The place after the next `*` that a byte follows.
pub fn closing(bytes: &[u8], from: usize, last: u8) -> Option<usize>
    requires { from ≤ length bytes.now }
    ensures exact { result ≡ closing last bytes.now from }
    ensures within { IfSome result (λ end. (from < end) × (end ≤ length bytes.now)) }
{
    for at in from..bytes.len() {
        if has_pair(bytes, at, b'*', last) {
            return Some(at + 2);
        }
    }
    None
}
