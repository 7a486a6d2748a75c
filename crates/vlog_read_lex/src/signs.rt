ghost use Rattle.std.specs.Prelude.{◌≡◌, ◌≤◌, ◌+◌, length};
ghost use Rattle.vlog_read_lex.specs.Signs.{is_sign, is_sign_of, is_outside_sign, sign_size, arithmetic_signs, comparison_signs, bitwise_signs, bracket_signs, separator_signs};
ghost use Rattle.vlog_read_lex.specs.Words.{is_among};

use crate::is;

fn is_arithmetic(text: &[u8]) -> bool
    ensures { result ≡ is_among arithmetic_signs text.now }
{
    is(text, b"+")
        || is(text, b"-")
        || is(text, b"*")
        || is(text, b"/")
        || is(text, b"%")
        || is(text, b"<<")
        || is(text, b">>")
        || is(text, b"<<<")
        || is(text, b">>>")
}

fn is_comparison(text: &[u8]) -> bool
    ensures { result ≡ is_among comparison_signs text.now }
{
    is(text, b"<")
        || is(text, b"<=")
        || is(text, b">")
        || is(text, b">=")
        || is(text, b"==")
        || is(text, b"!=")
        || is(text, b"&&")
        || is(text, b"||")
        || is(text, b"!")
}

fn is_bitwise(text: &[u8]) -> bool
    ensures { result ≡ is_among bitwise_signs text.now }
{
    is(text, b"&")
        || is(text, b"|")
        || is(text, b"^")
        || is(text, b"^~")
        || is(text, b"~^")
        || is(text, b"~&")
        || is(text, b"~|")
        || is(text, b"~")
}

fn is_bracket(text: &[u8]) -> bool
    ensures { result ≡ is_among bracket_signs text.now }
{
    is(text, b"(")
        || is(text, b")")
        || is(text, b"[")
        || is(text, b"]")
        || is(text, b"{")
        || is(text, b"}")
}

fn is_separator(text: &[u8]) -> bool
    ensures { result ≡ is_among separator_signs text.now }
{
    is(text, b"?")
        || is(text, b":")
        || is(text, b"+:")
        || is(text, b"-:")
        || is(text, b"=")
        || is(text, b";")
        || is(text, b",")
        || is(text, b".")
        || is(text, b"@")
        || is(text, b"#")
}

/// Whether a sign is one of those that the language leaves out.
pub fn is_outside_sign(text: &[u8]) -> bool
    ensures { result ≡ is_outside_sign text.now }
{
    is(text, b"===") || is(text, b"!==") || is(text, b"**") || is(text, b"\"") || is(text, b"\\")
}

#[tactic(auto, unfolding(crate::specs::Signs::is_sign))]
fn is_sign(text: &[u8]) -> bool
    ensures { result ≡ is_sign text.now }
{
    is_arithmetic(text)
        || is_comparison(text)
        || is_bitwise(text)
        || is_bracket(text)
        || is_separator(text)
        || is_outside_sign(text)
}

fn is_sign_of(size: usize, bytes: &[u8], at: usize) -> bool
    requires { at ≤ length bytes.now }
    ensures { result ≡ is_sign_of size bytes.now at }
{
    size <= bytes.len() - at && is_sign(&bytes[at..at + size])
}

/// How long the longest sign at a place is; 0 where none begins.
#[tactic(auto, unfolding(crate::specs::Signs::sign_size))]
pub fn sign_size(bytes: &[u8], at: usize) -> usize
    requires { at ≤ length bytes.now }
    ensures exact { result ≡ sign_size bytes.now at }
    ensures within { at + result ≤ length bytes.now }
{
    if is_sign_of(3, bytes, at) {
        3
    } else if is_sign_of(2, bytes, at) {
        2
    } else if is_sign_of(1, bytes, at) {
        1
    } else {
        0
    }
}
