ghost use Rattle.std.specs.Prelude.{◌≡◌};
ghost use Rattle.vlog_read_lex.specs.Bytes.{is_space, is_digit, is_letter, is_word, is_hex, has};

/// The base of a number.
#[derive(Clone, Copy, PartialEq, Eq)]
pub enum Base {
    Two,
    Eight,
    Ten,
    Sixteen,
}

/// Bytes that make up one run.
#[derive(Clone, Copy, PartialEq, Eq)]
pub enum Class {
    /// White space.
    Space,
    /// What continues a word.
    Word,
    /// Decimal digits and underscores.
    Decimal,
    /// What a number takes after its base.
    Digits(Base),
    /// All that stands on a line.
    Line,
}

pub fn is_space(byte: u8) -> bool
    ensures { result ≡ is_space byte }
{
    byte == b' ' || byte == b'\t' || byte == b'\n' || byte == b'\r' || byte == 12
}

pub fn is_digit(byte: u8) -> bool
    ensures { result ≡ is_digit byte }
{
    byte.is_ascii_digit()
}

pub fn is_letter(byte: u8) -> bool
    ensures { result ≡ is_letter byte }
{
    byte.is_ascii_alphabetic() || byte == b'_'
}

pub fn is_word(byte: u8) -> bool
    ensures { result ≡ is_word byte }
{
    is_letter(byte) || is_digit(byte) || byte == b'$'
}

pub fn is_hex(byte: u8) -> bool
    ensures { result ≡ is_hex byte }
{
    is_digit(byte) || (b'a' <= byte && byte <= b'f') || (b'A' <= byte && byte <= b'F')
}

impl Class {
    pub fn has(self, byte: u8) -> bool
        ensures { result ≡ has self byte }
    {
        match self {
            Class::Space => is_space(byte),
            Class::Word => is_word(byte),
            Class::Decimal => is_digit(byte) || byte == b'_',
            Class::Digits(base) => {
                is_hex(byte)
                    || byte == b'x'
                    || byte == b'X'
                    || byte == b'z'
                    || byte == b'Z'
                    || byte == b'_'
                    || (byte == b'?' && base != Base::Ten)
            }
            Class::Line => byte != b'\n',
        }
    }
}
