// Words and numbers among bytes.
ghost use Rattle.std.specs.Prelude.{◌≡◌, ◌<◌, ◌∷◌, [], length, IfSome, MatchOption, option_map};
ghost use Rattle.std.specs.List.{position_or_len, prefix_len, slice_split};
ghost use Rattle.clause_check_texts.specs.Words.{is_blank, is_digit, is_end, number_of, size_of, split_left, words};

/// A number of a line.
#[derive(Clone, Copy, Debug)]
pub struct Number {
    /// Whether a minus stands in front.
    pub negative: bool,
    /// The number without its sign, below 2^60.
    pub size: u64,
}

/// What stands in front, and what is left behind it.
#[derive(Clone, Copy)]
pub struct Split<'a> {
    pub front: &'a [u8],
    pub left: Option<&'a [u8]>,
}

/// A word, and what follows it.
#[derive(Clone, Copy)]
pub struct Word<'a> {
    pub word: &'a [u8],
    pub rest: &'a [u8],
}

// How many bytes stand before the first line feed.
fn line_len(bytes: &[u8]) -> usize
    ensures { result ≡ position_or_len is_end bytes.now }
{
    for (i, byte) in bytes.iter().enumerate() {
        if *byte == b'\n' {
            return i;
        }
    }
    bytes.len()
}

/// The first line, without its line feed, and the lines behind it, where there is a line feed.
pub fn first_line(bytes: &[u8]) -> Split<'_>
    ensures lines { slice_split is_end bytes.now ≡ result.front.now ∷ split_left (option_map (λ l. l.now) result.left) }
    ensures shorter { IfSome result.left (λ l. length l.now < length bytes.now) }
{
    let end = line_len(bytes);
    if end == bytes.len() {
        return Split {
            front: bytes,
            left: None,
        };
    }
    Split {
        front: &bytes[..end],
        left: Some(&bytes[end + 1..]),
    }
}

fn is_blank(byte: u8) -> bool
    ensures { result ≡ is_blank byte }
{
    byte == b' ' || byte == b'\t' || byte == b'\r'
}

// How many blanks stand in front.
fn blanks_len(bytes: &[u8]) -> usize
    ensures { result ≡ prefix_len is_blank bytes.now }
{
    for (i, byte) in bytes.iter().enumerate() {
        if !is_blank(*byte) {
            return i;
        }
    }
    bytes.len()
}

// How many bytes stand before the first blank.
fn word_len(bytes: &[u8]) -> usize
    ensures { result ≡ position_or_len is_blank bytes.now }
{
    for (i, byte) in bytes.iter().enumerate() {
        if is_blank(*byte) {
            return i;
        }
    }
    bytes.len()
}

/// The first word of a line, where there is one.
pub fn first_word(bytes: &[u8]) -> Option<Word<'_>>
    ensures words { MatchOption result (words bytes.now ≡ []) (λ w. words bytes.now ≡ w.word.now ∷ words w.rest.now) }
    ensures shorter { MatchOption result (words bytes.now ≡ []) (λ w. length w.rest.now < length bytes.now) }
{
    let start = blanks_len(bytes);
    if start >= bytes.len() {
        return None;
    }
    let bytes = &bytes[start..];
    let end = word_len(bytes);
    Some(Word {
        word: &bytes[..end],
        rest: &bytes[end..],
    })
}

fn is_digit(byte: u8) -> bool
    ensures { result ≡ is_digit byte }
{
    48 <= byte && byte <= 57
}

/// The number below 2^60 that decimal digits are.
pub fn size_of(word: &[u8]) -> Option<u64>
    ensures { result ≡ size_of word.now }
{
    if word.is_empty() {
        return None;
    }
    let mut size = 0;
    for byte in word {
        if !is_digit(*byte) {
            return None;
        }
        size = size * 10 + u64::from(*byte - 48);
        if size >= 1 << 60 {
            return None;
        }
    }
    Some(size)
}

/// The number that a word is.
pub fn number_of(word: &[u8]) -> Option<Number>
    ensures { result ≡ number_of word.now }
{
    match word {
        [b'-', digits @ ..] => Some(Number {
            negative: true,
            size: size_of(digits)?,
        }),
        _ => Some(Number {
            negative: false,
            size: size_of(word)?,
        }),
    }
}
