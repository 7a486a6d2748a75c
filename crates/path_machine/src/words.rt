// Words and numbers among bytes.
ghost use Rattle.std.specs.Prelude.{◌≡◌, ◌≢◌, ◌<◌, ◌≤◌, ◌∷◌, true, length, option_map, slice_index, take};
ghost use Rattle.std.specs.List.{All, list_all};
ghost use Rattle.vlog_tree.specs.Valuation.{IsLength};
ghost use Rattle.path_machine.specs.Rows.{is_digit, number_from, split_words, value_of, words_left, words_of};

/// How many bytes stand before the first that is this one.
pub fn count_before(stop: u8, bytes: &[u8]) -> usize
    ensures most { result ≤ length bytes.now }
    ensures none { All (λ c. c ≢ stop) (take result bytes.now) }
    ensures found { result < length bytes.now → slice_index bytes.now result ≡ stop }
{
    for i in 0..bytes.len() {
        if bytes[i] == stop {
            return i;
        }
    }
    bytes.len()
}

/// A word, and what is left behind the space after it, where there is one.
#[derive(Clone, Copy)]
pub struct Split<'a> {
    pub word: &'a [u8],
    pub left: Option<&'a [u8]>,
}

/// The first word of what single spaces separate.
pub fn first_word(bytes: &[u8]) -> Split<'_>
    ensures { split_words bytes.now ≡ result.word.now ∷ words_left (option_map (λ l. l.now) result.left) }
{
    let end = count_before(32, bytes);
    if end == bytes.len() {
        return Split {
            word: bytes,
            left: None,
        };
    }
    Split {
        word: &bytes[..end],
        left: Some(&bytes[end + 1..]),
    }
}

/// The words of a line: an empty line has none.
pub fn words_of(line: &[u8]) -> Option<&[u8]>
    ensures { words_of line.now ≡ words_left (option_map (λ l. l.now) result) }
{
    if line.is_empty() {
        return None;
    }
    Some(line)
}

fn is_digit(byte: u8) -> bool
    ensures { result ≡ is_digit byte }
{
    48 <= byte && byte <= 57
}

fn are_digits(word: &[u8]) -> bool
    ensures { result ≡ list_all is_digit word.now }
{
    word.iter().all(|byte| is_digit(*byte))
}

// The number that at most twenty digits are.
fn number_of(word: &[u8]) -> u128
    requires few { length word.now ≤ 20 }
    requires digits { list_all is_digit word.now ≡ true }
    ensures { result ≡ number_from 0 word.now }
{
    let mut number = 0;
    for byte in word {
        number = number * 10 + u128::from(*byte - 48);
    }
    number
}

/// The value of a word of 1 to 20 digits, where it fits into this many bits.
pub fn value_of(width: u8, word: &[u8]) -> Option<u64>
    requires { IsLength width }
    ensures { result ≡ value_of width word.now }
{
    if word.is_empty() || word.len() > 20 || !are_digits(word) {
        return None;
    }
    let number = number_of(word);
    if number < 1u128 << width {
        Some(number as u64)
    } else {
        None
    }
}
