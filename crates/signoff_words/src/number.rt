// Numbers among words.
ghost use Rattle.std.specs.Prelude.{◌≡◌, ◌≤◌, true, length, IfSome};
ghost use Rattle.std.specs.List.{list_all};
ghost use Rattle.signoff_words.specs.Numbers.{is_digit, number_from, number_within};

fn is_digit(byte: u8) -> bool
    ensures { result ≡ is_digit byte }
{
    48 <= byte && byte <= 57
}

fn are_digits(word: &[u8]) -> bool
    ensures { result ≡ list_all is_digit word.now }
{
    word.iter().all(|byte| is_digit(*byte))
}

// The number that at most ten digits are.
fn number_of(word: &[u8]) -> u64
    requires few { length word.now ≤ 10 }
    requires digits { list_all is_digit word.now ≡ true }
    ensures { result ≡ number_from 0 word.now }
{
    let mut number = 0;
    for byte in word {
        number = number * 10 + u64::from(*byte - 48);
    }
    number
}

/// The number within these bounds that a word of 1 to 10 decimal digits is.
pub fn number_within(low: u64, high: u64, word: &[u8]) -> Option<u64>
    ensures value { result ≡ number_within low high word.now }
    ensures bounds { IfSome result (λ n. (low ≤ n) × (n ≤ high)) }
{
    if 1 <= word.len() && word.len() <= 10 && are_digits(word) {
        let number = number_of(word);
        if low <= number && number <= high {
            return Some(number);
        }
    }
    None
}
