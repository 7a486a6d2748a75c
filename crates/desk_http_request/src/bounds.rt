// Where the front of some bytes ends.
ghost use Rattle.std.specs.Prelude.{◌≡◌, ◌≤◌, ◌<◌, ◌++◌, ℕ, false, take, drop, length};
ghost use Rattle.desk_http_request.specs.Front.{front, is_full, lines_of, lines_left, lines_after_breaks, skip_breaks};

const MOST_BYTES: usize = 16384;

const MOST_LINES: usize = 66;

/// How many bytes the front has, in which a head has to stand, and whether one of its two bounds ended it: the 16,384th
/// byte, or the end of the 66th line. Line breaks before the first other byte aren't counted as lines.
pub fn front_len(bytes: &[u8]) -> (usize, bool)
    ensures front { take result.0 bytes.now ≡ front bytes.now }
    ensures within { result.0 ≤ length bytes.now }
    ensures full { result.1 ≡ is_full bytes.now }
    ensures open { result.1 ≡ false → length bytes.now < 16384 }
{
    let breaks = breaks_len(bytes);
    let (_, rest) = bytes.split_at(breaks);
    let (lines, left) = lines_len(rest, MOST_LINES);
    (
        (breaks + lines).min(MOST_BYTES),
        bytes.len() >= MOST_BYTES || left == 0,
    )
}

// How many line breaks stand before the first other byte.
fn breaks_len(bytes: &[u8]) -> usize
    ensures within { result ≤ length bytes.now }
    ensures split { (n : ℕ) → lines_after_breaks n bytes.now ≡ take result bytes.now ++ lines_of n
        (drop result bytes.now) }
    ensures rest { skip_breaks bytes.now ≡ drop result bytes.now }
{
    for (i, b) in bytes.iter().enumerate() {
        if *b != 13 && *b != 10 {
            return i;
        }
    }
    bytes.len()
}

// How many bytes stand up to the end of that many lines, and how many lines aren't ended.
fn lines_len(bytes: &[u8], most: usize) -> (usize, usize)
    ensures within { result.0 ≤ length bytes.now }
    ensures lines { take result.0 bytes.now ≡ lines_of most bytes.now }
    ensures left { result.1 ≡ lines_left most bytes.now }
{
    let mut left = most;
    for (i, b) in bytes.iter().enumerate() {
        if left == 0 {
            return (i, 0);
        }
        if *b == 10 {
            left -= 1;
        }
    }
    (bytes.len(), left)
}
