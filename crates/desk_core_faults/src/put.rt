// Words, numbers and places behind the name of a fault.
ghost use Rattle.std.specs.Prelude.{◌≡◌, ◌++◌, IfOk};
ghost use Rattle.desk_core_faults.specs.Texts.{at_byte, with_bit, with_word};

use outside::Text;
use std::alloc::{AllocError, Global};

/// The place of a byte behind a name.
pub fn at_byte(alloc: Global, name: &[u8], at: usize) -> Result<Text, AllocError>
    ensures { IfOk result (λ text. text ≡ at_byte name.now at) }
{
    let mut text = name.to_vec(alloc)?;
    text.extend_from_slice(b" at ")?;
    text.extend_from_slice(at.to_string(alloc)?.as_bytes())?;
    Ok(Text::new(text))
}

/// A word behind a name.
pub fn with_word(alloc: Global, name: &[u8], word: &[u8]) -> Result<Text, AllocError>
    ensures { IfOk result (λ text. text ≡ with_word name.now word.now) }
{
    let mut text = name.to_vec(alloc)?;
    text.push(b' ')?;
    text.extend_from_slice(word)?;
    Ok(Text::new(text))
}

/// A word and the number of a bit behind a name.
pub fn with_bit(alloc: Global, name: &[u8], word: &[u8], bit: u64) -> Result<Text, AllocError>
    ensures { IfOk result (λ text. text ≡ with_bit name.now word.now bit) }
{
    let mut text = name.to_vec(alloc)?;
    text.push(b' ')?;
    text.extend_from_slice(word)?;
    text.push(b' ')?;
    text.extend_from_slice(bit.to_string(alloc)?.as_bytes())?;
    Ok(Text::new(text))
}
