// Bytes and numbers into a sink.
ghost use Rattle.std.specs.Prelude.{◌∷◌, ◌++◌};
ghost use Rattle.std.specs.Fmt.{decimal};
ghost use Rattle.replay.specs.Puts.{Prints, pieces_text};

use itoa::Buffer;
use outside::{OutFault, Sink};

/// Puts bytes.
pub fn put<S: Sink>(sink: &mut S, bytes: &[u8]) -> Result<(), OutFault>
    ensures { Prints S.written S.faults sink.old sink.new result bytes.now }
{
    sink.put(bytes)
}

/// Puts pieces, one after another.
pub fn put_all<S: Sink>(sink: &mut S, pieces: &[&[u8]]) -> Result<(), OutFault>
    ensures { Prints S.written S.faults sink.old sink.new result (pieces_text pieces.now) }
{
    for piece in pieces {
        put(sink, piece)?;
    }
    Ok(())
}

/// Puts a number in decimal behind other bytes.
pub fn put_number<S: Sink>(sink: &mut S, ahead: &[u8], number: u64) -> Result<(), OutFault>
    ensures { Prints S.written S.faults sink.old sink.new result (ahead.now ++ decimal number) }
{
    let mut digits = Buffer::new();
    put_all(sink, &[ahead, digits.format(number).as_bytes()])
}

/// Puts a word behind a space.
pub fn put_word<S: Sink>(sink: &mut S, word: &[u8]) -> Result<(), OutFault>
    ensures { Prints S.written S.faults sink.old sink.new result (32 ∷ word.now) }
{
    put_all(sink, &[b" ", word])
}
