//! A reply as pieces of text and numbers, put to a sink one after another.
#![tactic(auto)]

ghost use Rattle.std.specs.Prelude.{decimal};
ghost use Rattle.reply_pieces.specs.Pieces.{piece_text, text_of, PutsText};

use itoa::Buffer;
use outside_io::{Sink, SinkFailed};

/// A piece of a reply: bytes or one byte as they are, or a number in decimal digits.
#[derive(Clone, Copy)]
pub enum Piece<'a> {
    Text(&'a [u8]),
    Byte(u8),
    Number(u64),
}

#[inline(never)]
fn put_number<O: Sink>(out: &mut O, number: u64) -> Result<(), SinkFailed>
    ensures { PutsText O.Sink (decimal number) out.old out.new result }
{
    out.put(Buffer::new().format(number).as_bytes())
}

#[inline(always)]
fn put_piece<O: Sink>(out: &mut O, piece: &Piece) -> Result<(), SinkFailed>
    ensures { PutsText O.Sink (piece_text piece.now) out.old out.new result }
{
    match piece {
        Piece::Text(text) => out.put(text),
        Piece::Byte(byte) => out.put(&[*byte]),
        Piece::Number(number) => put_number(out, *number),
    }
}

/// Puts the pieces one after another, each by a put of its own. After an error a front of their text was added, and nothing
/// is put behind it.
// Inlined, since the kinds of the pieces are known where it is called.
#[inline(always)]
pub fn put_all<O: Sink>(out: &mut O, pieces: &[Piece]) -> Result<(), SinkFailed>
    ensures { PutsText O.Sink (text_of pieces.now) out.old out.new result }
{
    for piece in pieces {
        put_piece(out, piece)?;
    }
    Ok(())
}

#[cfg(test)]
mod tests;
