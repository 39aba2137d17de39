// Bytes in hexadecimal digits.
ghost use Rattle.std.specs.Prelude.{◌≡◌, ◌*◌, ◌<◌, ◌≤◌, length, slice_index};
ghost use Rattle.hex.specs.Hex.{lower_digits, encode_lower};
ghost use Rattle.reply_pieces.specs.Pieces.{PutsText};
ghost use Rattle.info_text.specs.Dumps.{hex_line};

use outside_io::{Sink, SinkFailed};

// How many bytes of a long line have their digits in one put.
const PIECE: usize = 32;

// A half byte as a digit: by arithmetic, which is done for many at once, where a table is read one by one.
#[tactic(auto, using(crate::proofs::DigitLaws::digit_of_half))]
fn digit(half: u8) -> u8
    requires { half < 16 }
    ensures { result ≡ slice_index lower_digits half }
{
    if half < 10 {
        b'0' + half
    } else {
        b'a' - 10 + half
    }
}

// Writes each byte as two digits in lower case, the high half first.
pub(crate) fn fill_digits(digits: &mut [u8], bytes: &[u8])
    requires { length digits.old ≡ 2 * length bytes.now }
    ensures { digits.new ≡ encode_lower bytes.now }
{
    for i in 0..bytes.len() {
        let byte = bytes[i];
        digits[2 * i] = digit(byte >> 4);
        digits[2 * i + 1] = digit(byte & 15);
    }
}

// Puts the digits of a piece in one put.
fn put_piece<O: Sink>(bytes: &[u8], out: &mut O) -> Result<(), SinkFailed>
    requires { length bytes.now ≤ 32 }
    ensures { PutsText O.Sink (encode_lower bytes.now) out.old out.new result }
{
    let mut room = [0; 2 * PIECE];
    let digits = &mut room[..2 * bytes.len()];
    fill_digits(digits, bytes);
    out.put(digits)
}

// Puts a line of any length. No memory is taken for its digits, so they are put in pieces.
pub(crate) fn put_hex_line<O: Sink>(line: &[u8], out: &mut O) -> Result<(), SinkFailed>
    ensures { PutsText O.Sink (hex_line line.now) out.old out.new result }
{
    for bytes in line.chunks(PIECE) {
        put_piece(bytes, out)?;
    }
    out.put(b"\n")
}
