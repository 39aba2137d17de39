// An image in hexadecimal digits.
ghost use Rattle.std.specs.Prelude.{◌≡◌, ◌+◌, ◌*◌, ◌≤◌, length};
ghost use Rattle.reply_pieces.specs.Pieces.{PutsText};
ghost use Rattle.info_text.specs.Dumps.{title, hex_line, hex_lines, dump_text};

use crate::digits::fill_digits;
use base_fields::GameName;
use outside_io::{Sink, SinkFailed};
use reply_pieces::{Piece, put_all};

// The bytes of a line.
const WIDTH: usize = 32;

fn put_title<O: Sink>(name: &GameName, size: usize, out: &mut O) -> Result<(), SinkFailed>
    ensures { PutsText O.Sink (title name.now size) out.old out.new result }
{
    put_all(
        out,
        &[
            Piece::Text(b"dump "),
            Piece::Text(name.bytes()),
            Piece::Text(b" "),
            Piece::Number(size as u64),
            Piece::Text(b"\n"),
        ],
    )
}

// The line of these bytes.
fn fill_line(line: &mut [u8], bytes: &[u8])
    requires { length line.old ≡ 2 * length bytes.now + 1 }
    ensures { line.new ≡ hex_line bytes.now }
{
    let (digits, end) = line.split_at_mut(2 * bytes.len());
    fill_digits(digits, bytes);
    end[0] = b'\n';
}

// Puts a line in one put.
fn put_line<O: Sink>(bytes: &[u8], out: &mut O) -> Result<(), SinkFailed>
    requires { length bytes.now ≤ 32 }
    ensures { PutsText O.Sink (hex_line bytes.now) out.old out.new result }
{
    let mut room = [0; 2 * WIDTH + 1];
    let line = &mut room[..=2 * bytes.len()];
    fill_line(line, bytes);
    out.put(line)
}

fn put_lines<O: Sink>(image: &[u8], out: &mut O) -> Result<(), SinkFailed>
    ensures { PutsText O.Sink (hex_lines image.now) out.old out.new result }
{
    for bytes in image.chunks(WIDTH) {
        put_line(bytes, out)?;
    }
    Ok(())
}

/// Puts `dump NAME SIZE`, with the size of the image in bytes, and then the image in lines of 32 bytes, the last one
/// shorter. A byte is two hexadecimal digits in lower case, the high half first. An empty image has no lines.
///
/// It takes no memory. After an error a front of the text was put.
pub fn dump<O: Sink>(name: &GameName, image: &[u8], out: &mut O) -> Result<(), SinkFailed>
    ensures { PutsText O.Sink (dump_text name.now image.now) out.old out.new result }
{
    put_title(name, image.len(), out)?;
    put_lines(image, out)
}
