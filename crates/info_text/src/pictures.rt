// A picture of a wad, row by row.
ghost use Rattle.std.specs.Prelude.{◌≡◌, ◌≤◌, length};
ghost use Rattle.reply_pieces.specs.Pieces.{PutsText};
ghost use Rattle.wad2_lumps.specs.Pictures.{pixels_end};
ghost use Rattle.info_text.specs.Pictures.{picture_text, rows_text, title};

use crate::digits::put_hex_line;
use crate::lump_names::shown;
use outside_io::{Sink, SinkFailed};
use reply_pieces::{Piece, put_all};
use wad2_lumps::{LumpName, Picture};

fn put_title<O: Sink>(name: &LumpName, picture: &Picture, out: &mut O) -> Result<(), SinkFailed>
    ensures { PutsText O.Sink (title name.now picture.now) out.old out.new result }
{
    let name = shown(name.bytes());
    put_all(
        out,
        &[
            Piece::Text(b"pic "),
            Piece::Text(&name),
            Piece::Text(b" "),
            Piece::Number(u64::from(picture.width)),
            Piece::Text(b" "),
            Piece::Number(u64::from(picture.height)),
            Piece::Text(b"\n"),
        ],
    )
}

fn put_rows<O: Sink>(picture: &Picture, image: &[u8], out: &mut O) -> Result<(), SinkFailed>
    requires { pixels_end picture.now ≤ length image.now }
    ensures { PutsText O.Sink (rows_text picture.now image.now) out.old out.new result }
{
    let width = picture.width as usize;
    for row in 0..picture.height as usize {
        let from = picture.offset as usize + width * row;
        put_hex_line(&image[from..from + width], out)?;
    }
    Ok(())
}

/// Puts `pic L W H`, with the width and the height of the picture in pixels, and then its rows, the first one first. A
/// row is a line of two hexadecimal digits for each pixel, in lower case and the high half first, so that of no pixels
/// is empty. L is the name of the lump, with `?` for a byte outside 32 to 126. The picture lies in the image.
///
/// It takes no memory. After an error a front of the text was put.
pub fn put_picture<O: Sink>(
    name: &LumpName,
    picture: &Picture,
    image: &[u8],
    out: &mut O,
) -> Result<(), SinkFailed>
    requires { pixels_end picture.now ≤ length image.now }
    ensures { PutsText O.Sink (picture_text name.now picture.now image.now) out.old out.new result }
{
    put_title(name, picture, out)?;
    put_rows(picture, image, out)
}
