// What is seen from a leaf of a map.
ghost use Rattle.std.specs.Prelude.{Ok, Err};
ghost use Rattle.res_table.specs.Images.{IsImage};
ghost use Rattle.reply_pieces.specs.Pieces.{PutsText};
ghost use Rattle.info_text.specs.LeafRows.{leaf_text, row_text, title};

use crate::digits::put_hex_line;
use outside_io::{Sink, SinkFailed};
use reply_pieces::{Piece, put_all};
use res_table::Kind;
use vis_rows::{VisError, row};

// The bytes of the longest row.
const LONGEST: usize = 4096;

fn put_title<O: Sink>(leaf: u32, out: &mut O) -> Result<(), SinkFailed>
    ensures { PutsText O.Sink (title leaf) out.old out.new result }
{
    put_all(
        out,
        &[
            Piece::Text(b"vis "),
            Piece::Number(u64::from(leaf)),
            Piece::Text(b" "),
        ],
    )
}

fn put_row<O: Sink>(leaf: u32, row: &[u8], out: &mut O) -> Result<(), SinkFailed>
    ensures { PutsText O.Sink (row_text leaf (Ok row.now)) out.old out.new result }
{
    put_title(leaf, out)?;
    put_hex_line(row, out)
}

fn put_no_leaf<O: Sink>(leaf: u32, out: &mut O) -> Result<(), SinkFailed>
    ensures { PutsText O.Sink (row_text leaf (Err VisError.NoLeaf)) out.old out.new result }
{
    put_all(
        out,
        &[
            Piece::Text(b"no leaf "),
            Piece::Number(u64::from(leaf)),
            Piece::Text(b"\n"),
        ],
    )
}

fn put_truncated<O: Sink>(leaf: u32, out: &mut O) -> Result<(), SinkFailed>
    ensures { PutsText O.Sink (row_text leaf (Err VisError.Truncated)) out.old out.new result }
{
    put_all(
        out,
        &[
            Piece::Text(b"vis row "),
            Piece::Number(u64::from(leaf)),
            Piece::Text(b" truncated\n"),
        ],
    )
}

/// Puts `vis N` and the row of the leaf of this number in a map, as `vis_rows::row` gives it, as two hexadecimal digits
/// for each byte, in lower case and the high half first. The row of a map in which no leaf can be seen is empty, and the
/// line is `vis N ` then. Where there is no row it puts `no leaf N` or `vis row N truncated`.
///
/// It takes no memory. After an error a front of the text was put.
#[tactic(auto, using(crate::proofs::ImageLaws::brush_is))]
pub fn put_leaf_row<O: Sink>(image: &[u8], leaf: u32, out: &mut O) -> Result<(), SinkFailed>
    requires { IsImage Kind.Brush image.now }
    ensures { PutsText O.Sink (leaf_text leaf image.now) out.old out.new result }
{
    let mut room = [0; LONGEST];
    match row(image, leaf, &mut room) {
        Ok(width) => put_row(leaf, &room[..width], out),
        Err(VisError::NoLeaf) => put_no_leaf(leaf, out),
        Err(VisError::Truncated) => put_truncated(leaf, out),
    }
}
