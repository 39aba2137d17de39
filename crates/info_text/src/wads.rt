// What a wad says of its lumps.
ghost use Rattle.std.specs.Prelude.{◌≡◌};
ghost use Rattle.reply_pieces.specs.Pieces.{PutsText};
ghost use Rattle.wad2_lumps.specs.Wads.{IsWad};
ghost use Rattle.info_text.specs.Wads.{lump_text, rows_text, title, wad_text};

use crate::lump_names::shown;
use base_fields::GameName;
use outside_io::{Sink, SinkFailed};
use reply_pieces::{Piece, put_all};
use wad2_lumps::{LumpRow, check_wad, lump_row};

fn put_title<O: Sink>(name: &GameName, count: u32, out: &mut O) -> Result<(), SinkFailed>
    ensures { PutsText O.Sink (title name.now count) out.old out.new result }
{
    put_all(
        out,
        &[
            Piece::Text(b"wad "),
            Piece::Text(name.bytes()),
            Piece::Text(b" lumps "),
            Piece::Number(u64::from(count)),
            Piece::Text(b"\n"),
        ],
    )
}

fn put_lump<O: Sink>(number: u32, row: &LumpRow, out: &mut O) -> Result<(), SinkFailed>
    ensures { PutsText O.Sink (lump_text number row.now) out.old out.new result }
{
    let name = shown(&row.name);
    put_all(
        out,
        &[
            Piece::Text(b"lump "),
            Piece::Number(u64::from(number)),
            Piece::Text(b" "),
            Piece::Text(&name),
            Piece::Text(b" type "),
            Piece::Number(u64::from(row.kind)),
            Piece::Text(b" size "),
            Piece::Number(u64::from(row.size)),
            Piece::Text(b" compression "),
            Piece::Number(u64::from(row.compression)),
            Piece::Text(b"\n"),
        ],
    )
}

fn put_lumps<O: Sink>(image: &[u8], out: &mut O) -> Result<(), SinkFailed>
    requires { IsWad image.now }
    ensures { PutsText O.Sink (rows_text image.now) out.old out.new result }
{
    let mut number = 0;
    'rows: while let Some(row) = lump_row(image, number) {
        put_lump(number, &row, out)?;
        number += 1;
    }
    Ok(())
}

// Puts `wad NAME lumps N`, and a line for each row of the table.
pub(crate) fn info_wad<O: Sink>(
    name: &GameName,
    image: &[u8],
    out: &mut O,
) -> Result<(), SinkFailed>
    requires { IsWad image.now }
    ensures { PutsText O.Sink (wad_text name.now image.now) out.old out.new result }
{
    let count = check_wad(image).unwrap();
    put_title(name, count, out)?;
    put_lumps(image, out)
}
