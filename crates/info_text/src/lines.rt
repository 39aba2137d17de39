// The lines that tell of a resource that was asked for.
ghost use Rattle.std.specs.Prelude.{◌≡◌};
ghost use Rattle.reply_pieces.specs.Pieces.{PutsText};
ghost use Rattle.info_text.specs.Lines.{bad_text, bad_title, fault_word, kind_text, loaded_text, resource_text};

use crate::faults::fault_pieces;
use base_fields::GameName;
use outside_io::{Sink, SinkFailed};
use reply_pieces::{Piece, put_all};
use res_table::{Fault, Kind, Res};

fn kind_text(kind: Kind) -> &'static [u8]
    ensures { result.now ≡ kind_text kind }
{
    match kind {
        Kind::Brush => b"brush",
        Kind::Alias => b"alias",
        Kind::Sprite => b"sprite",
        Kind::Wad => b"wad",
        Kind::Sound => b"sound",
    }
}

fn loaded_text(loaded: bool) -> &'static [u8]
    ensures { result.now ≡ loaded_text loaded }
{
    if loaded { b"loaded" } else { b"present" }
}

/// Puts `KIND NAME SIZE at PLACE loaded` of a resource that was loaded now, and with `present` of one that was there.
/// KIND is `brush`, `alias`, `sprite`, `wad` or `sound`, and the size is that of its image in bytes, which begins at the place.
///
/// It takes no memory. After an error a front of the text was put.
pub fn put_resource<O: Sink>(name: &GameName, res: &Res, out: &mut O) -> Result<(), SinkFailed>
    ensures { PutsText O.Sink (resource_text name.now res.now) out.old out.new result }
{
    put_all(
        out,
        &[
            Piece::Text(kind_text(res.kind)),
            Piece::Text(b" "),
            Piece::Text(name.bytes()),
            Piece::Text(b" "),
            Piece::Number(u64::from(res.size)),
            Piece::Text(b" at "),
            Piece::Number(u64::from(res.place)),
            Piece::Text(b" "),
            Piece::Text(loaded_text(res.loaded)),
            Piece::Text(b"\n"),
        ],
    )
}

// The word for what a file was taken for.
fn fault_word(fault: Fault) -> &'static [u8]
    ensures { result.now ≡ fault_word fault }
{
    match fault {
        Fault::Brush(_) => kind_text(Kind::Brush),
        Fault::Alias(_) => kind_text(Kind::Alias),
        Fault::Sprite(_) => kind_text(Kind::Sprite),
        Fault::Sound(_) => kind_text(Kind::Sound),
        Fault::Wad(_) => kind_text(Kind::Wad),
    }
}

fn put_title<O: Sink>(name: &GameName, fault: Fault, out: &mut O) -> Result<(), SinkFailed>
    ensures { PutsText O.Sink (bad_title name.now fault) out.old out.new result }
{
    put_all(
        out,
        &[
            Piece::Text(b"bad "),
            Piece::Text(fault_word(fault)),
            Piece::Text(b" "),
            Piece::Text(name.bytes()),
            Piece::Text(b": "),
        ],
    )
}

/// Puts `bad KIND NAME: FAULT` of a file whose bytes are no resource of their kind.
///
/// - Of a brush model the fault is `short`, `version V` with the version that was found, `lump I outside`, `lump I size`,
///   `lump I too many`, `no model`, `texture table`, `texture I outside`, `texture I size`, `texture I bad animation`,
///   `texture I missing frame F` with the frame's digit or capital letter, `lump I row R` or `too large`, with the number
///   of the lump or the texture and that of the row, from 0 on.
/// - Of an alias model it is `short`, `version V` with the version that was found, `header FIELD` (`numskins`,
///   `skinwidth`, `skinheight`, `numverts`, `numtris` or `numframes`), `truncated PART` (`skin`, `st`, `triangle` or
///   `frame`), `group PART R`, `interval PART R`, or `triangle R`. R is the row in the part, from 0 on.
/// - Of a sprite it is `short`, `version V`, `header numframes`, `truncated frame`, `group frame R`, `interval frame R`
///   or `size frame R`.
/// - Of a sound it is `not riff`, `no fmt`, `not pcm`, `not mono`, `width`, `no data`, `bad loop`, `too long`, or
///   `rate S` with its samples a second.
/// - Of a wad it is `not wad` or `table outside`.
///
/// It takes no memory. After an error a front of the text was put.
pub fn put_bad<O: Sink>(name: &GameName, fault: Fault, out: &mut O) -> Result<(), SinkFailed>
    ensures { PutsText O.Sink (bad_text name.now fault) out.old out.new result }
{
    put_title(name, fault, out)?;
    put_all(out, &fault_pieces(fault))?;
    out.put(b"\n")
}
