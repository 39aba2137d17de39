// Why a lump isn't shown as a picture.
ghost use Rattle.std.specs.Prelude.{◌≡◌};
ghost use Rattle.reply_pieces.specs.Pieces.{PutsText};
ghost use Rattle.info_text.specs.LumpErrors.{before_name, behind_name, lump_error_text};

use crate::lump_names::shown;
use outside_io::{Sink, SinkFailed};
use reply_pieces::{Piece, put_all};
use thiserror::Error;
use wad2_lumps::LumpName;

/// Why a lump of a wad isn't shown as a picture.
#[derive(Clone, Copy, Debug, PartialEq, Eq, Error)]
pub enum LumpError {
    /// The wad has no lump of the name.
    #[error("no lump")]
    Absent,
    /// The first lump of the name is compressed.
    #[error("compressed lump")]
    Compressed,
    /// The lump has another type than a picture's.
    #[error("lump is no picture")]
    NotPicture,
    /// The picture is too large, or passes the end of the wad.
    #[error("lump outside")]
    Outside,
}

fn before_name(error: LumpError) -> &'static [u8]
    ensures { result.now ≡ before_name error }
{
    match error {
        LumpError::Absent => b"no lump ",
        LumpError::Compressed => b"compressed lump ",
        LumpError::NotPicture | LumpError::Outside => b"lump ",
    }
}

fn behind_name(error: LumpError) -> &'static [u8]
    ensures { result.now ≡ behind_name error }
{
    match error {
        LumpError::Absent | LumpError::Compressed => b"\n",
        LumpError::NotPicture => b" is no picture\n",
        LumpError::Outside => b" outside\n",
    }
}

/// Puts `no lump L`, `compressed lump L`, `lump L is no picture` or `lump L outside`. L is the name, with `?` for a
/// byte outside 32 to 126.
///
/// It takes no memory. After an error a front of the text was put.
pub fn put_lump_error<O: Sink>(
    name: &LumpName,
    error: LumpError,
    out: &mut O,
) -> Result<(), SinkFailed>
    ensures { PutsText O.Sink (lump_error_text name.now error) out.old out.new result }
{
    let name = shown(name.bytes());
    put_all(
        out,
        &[
            Piece::Text(before_name(error)),
            Piece::Text(&name),
            Piece::Text(behind_name(error)),
        ],
    )
}
