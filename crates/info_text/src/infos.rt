// What an image says of a resource.
ghost use Rattle.std.specs.Prelude.{◌≡◌, ◌≤◌, length};
ghost use Rattle.alias_load.specs.Headers.{header_in as alias_in};
ghost use Rattle.reply_pieces.specs.Pieces.{PutsText};
ghost use Rattle.res_table.specs.Images.{IsImage};
ghost use Rattle.sprite_load.specs.Headers.{header_in as sprite_in};
ghost use Rattle.wav_load.specs.Headers.{header_in as sound_in};
ghost use Rattle.info_text.specs.Infos.{alias_text, info_text, sound_text, sprite_text};

use crate::brushes::info_brush;
use crate::numbers::number_or_none;
use crate::wads::info_wad;
use alias_load::alias_header;
use base_fields::GameName;
use outside_io::{Sink, SinkFailed};
use reply_pieces::{Piece, put_all};
use res_table::Kind;
use sprite_load::sprite_header;
use wav_load::sound_header;

// Puts `alias NAME skins A width B height C verts D tris E frames F pictures G poses H`.
pub(crate) fn info_alias<O: Sink>(
    name: &GameName,
    image: &[u8],
    out: &mut O,
) -> Result<(), SinkFailed>
    requires { 88 ≤ length image.now }
    ensures { PutsText O.Sink (alias_text name.now (alias_in image.now)) out.old out.new result }
{
    let header = alias_header(image);
    put_all(
        out,
        &[
            Piece::Text(b"alias "),
            Piece::Text(name.bytes()),
            Piece::Text(b" skins "),
            Piece::Number(u64::from(header.skins)),
            Piece::Text(b" width "),
            Piece::Number(u64::from(header.width)),
            Piece::Text(b" height "),
            Piece::Number(u64::from(header.height)),
            Piece::Text(b" verts "),
            Piece::Number(u64::from(header.vertices)),
            Piece::Text(b" tris "),
            Piece::Number(u64::from(header.triangles)),
            Piece::Text(b" frames "),
            Piece::Number(u64::from(header.frames)),
            Piece::Text(b" pictures "),
            Piece::Number(u64::from(header.pictures)),
            Piece::Text(b" poses "),
            Piece::Number(u64::from(header.poses)),
            Piece::Text(b"\n"),
        ],
    )
}

// Puts `sprite NAME type A frames B pictures C`.
pub(crate) fn info_sprite<O: Sink>(
    name: &GameName,
    image: &[u8],
    out: &mut O,
) -> Result<(), SinkFailed>
    requires { 36 ≤ length image.now }
    ensures { PutsText O.Sink (sprite_text name.now (sprite_in image.now)) out.old out.new result }
{
    let header = sprite_header(image);
    put_all(
        out,
        &[
            Piece::Text(b"sprite "),
            Piece::Text(name.bytes()),
            Piece::Text(b" type "),
            Piece::Number(u64::from(header.kind)),
            Piece::Text(b" frames "),
            Piece::Number(u64::from(header.frames)),
            Piece::Text(b" pictures "),
            Piece::Number(u64::from(header.pictures)),
            Piece::Text(b"\n"),
        ],
    )
}

// Puts `sound NAME length L loop P speed S width W`.
pub(crate) fn info_sound<O: Sink>(
    name: &GameName,
    image: &[u8],
    out: &mut O,
) -> Result<(), SinkFailed>
    requires { 20 ≤ length image.now }
    ensures { PutsText O.Sink (sound_text name.now (sound_in image.now)) out.old out.new result }
{
    let header = sound_header(image);
    put_all(
        out,
        &[
            Piece::Text(b"sound "),
            Piece::Text(name.bytes()),
            Piece::Text(b" length "),
            Piece::Number(u64::from(header.length)),
            Piece::Text(b" loop "),
            number_or_none(header.loop_start),
            Piece::Text(b" speed "),
            Piece::Number(u64::from(header.speed)),
            Piece::Text(b" width "),
            Piece::Number(u64::from(header.width)),
            Piece::Text(b"\n"),
        ],
    )
}

/// Puts what the image of a resource says of it.
///
/// - Of a brush model it is `brush NAME planes A vertexes B nodes C texinfos D faces E clipnodes F leafs G marksurfaces H
///   edges I surfedges J models K textures T visleafs V` in one line: how many of each it has, and how many leafs can be
///   seen in its first model. Then comes a line for each texture, in order: `texture I NAME W H total A min B max C next
///   N alternate M` with its number from 0 on, its name, its width and its height, and its animation, or
///   `texture I missing`. The name is shown as that of a lump.
/// - Of an alias model it is `alias NAME skins A width B height C verts D tris E frames F pictures G poses H`: how many
///   skins it has, the width and the height of their pictures, the vertices of a pose, how many triangles and frames it
///   has, the pictures of all skins, and the poses of all frames.
/// - Of a sprite it is `sprite NAME type A frames B pictures C`: how it is turned to the view, how many frames it has,
///   and the pictures of all frames.
/// - Of a wad it is `wad NAME lumps N`, how many lumps it has, and then a line for each row of its table, in order:
///   `lump I LUMP type T size S compression C`, with the number of the row from 0 on, the name, the type, the length of
///   the lump in bytes once it is unpacked, and how it is compressed, 0 for not at all. The name ends at its first zero
///   byte, and has `?` for a byte outside 32 to 126.
/// - Of a sound it is `sound NAME length L loop P speed S width W`: its length in samples, the sample at which its loop
///   begins or `none`, its samples a second, and the bytes of a sample.
///
/// It takes no memory. After an error a front of the text was put.
pub fn info<O: Sink>(
    kind: Kind,
    name: &GameName,
    image: &[u8],
    out: &mut O,
) -> Result<(), SinkFailed>
    requires { IsImage kind image.now }
    ensures { PutsText O.Sink (info_text kind name.now image.now) out.old out.new result }
{
    match kind {
        Kind::Brush => info_brush(name, image, out),
        Kind::Alias => info_alias(name, image, out),
        Kind::Sprite => info_sprite(name, image, out),
        Kind::Wad => info_wad(name, image, out),
        Kind::Sound => info_sound(name, image, out),
    }
}
