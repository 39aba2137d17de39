// What a brush model says of itself.
ghost use Rattle.std.specs.Prelude.{◌≡◌, ◌<◌, ◌≤◌, length, decimal, None};
ghost use Rattle.bsp29_build.specs.Readers.{count_told, visleafs_told, IsBrush};
ghost use Rattle.reply_pieces.specs.Pieces.{piece_text, PutsText};
ghost use Rattle.info_text.specs.Brushes.{brush_text, nodes_text, surfaces_text, texture_line, texture_text, textures_text};

use crate::lump_names::shown;
use crate::numbers::number_or_none;
use base_fields::GameName;
use bsp29_build::{BrushTexture, count, texture, visleafs};
use outside_io::{Sink, SinkFailed};
use reply_pieces::{Piece, put_all};

// How many rows a section has.
fn rows(image: &[u8], section: u32) -> Piece<'static>
    requires section { section < 16 }
    requires header { 132 ≤ length image.now }
    ensures { piece_text result ≡ decimal (count_told image.now section) }
{
    Piece::Number(u64::from(count(image, section)))
}

// How many leafs can be seen.
fn seen_leafs(image: &[u8]) -> Piece<'static>
    requires { IsBrush image.now }
    ensures { piece_text result ≡ decimal (visleafs_told image.now) }
{
    Piece::Number(u64::from(visleafs(image)))
}

fn put_nodes<O: Sink>(name: &GameName, image: &[u8], out: &mut O) -> Result<(), SinkFailed>
    requires { 132 ≤ length image.now }
    ensures { PutsText O.Sink (nodes_text name.now image.now) out.old out.new result }
{
    put_all(
        out,
        &[
            Piece::Text(b"brush "),
            Piece::Text(name.bytes()),
            Piece::Text(b" planes "),
            rows(image, 1),
            Piece::Text(b" vertexes "),
            rows(image, 3),
            Piece::Text(b" nodes "),
            rows(image, 5),
            Piece::Text(b" texinfos "),
            rows(image, 6),
            Piece::Text(b" faces "),
            rows(image, 7),
            Piece::Text(b" clipnodes "),
            rows(image, 9),
            Piece::Text(b" leafs "),
            rows(image, 10),
        ],
    )
}

#[tactic(auto, using(crate::proofs::BrushLaws::brush_laws))]
fn put_surfaces<O: Sink>(image: &[u8], out: &mut O) -> Result<(), SinkFailed>
    requires { IsBrush image.now }
    ensures { PutsText O.Sink (surfaces_text image.now) out.old out.new result }
{
    put_all(
        out,
        &[
            Piece::Text(b" marksurfaces "),
            rows(image, 11),
            Piece::Text(b" edges "),
            rows(image, 12),
            Piece::Text(b" surfedges "),
            rows(image, 13),
            Piece::Text(b" models "),
            rows(image, 14),
            Piece::Text(b" textures "),
            rows(image, 2),
            Piece::Text(b" visleafs "),
            seen_leafs(image),
            Piece::Text(b"\n"),
        ],
    )
}

fn put_missing<O: Sink>(number: u32, out: &mut O) -> Result<(), SinkFailed>
    ensures { PutsText O.Sink (texture_text number None) out.old out.new result }
{
    put_all(
        out,
        &[
            Piece::Text(b"texture "),
            Piece::Number(u64::from(number)),
            Piece::Text(b" missing\n"),
        ],
    )
}

fn put_present<O: Sink>(
    number: u32,
    name: &[u8],
    texture: &BrushTexture,
    out: &mut O,
) -> Result<(), SinkFailed>
    ensures { PutsText O.Sink (texture_line number name.now texture.now) out.old out.new result }
{
    put_all(
        out,
        &[
            Piece::Text(b"texture "),
            Piece::Number(u64::from(number)),
            Piece::Text(b" "),
            Piece::Text(name),
            Piece::Text(b" "),
            Piece::Number(u64::from(texture.width)),
            Piece::Text(b" "),
            Piece::Number(u64::from(texture.height)),
            Piece::Text(b" total "),
            Piece::Number(u64::from(texture.cycle.total)),
            Piece::Text(b" min "),
            Piece::Number(u64::from(texture.cycle.least)),
            Piece::Text(b" max "),
            Piece::Number(u64::from(texture.cycle.greatest)),
            Piece::Text(b" next "),
            number_or_none(texture.cycle.next),
            Piece::Text(b" alternate "),
            number_or_none(texture.cycle.alternate),
            Piece::Text(b"\n"),
        ],
    )
}

fn put_texture<O: Sink>(
    number: u32,
    texture: Option<BrushTexture>,
    out: &mut O,
) -> Result<(), SinkFailed>
    ensures { PutsText O.Sink (texture_text number texture) out.old out.new result }
{
    match texture {
        Some(texture) => put_present(number, &shown(&texture.name), &texture, out),
        None => put_missing(number, out),
    }
}

#[tactic(auto, using(crate::proofs::BrushLaws::brush_laws))]
fn put_textures<O: Sink>(image: &[u8], out: &mut O) -> Result<(), SinkFailed>
    requires { IsBrush image.now }
    ensures { PutsText O.Sink (textures_text image.now) out.old out.new result }
{
    for number in 0..count(image, 2) {
        put_texture(number, texture(image, number), out)?;
    }
    Ok(())
}

// Puts how many rows the tables of a brush model have, and a line for each texture.
#[tactic(auto, using(crate::proofs::BrushLaws::brush_laws))]
pub(crate) fn info_brush<O: Sink>(
    name: &GameName,
    image: &[u8],
    out: &mut O,
) -> Result<(), SinkFailed>
    requires { IsBrush image.now }
    ensures { PutsText O.Sink (brush_text name.now image.now) out.old out.new result }
{
    put_nodes(name, image, out)?;
    put_surfaces(image, out)?;
    put_textures(image, out)
}
