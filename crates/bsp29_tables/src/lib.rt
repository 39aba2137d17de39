//! The checks of brush models: maps, and the models that are kept in files of the same kind.
//!
//! A file begins with a header of 124 bytes: the version, which is 29, and for each of 15 lumps where it begins in the
//! file and how many bytes it has. Numbers have four bytes where nothing else is said, and their lowest byte first.
//! The lumps are, in the order of the header:
//!
//! - entities: bytes that aren't read;
//! - planes, of 20 bytes each;
//! - textures: their count, for each where it begins in the lump or 0xFFFFFFFF where it is missing, and the textures.
//!   A texture is a name of 16 bytes, its width, its height, 16 bytes that aren't read, and its pixels: a picture, and
//!   three smaller ones, each with half the sides of the one before. A name ends before its first zero byte. Where it
//!   begins with `+` the texture is a frame of an animation: the byte behind it tells the frame, a digit or a letter
//!   from A to J, large or small, and the textures with the same bytes behind that are a group. Of the same frame of a
//!   group the last texture counts. The digits of a group are one animation, and its letters another;
//! - vertexes, of 12 bytes each;
//! - visibility: bytes that aren't read;
//! - nodes, of 24 bytes each: a plane, at 4 two children of two bytes each, at 20 a first face and a count of faces of
//!   two bytes each. A child is a node, or below 0 the leaf -1 - c;
//! - texinfos, of 40 bytes each: at 32 a texture;
//! - faces, of 20 bytes each: a plane of two bytes, at 4 a first surfedge, at 8 a count of surfedges and at 10 a
//!   texinfo of two bytes each;
//! - lighting: bytes that aren't read;
//! - clipnodes, of 8 bytes each: a plane, and two children of two bytes each. A child is a clipnode, or below 0 it
//!   tells contents;
//! - leafs, of 28 bytes each: contents, from -32768 to -1, and at 20 a first marksurface and a count of marksurfaces
//!   of two bytes each;
//! - marksurfaces, each the two bytes of a face;
//! - edges, of two vertexes of two bytes each;
//! - surfedges, each an edge, or below 0 one that is walked backwards;
//! - models, of 64 bytes each: at 52 how many leafs can be seen, which counts in the first model, and at 56 a first
//!   face and a count of faces.
//!
//! The image of a brush model, which `bsp29_build` makes, is only measured here. It has 132 bytes and then the lumps in
//! the same order, where planes and faces have 24 bytes each, nodes 28 and leafs 32, and textures 68 each, with the
//! pixels of all of them behind; and at its end a clipnode of 8 bytes for each node.
#![tactic(auto)]

ghost use Rattle.std.specs.Prelude.{◌≡◌};
ghost use Rattle.bsp29_tables.specs.Order.{check_of};

mod cycles;
mod fault;
mod groups;
mod laws;
mod lumps;
mod names;
mod rows;
mod size;
mod textures;

pub use cycles::{Animations, Cycle};
use cycles::{check_animations, check_frames};
pub use fault::BspFault;
pub use laws::{first_faults, sound_files};
use lumps::{check_header, check_lumps, check_models};
pub use lumps::{Lump, count, lump_bytes};
use rows::check_rows;
use size::check_size;
pub use size::{image_size, section_size};
pub use textures::{MISSING, pixels_at, texture_count, texture_offset};
use textures::{check_table, check_textures};

/// The first fault of a brush model's file, in the order of [`BspFault`], if it has one.
#[tactic(auto, unfolding(crate::specs::Order::check_of))]
pub fn check_bsp(src: &[u8]) -> Result<(), BspFault>
    ensures { result ≡ check_of src.now }
{
    check_header(src)?;
    check_lumps(src)?;
    check_models(src)?;
    let textures = lump_bytes(src, Lump::Textures);
    check_table(textures)?;
    check_textures(textures)?;
    check_animations(textures)?;
    check_frames(textures)?;
    check_rows(src)?;
    check_size(src)
}

#[cfg(test)]
mod tests;
