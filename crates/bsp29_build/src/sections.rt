// The sections of an image.
ghost use Rattle.std.specs.Prelude.{◌≡◌, ◌<◌, ◌^◌, ◌+◌, length};
ghost use Rattle.bsp29_tables.specs.Checks.{fine};
ghost use Rattle.bsp29_tables.specs.Order.{check_of};
ghost use Rattle.bsp29_tables.specs.Sizes.{section_size};
ghost use Rattle.bsp29_build.specs.Sections.{count_in, size_in, lump_section, bytes_in};

use crate::faces::put_faces;
use crate::hull::put_hull;
use crate::parents::{put_leafs, put_nodes};
use crate::planes::put_planes;
use crate::textures::put_textures;
use bsp29_tables::{Lump, count, lump_bytes, section_size, texture_count};

/// A section of an image: that of a lump, or hull 0, which has a clipnode for each node.
#[derive(Clone, Copy, Debug)]
pub(crate) enum Section {
    Of(Lump),
    Hull,
}

/// The sections in the order of the image.
pub(crate) const SECTIONS: [Section; 16] = [
    Section::Of(Lump::Entities),
    Section::Of(Lump::Planes),
    Section::Of(Lump::Textures),
    Section::Of(Lump::Vertexes),
    Section::Of(Lump::Visibility),
    Section::Of(Lump::Nodes),
    Section::Of(Lump::Texinfos),
    Section::Of(Lump::Faces),
    Section::Of(Lump::Lighting),
    Section::Of(Lump::Clipnodes),
    Section::Of(Lump::Leafs),
    Section::Of(Lump::Marksurfaces),
    Section::Of(Lump::Edges),
    Section::Of(Lump::Surfedges),
    Section::Of(Lump::Models),
    Section::Hull,
];

impl Section {
    // How many rows it has.
    #[tactic(auto, using(crate::proofs::FineLaws::fine_laws))]
    pub(crate) fn count(self, src: &[u8]) -> u32
        requires { check_of src.now ≡ fine }
        ensures { result ≡ count_in src.now self }
    {
        match self {
            Section::Of(Lump::Textures) => texture_count(lump_bytes(src, Lump::Textures)),
            Section::Of(lump) => count(src, lump),
            Section::Hull => count(src, Lump::Nodes),
        }
    }

    // How many bytes it has.
    #[tactic(auto, using(crate::proofs::FineLaws::fine_laws))]
    pub(crate) fn length(self, src: &[u8]) -> u64
        requires { check_of src.now ≡ fine }
        ensures bytes { result ≡ size_in src.now self }
        ensures short { result < 2 ^ 46 }
    {
        match self {
            Section::Of(lump) => section_size(src, lump),
            Section::Hull => 8 * u64::from(count(src, Lump::Nodes)),
        }
    }
}

// The section of a lump, which begins there in the image.
#[tactic(auto, using(crate::proofs::FineLaws::fine_laws, crate::proofs::FineLaws::room_laws, crate::proofs::Passing::children_laws))]
fn put_lump(src: &[u8], start: u32, lump: Lump, out: &mut [u8])
    requires fine { check_of src.now ≡ fine }
    requires small { start + length out.old < 2 ^ 31 }
    requires room { length out.old ≡ section_size src.now lump }
    ensures { out.new ≡ lump_section src.now start lump }
{
    let bytes = lump_bytes(src, lump);
    match lump {
        Lump::Planes => put_planes(bytes, out),
        Lump::Textures => put_textures(bytes, start, out),
        Lump::Nodes => put_nodes(bytes, out),
        Lump::Faces => put_faces(
            lump_bytes(src, Lump::Textures),
            lump_bytes(src, Lump::Texinfos),
            bytes,
            out,
        ),
        Lump::Leafs => put_leafs(lump_bytes(src, Lump::Nodes), bytes, out),
        _ => out.copy_from_slice(bytes),
    }
}

// A section, which begins there in the image.
#[tactic(auto, using(crate::proofs::FineLaws::fine_laws, crate::proofs::FineLaws::room_laws, crate::proofs::Passing::children_laws), unfolding(crate::specs::Sections::bytes_in))]
pub(crate) fn put_section(src: &[u8], start: u32, section: Section, out: &mut [u8])
    requires fine { check_of src.now ≡ fine }
    requires small { start + length out.old < 2 ^ 31 }
    requires room { length out.old ≡ size_in src.now section }
    ensures { out.new ≡ bytes_in src.now start section }
{
    match section {
        Section::Of(lump) => put_lump(src, start, lump, out),
        Section::Hull => put_hull(
            lump_bytes(src, Lump::Nodes),
            lump_bytes(src, Lump::Leafs),
            out,
        ),
    }
}
