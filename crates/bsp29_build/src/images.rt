// The image of a brush model.
ghost use Rattle.std.specs.Prelude.{◌≡◌, length};
ghost use Rattle.bsp29_tables.specs.Checks.{fine};
ghost use Rattle.bsp29_tables.specs.Order.{check_of};
ghost use Rattle.bsp29_tables.specs.Sizes.{image_size};
ghost use Rattle.base_fields.specs.Fields.{u32_bytes};
ghost use Rattle.std.specs.Prelude.{◌+◌, ◌++◌};
ghost use Rattle.bsp29_build.specs.Sections.{all_sections};
ghost use Rattle.bsp29_build.specs.Images.{header_from, sections_from, image};

use crate::sections::{SECTIONS, put_section};
use base_fields::fill_u32;

// The bytes of the version and of a place and a count for each section.
const HEADER: usize = 132;

const VERSION: u32 = 29;

// Where a section begins, and how many rows it has.
fn put_pair(pair: &mut [u8], start: u32, count: u32)
    requires { length pair.old ≡ 8 }
    ensures { pair.new ≡ u32_bytes start ++ u32_bytes count }
{
    let (place, rows) = pair.split_at_mut(4);
    fill_u32(place, start);
    fill_u32(rows, count);
}

// Where each section begins, and how many rows it has.
fn put_header(src: &[u8], pairs: &mut [u8])
    requires fine { check_of src.now ≡ fine }
    requires room { length pairs.old ≡ 128 }
    ensures { pairs.new ≡ header_from src.now 132 all_sections }
{
    let mut start = HEADER as u32;
    let mut at = 0;
    for section in SECTIONS {
        put_pair(&mut pairs[at..at + 8], start, section.count(src));
        start += section.length(src) as u32;
        at += 8;
    }
}

// The sections, one behind the other.
fn put_sections(src: &[u8], out: &mut [u8])
    requires fine { check_of src.now ≡ fine }
    requires room { 132 + length out.old ≡ image_size src.now }
    ensures { out.new ≡ sections_from src.now 132 all_sections }
{
    let mut at = 0;
    for section in SECTIONS {
        let end = at + section.length(src) as usize;
        put_section(src, (HEADER + at) as u32, section, &mut out[at..end]);
        at = end;
    }
}

/// The block becomes the image of a file without a fault.
#[tactic(auto, unfolding(crate::specs::Images::image), using(crate::proofs::FineLaws::size_laws))]
pub(crate) fn put_image(src: &[u8], block: &mut [u8])
    requires fine { check_of src.now ≡ fine }
    requires room { length block.old ≡ image_size src.now }
    ensures { block.new ≡ image src.now }
{
    let (version, rest) = block.split_at_mut(4);
    let (pairs, sections) = rest.split_at_mut(128);
    fill_u32(version, VERSION);
    put_header(src, pairs);
    put_sections(src, sections);
}
