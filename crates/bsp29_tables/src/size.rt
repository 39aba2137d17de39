// How long an image is.
ghost use Rattle.std.specs.Prelude.{◌≡◌, ◌≤◌, ◌<◌, ◌^◌, length};
ghost use Rattle.bsp29_tables.specs.declared.lumps.Lump.TheVariants.{Textures};
ghost use Rattle.bsp29_tables.specs.Checks.{fine};
ghost use Rattle.bsp29_tables.specs.Lumps.{lump_of};
ghost use Rattle.bsp29_tables.specs.Textures.{table_check, textures_check};
ghost use Rattle.bsp29_tables.specs.Sizes.{textures_size, section_row_size, section_size, image_size, size_check};

use crate::fault::BspFault;
use crate::lumps::{LUMPS, Lump, count, lump_bytes};
use crate::textures::{all_pixels, texture_count};

// The bytes of a row in the image.
fn section_row_size(lump: Lump) -> u32
    ensures size { result ≡ section_row_size lump }
    ensures few { result ≤ 64 }
{
    match lump {
        Lump::Planes | Lump::Faces => 24,
        Lump::Nodes => 28,
        Lump::Leafs => 32,
        _ => lump.row_size(),
    }
}

// The rows of the textures, and their pixels.
fn textures_size(lump: &[u8]) -> u64
    requires short { length lump.now < 2 ^ 32 }
    requires table { table_check lump.now ≡ fine }
    requires textures { textures_check lump.now ≡ fine }
    ensures bytes { result ≡ textures_size lump.now }
    ensures short { result < 2 ^ 46 }
{
    68 * u64::from(texture_count(lump)) + all_pixels(lump)
}

/// The bytes that all rows of a lump have in the image.
#[tactic(auto, unfolding(crate::specs::Sizes::section_size))]
pub fn section_size(src: &[u8], lump: Lump) -> u64
    requires long { 124 ≤ length src.now }
    requires table { table_check (lump_of src.now Textures) ≡ fine }
    requires textures { textures_check (lump_of src.now Textures) ≡ fine }
    ensures bytes { result ≡ section_size src.now lump }
    ensures short { result < 2 ^ 46 }
{
    match lump {
        Lump::Textures => textures_size(lump_bytes(src, lump)),
        _ => u64::from(section_row_size(lump)) * u64::from(count(src, lump)),
    }
}

/// The length of the image in bytes.
#[tactic(auto, unfolding(crate::specs::Sizes::image_size))]
pub fn image_size(src: &[u8]) -> u64
    requires long { 124 ≤ length src.now }
    requires table { table_check (lump_of src.now Textures) ≡ fine }
    requires textures { textures_check (lump_of src.now Textures) ≡ fine }
    ensures { result ≡ image_size src.now }
{
    let mut total = 132 + 8 * u64::from(count(src, Lump::Nodes));
    for lump in LUMPS {
        total += section_size(src, lump);
    }
    total
}

// The image has fewer than 2 ^ 31 bytes.
pub(crate) fn check_size(src: &[u8]) -> Result<(), BspFault>
    requires long { 124 ≤ length src.now }
    requires table { table_check (lump_of src.now Textures) ≡ fine }
    requires textures { textures_check (lump_of src.now Textures) ≡ fine }
    ensures { result ≡ size_check src.now }
{
    if image_size(src) >= 1 << 31 {
        return Err(BspFault::TooLarge);
    }
    Ok(())
}
