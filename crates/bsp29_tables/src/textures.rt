// The texture lump.
ghost use Rattle.std.specs.Prelude.{◌≡◌, ◌≤◌, ◌<◌, ◌^◌, length, slice_index};
ghost use Rattle.bsp29_tables.specs.Checks.{fine};
ghost use Rattle.bsp29_tables.specs.Textures.{texture_count, told_count, texture_offsets, is_bad_side};
ghost use Rattle.bsp29_tables.specs.Textures.{table_check, texture_check, textures_check};
ghost use Rattle.bsp29_tables.specs.Textures.{pixel_count, pixels_at, all_pixels, HasTexture};

use crate::fault::BspFault;
use base_fields::u32_at;

/// The offset of a texture that is missing.
pub const MISSING: u32 = 0xffff_ffff;

// The most textures, and the greatest width and height.
const MOST: u32 = 4096;

const LARGEST: u32 = 16384;

// The count of textures is there, and their offsets are.
#[tactic(auto, unfolding(crate::specs::Textures::table_check))]
pub(crate) fn check_table(lump: &[u8]) -> Result<(), BspFault>
    ensures { result ≡ table_check lump.now }
{
    if lump.is_empty() {
        return Ok(());
    }
    if lump.len() < 4 {
        return Err(BspFault::TextureTable);
    }
    let count = u32_at(lump, 0);
    if count > MOST || lump.len() < 4 * count as usize + 4 {
        return Err(BspFault::TextureTable);
    }
    Ok(())
}

/// How many textures there are.
#[tactic(auto, unfolding(crate::specs::Textures::texture_count))]
pub fn texture_count(lump: &[u8]) -> u32
    requires { table_check lump.now ≡ fine }
    ensures count { result ≡ texture_count lump.now }
    ensures few { result ≤ 4096 }
{
    if lump.is_empty() { 0 } else { u32_at(lump, 0) }
}

// The same, where there is a lump.
pub(crate) fn told_count(lump: &[u8]) -> Option<u32>
    requires { table_check lump.now ≡ fine }
    ensures { result ≡ told_count lump.now }
{
    if lump.is_empty() {
        None
    } else {
        Some(texture_count(lump))
    }
}

/// Where in the lump a texture begins: 0xFFFFFFFF where it is missing.
pub fn texture_offset(lump: &[u8], texture: u32) -> u32
    requires table { table_check lump.now ≡ fine }
    requires below { texture < texture_count lump.now }
    ensures { result ≡ slice_index (texture_offsets lump.now) texture }
{
    u32_at(lump, 4 * texture as usize + 4)
}

fn is_bad_side(side: u32) -> bool
    ensures { result ≡ is_bad_side side }
{
    side % 16 != 0 || side > LARGEST
}

// The bytes of the pixels of a texture.
fn pixel_count(width: u32, height: u32) -> u32
    requires width { width ≤ 16384 }
    requires height { height ≤ 16384 }
    ensures { result ≡ pixel_count width height }
{
    width * height / 64 * 85
}

// A texture lies in the lump, and its sides are allowed.
#[tactic(auto, unfolding(crate::specs::Textures::texture_check))]
fn check_texture(lump: &[u8], texture: u32, at: u32) -> Result<(), BspFault>
    ensures { result ≡ texture_check lump.now texture at }
{
    if at == MISSING {
        return Ok(());
    }
    let at = at as usize;
    if lump.len() < at + 40 {
        return Err(BspFault::TextureOutside { texture });
    }
    let width = u32_at(lump, at + 16);
    let height = u32_at(lump, at + 20);
    if is_bad_side(width) || is_bad_side(height) {
        return Err(BspFault::TextureSize { texture });
    }
    if lump.len() < at + 40 + pixel_count(width, height) as usize {
        return Err(BspFault::TextureOutside { texture });
    }
    Ok(())
}

// The textures, one by one.
pub(crate) fn check_textures(lump: &[u8]) -> Result<(), BspFault>
    requires { table_check lump.now ≡ fine }
    ensures { result ≡ textures_check lump.now }
{
    for texture in 0..texture_count(lump) {
        check_texture(lump, texture, texture_offset(lump, texture))?;
    }
    Ok(())
}

/// How many bytes the pixels of a texture have that begins there: none where it is missing.
#[tactic(auto, unfolding(crate::specs::Textures::pixels_at))]
pub fn pixels_at(lump: &[u8], at: u32) -> u32
    requires { HasTexture lump.now at }
    ensures { result ≡ pixels_at lump.now at }
{
    if at == MISSING {
        return 0;
    }
    let at = at as usize;
    pixel_count(u32_at(lump, at + 16), u32_at(lump, at + 20))
}

// The pixels of all textures.
pub(crate) fn all_pixels(lump: &[u8]) -> u64
    requires short { length lump.now < 2 ^ 32 }
    requires table { table_check lump.now ≡ fine }
    requires textures { textures_check lump.now ≡ fine }
    ensures sum { result ≡ all_pixels lump.now }
    ensures short { result < 2 ^ 45 }
{
    let mut total = 0;
    for texture in 0..texture_count(lump) {
        total += u64::from(pixels_at(lump, texture_offset(lump, texture)));
    }
    total
}
