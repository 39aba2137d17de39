// Textures: a row for each, and the pixels of all.
ghost use Rattle.std.specs.Prelude.{◌≡◌, ◌≢◌, ◌≤◌, ◌<◌, ◌^◌, ◌+◌, ◌*◌, length};
ghost use Rattle.bsp29_tables.specs.Sizes.{textures_size};
ghost use Rattle.bsp29_tables.specs.Textures.{texture_count, texture_offsets, missing, pixels_at, all_pixels, HasTexture};
ghost use Rattle.bsp29_build.specs.Textures.{IsChecked, padded, animation_numbers, present_row, texture_row, texture_rows};
ghost use Rattle.bsp29_build.specs.Textures.{texture_section, pixels_of, all_pixels_of};

use base_fields::{before_zero, fill_u32};
use bsp29_tables::{Animations, Cycle, MISSING, pixels_at, texture_count, texture_offset};

// What is told of a texture that has no place in an animation.
const NO_CYCLE: Cycle = Cycle {
    total: 0,
    least: 0,
    greatest: 0,
    next: None,
    alternate: None,
};

// The name until its first zero byte, and zeros.
#[tactic(auto, unfolding(crate::specs::Textures::padded))]
fn put_name(name: &[u8], out: &mut [u8])
    requires name { length name.now ≡ 16 }
    requires room { length out.old ≡ 16 }
    ensures { out.new ≡ padded name.now }
{
    let name = before_zero(name);
    let (front, rest) = out.split_at_mut(name.len());
    front.copy_from_slice(name);
    rest.fill(0);
}

// The five numbers of an animation.
#[tactic(auto, unfolding(crate::specs::Textures::animation_numbers))]
fn put_animation(cycle: Cycle, out: &mut [u8])
    requires { length out.old ≡ 20 }
    ensures { out.new ≡ animation_numbers cycle }
{
    let (total, rest) = out.split_at_mut(4);
    let (least, rest) = rest.split_at_mut(4);
    let (greatest, rest) = rest.split_at_mut(4);
    let (next, alternate) = rest.split_at_mut(4);
    fill_u32(total, cycle.total);
    fill_u32(least, cycle.least);
    fill_u32(greatest, cycle.greatest);
    fill_u32(next, cycle.next.unwrap_or(MISSING));
    fill_u32(alternate, cycle.alternate.unwrap_or(MISSING));
}

// The row of a texture, of whose bytes the first 40 are told, with the place of its pixels in the image.
fn put_present(pixels: u32, cycle: Cycle, texture: &[u8], row: &mut [u8])
    requires texture { length texture.now ≡ 40 }
    requires room { length row.old ≡ 68 }
    ensures { row.new ≡ present_row pixels cycle texture.now }
{
    let (name, fields) = texture.split_at(16);
    let (there, rest) = row.split_at_mut(4);
    let (name_there, rest) = rest.split_at_mut(16);
    let (fields_there, rest) = rest.split_at_mut(24);
    let (animation, place) = rest.split_at_mut(20);
    fill_u32(there, 1);
    put_name(name, name_there);
    fields_there.copy_from_slice(fields);
    put_animation(cycle, animation);
    fill_u32(place, pixels);
}

// The same of the texture that begins there, or zeros where it is missing.
#[tactic(auto, unfolding(crate::specs::Textures::texture_row))]
fn put_row(lump: &[u8], pixels: u32, cycle: Cycle, at: u32, row: &mut [u8])
    requires inside { HasTexture lump.now at }
    requires room { length row.old ≡ 68 }
    ensures { row.new ≡ texture_row lump.now pixels cycle at }
{
    if at == MISSING {
        row.fill(0);
        return;
    }
    let at = at as usize;
    put_present(pixels, cycle, &lump[at..at + 40], row);
}

// A row for each texture; the pixels begin there in the image.
fn put_rows(lump: &[u8], first: u32, out: &mut [u8])
    requires sound { IsChecked lump.now }
    requires small { first + all_pixels lump.now < 2 ^ 32 }
    requires room { length out.old ≡ 68 * texture_count lump.now }
    ensures { out.new ≡ texture_rows lump.now first 0 (texture_offsets lump.now) }
{
    let animations = Animations::find(lump);
    let mut pixels = first;
    for texture in 0..texture_count(lump) {
        let at = texture_offset(lump, texture);
        let cycle = animations.cycle(texture).unwrap_or(NO_CYCLE);
        let start = texture as usize * 68;
        put_row(lump, pixels, cycle, at, &mut out[start..start + 68]);
        pixels += pixels_at(lump, at);
    }
}

// The pixels of the texture that begins there.
#[tactic(auto, unfolding(crate::specs::Textures::pixels_of))]
fn pixels_of(lump: &[u8], at: u32) -> &[u8]
    requires { HasTexture lump.now at }
    ensures pixels { result.now ≡ pixels_of lump.now at }
    ensures length { length result.now ≡ pixels_at lump.now at }
{
    if at == MISSING {
        return &[];
    }
    let start = at as usize + 40;
    &lump[start..start + pixels_at(lump, at) as usize]
}

// The pixels of each texture, one behind the other.
fn put_pixels(lump: &[u8], out: &mut [u8])
    requires sound { IsChecked lump.now }
    requires room { length out.old ≡ all_pixels lump.now }
    ensures { out.new ≡ all_pixels_of lump.now }
{
    let mut end = 0;
    for texture in 0..texture_count(lump) {
        let pixels = pixels_of(lump, texture_offset(lump, texture));
        out[end..end + pixels.len()].copy_from_slice(pixels);
        end += pixels.len();
    }
}

/// The section of the textures, which begins there in the image.
#[tactic(auto, unfolding(crate::specs::Textures::texture_section))]
pub(crate) fn put_textures(lump: &[u8], start: u32, out: &mut [u8])
    requires sound { IsChecked lump.now }
    requires small { start + textures_size lump.now < 2 ^ 32 }
    requires room { length out.old ≡ textures_size lump.now }
    ensures { out.new ≡ texture_section lump.now start }
{
    let length = texture_count(lump) * 68;
    let (rows, pixels) = out.split_at_mut(length as usize);
    put_rows(lump, start + length, rows);
    put_pixels(lump, pixels);
}
