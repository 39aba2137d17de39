// The builder of sprites.
ghost use Rattle.std.specs.Prelude.{◌≡◌, ℕ, ◌+◌, ◌*◌, ◌≤◌, ◌^◌, List, length, Result, Ok, IsOkAnd, IfOk};
ghost use Rattle.mem_model.specs.Images.{image_size};
ghost use Rattle.part_plan.specs.Plan.{run};
ghost use Rattle.sprite_load.specs.Parts.{frames};
ghost use Rattle.sprite_load.specs.Images.{image_from, image_of};
ghost use Rattle.sprite_load.specs.Sizes.{IsSized};

use crate::fault::SpriteFault;
use crate::parts::read_header;
use crate::pixels::put_all_pixels;
use crate::rows::{put_frame_rows, put_picture_rows};
use crate::sizes::{Sizes, measure_frames};
use base_fields::{fill_u32, u32_at};
use mem_model::Builder;

/// Makes the images of sprites.
#[derive(Clone, Copy, Debug)]
pub struct SpriteBuilder;

// The length of the image in bytes.
fn image_length(source: &[u8]) -> Result<u64, SpriteFault>
    requires { length source.now ≤ 2 ^ 26 }
    ensures { result ≡ image_size (image_of source.now) }
{
    let (header, body) = read_header(source)?;
    let count = u32_at(header, 24);
    let (sizes, _) = measure_frames(count, body)?;
    Ok(36 + 12 * u64::from(count) + 24 * u64::from(sizes.pictures) + sizes.pixels as u64)
}

// The parts of the image, of so many frames of these sizes.
#[tactic(auto, using(crate::proofs::Joining::joined))]
fn put_parts(block: &mut [u8], header: &[u8], count: u32, sizes: Sizes, body: &[u8])
    requires small { length body.now ≤ 2 ^ 26 }
    requires header { length header.now ≡ 36 }
    requires few { count ≤ 1024 }
    requires room { 16 * sizes.pictures + sizes.pixels ≤ length body.now }
    requires sized { length block.old ≡ 36 + 12 * count + 24 * sizes.pictures + sizes.pixels }
    requires counted { IsSized count body.now sizes }
    ensures { IfOk (run (frames count) body.now) (λ a. block.new ≡ image_from header.now count sizes.pictures a.0) }
{
    let (word, rest) = block.split_at_mut(4);
    let (fields, rest) = rest.split_at_mut(28);
    let (number, rest) = rest.split_at_mut(4);
    let (rows, rest) = rest.split_at_mut(12 * count as usize);
    let (places, pixels) = rest.split_at_mut(24 * sizes.pictures as usize);
    fill_u32(word, 3);
    fields.copy_from_slice(&header[8..]);
    fill_u32(number, sizes.pictures);
    put_frame_rows(rows, count, body);
    let pixels_at = 36 + 12 * count + 24 * sizes.pictures;
    put_picture_rows(places, count, pixels_at, sizes, body);
    put_all_pixels(pixels, count, sizes, body);
}

// The block becomes the image.
fn put_image(block: &mut [u8], source: &[u8])
    requires small { length source.now ≤ 2 ^ 26 }
    requires image { IsOkAnd (image_of source.now) (λ image. length image ≡ length block.old) }
    ensures { image_of source.now ≡ Ok block.new }
{
    let (header, body) = match read_header(source) {
        Ok(read) => read,
        Err(_) => unreachable!(),
    };
    let count = u32_at(header, 24);
    let (sizes, _) = match measure_frames(count, body) {
        Ok(measured) => measured,
        Err(_) => unreachable!(),
    };
    put_parts(block, header, count, sizes, body);
}

impl Builder for SpriteBuilder {
    type Fault = SpriteFault;

    ghost image_of = { λ _ source. image_of source };

    fn size(&self, source: &[u8]) -> Result<u64, SpriteFault> {
        image_length(source)
    }

    fn build(&self, source: &[u8], block: &mut [u8]) {
        put_image(block, source);
    }
}
