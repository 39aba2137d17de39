// The pixels of pictures.
ghost use Rattle.std.specs.Prelude.{◌≡◌, ℕ, ◌≤◌, ◌^◌, length, Result, IfOk};
ghost use Rattle.part_plan.specs.Plan.{run};
ghost use Rattle.sprite_load.specs.Parts.{pictures, frames};
ghost use Rattle.sprite_load.specs.Images.{all_timed, all_pixels, picture_pixels};
ghost use Rattle.sprite_load.specs.Sizes.{IsSized, IsCounted};

use crate::parts::{read_head, read_picture};
use crate::sizes::{Sizes, skip_frame};

// The pixels of a frame's pictures.
#[tactic(auto, unfolding(crate::specs::Parts::pictures))]
fn put_pixels(block: &mut [u8], count: u32, row: u32, source: &[u8])
    requires counted { IsCounted count row source.now (length block.old) }
    ensures { IfOk (run (pictures count row) source.now) (λ a. block.new ≡ picture_pixels a.0) }
{
    let mut at = 0;
    let mut rest = source;
    for _i in 0..count {
        let (picture, after) = match read_picture(row, rest) {
            Ok(read) => read,
            Err(_) => return,
        };
        let end = at + picture.pixels.len();
        block[at..end].copy_from_slice(picture.pixels);
        at = end;
        rest = after;
    }
}

// The pixels of all pictures.
#[tactic(auto, unfolding(crate::specs::Parts::frames))]
pub(crate) fn put_all_pixels(block: &mut [u8], count: u32, sizes: Sizes, source: &[u8])
    requires small { length source.now ≤ 2 ^ 26 }
    requires sized { length block.old ≡ sizes.pixels }
    requires counted { IsSized count source.now sizes }
    ensures { IfOk (run (frames count) source.now) (λ a. block.new ≡ all_pixels (all_timed a.0)) }
{
    let mut done = Sizes {
        pictures: 0,
        pixels: 0,
    };
    let mut rest = source;
    for row in 0..count {
        let (size, after) = match skip_frame(row, rest) {
            Ok(read) => read,
            Err(_) => return,
        };
        let (_, inner) = match read_head(row, rest) {
            Ok(opening) => opening,
            Err(_) => return,
        };
        let end = done.pixels + size.pixels;
        put_pixels(&mut block[done.pixels..end], size.count, row, inner);
        done = Sizes {
            pictures: done.pictures + size.count,
            pixels: end,
        };
        rest = after;
    }
}
