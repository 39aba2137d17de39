// How many pictures and pixels there are.
ghost use Rattle.std.specs.Prelude.{◌≡◌, ℕ, ◌+◌, ◌*◌, ◌≤◌, ◌^◌, length, Result, IfOk, if◌then◌else◌};
ghost use Rattle.part_plan.specs.Plan.{run, seen, folding, viewed};
ghost use Rattle.sprite_load.specs.Parts.{pictures, frame, frames};
ghost use Rattle.sprite_load.specs.Sizes.{add_pixels, size_of, add_frame, no_sizes};

use crate::fault::SpriteFault;
use crate::parts::{read_head, read_picture};

/// What a frame adds to the sizes.
#[derive(Clone, Copy)]
pub(crate) struct FrameSize {
    // 1 for a group, else 0
    pub(crate) group: u32,
    // of its pictures
    pub(crate) count: u32,
    pub(crate) pixels: usize,
}

/// How many pictures and pixels there are.
#[derive(Clone, Copy)]
pub(crate) struct Sizes {
    pub(crate) pictures: u32,
    pub(crate) pixels: usize,
}

// How many pixels so many pictures have, and what follows them.
#[tactic(auto, using(crate::proofs::FrameLaws::picture_laws), unfolding(crate::specs::Parts::pictures))]
fn skip_pictures(count: u32, row: u32, source: &[u8]) -> Result<(usize, &[u8]), SpriteFault>
    ensures value { seen (λ x. (x.0, x.1.now)) result ≡ folding add_pixels 0 (run (pictures count row) source.now) }
    ensures taken { IfOk result (λ x. 16 * count + x.0 + length x.1.now ≤ length source.now) }
{
    let mut pixels = 0;
    let mut rest = source;
    for _ in 0..count {
        let (picture, after) = read_picture(row, rest)?;
        pixels += picture.pixels.len();
        rest = after;
    }
    Ok((pixels, rest))
}

fn group_word(single: bool) -> u32
    ensures { result ≡ (if single then 0 else 1) }
{
    if single { 0 } else { 1 }
}

// The size of a frame, and what follows it.
#[tactic(auto, using(crate::proofs::FrameLaws::frame_laws))]
pub(crate) fn skip_frame(row: u32, source: &[u8]) -> Result<(FrameSize, &[u8]), SpriteFault>
    ensures value { seen (λ x. (x.0, x.1.now)) result ≡ viewed size_of (run (frame row) source.now) }
    ensures taken { IfOk result (λ x. 16 * x.0.count + x.0.pixels + length x.1.now ≤ length source.now) }
{
    let (head, rest) = read_head(row, source)?;
    let (pixels, rest) = skip_pictures(head.number, row, rest)?;
    let group = group_word(head.single);
    Ok((
        FrameSize {
            group,
            count: head.number,
            pixels,
        },
        rest,
    ))
}

// The sizes of so many frames, and what follows them.
#[tactic(auto, using(crate::proofs::FrameLaws::all_frame_laws), unfolding(crate::specs::Parts::frames))]
pub(crate) fn measure_frames(count: u32, source: &[u8]) -> Result<(Sizes, &[u8]), SpriteFault>
    requires { length source.now ≤ 2 ^ 26 }
    ensures value { seen (λ x. (x.0, x.1.now)) result ≡ folding add_frame no_sizes (run (frames count) source.now) }
    ensures taken { IfOk result (λ x. 16 * x.0.pictures + x.0.pixels + length x.1.now ≤ length source.now) }
{
    let mut sizes = Sizes {
        pictures: 0,
        pixels: 0,
    };
    let mut rest = source;
    for row in 0..count {
        let (size, after) = skip_frame(row, rest)?;
        sizes = Sizes {
            pictures: sizes.pictures + size.count,
            pixels: sizes.pixels + size.pixels,
        };
        rest = after;
    }
    Ok((sizes, rest))
}
