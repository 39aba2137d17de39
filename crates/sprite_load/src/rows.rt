// The rows of frames and of pictures.
ghost use Rattle.std.specs.Prelude.{◌≡◌, ℕ, ◌+◌, ◌*◌, ◌≤◌, ◌<◌, ◌^◌, length, Result, IfOk, drop, ◌++◌};
ghost use Rattle.base_fields.specs.Fields.{u32_in, u32_bytes};
ghost use Rattle.part_plan.specs.Plan.{run};
ghost use Rattle.sprite_load.specs.Parts.{pictures, frames};
ghost use Rattle.sprite_load.specs.Images.{three_words, frame_rows, timed, all_timed, picture_rows};
ghost use Rattle.sprite_load.specs.Sizes.{IsWhole, IsSized};

use crate::parts::{read_head, read_picture};
use crate::sizes::{Sizes, skip_frame};
use base_fields::{fill_u32, u32_at};

fn put_frame_row(block: &mut [u8], group: u32, first: u32, count: u32)
    requires { length block.old ≡ 12 }
    ensures { block.new ≡ three_words group first count }
{
    let (front, rest) = block.split_at_mut(4);
    let (middle, last) = rest.split_at_mut(4);
    fill_u32(front, group);
    fill_u32(middle, first);
    fill_u32(last, count);
}

// The rows of so many frames.
#[tactic(auto, unfolding(crate::specs::Parts::frames))]
pub(crate) fn put_frame_rows(block: &mut [u8], count: u32, source: &[u8])
    requires small { length source.now ≤ 2 ^ 26 }
    requires sized { length block.old ≡ 12 * count }
    ensures { IfOk (run (frames count) source.now) (λ a. block.new ≡ frame_rows 0 a.0) }
{
    let mut first = 0;
    let mut rest = source;
    for row in 0..count {
        let (size, after) = match skip_frame(row, rest) {
            Ok(read) => read,
            Err(_) => return,
        };
        let at = 12 * row as usize;
        put_frame_row(&mut block[at..at + 12], size.group, first, size.count);
        first += size.count;
        rest = after;
    }
}

// The interval of picture `i`, 0 where the frame has none.
#[tactic(auto, using(crate::proofs::RowLaws::interval_laws))]
fn interval_at(intervals: &[u8], count: u32, i: u32) -> u32
    requires whole { IsWhole intervals.now count }
    requires there { i < count }
    ensures { result ≡ u32_in (drop (4 * i) intervals.now) 0 }
{
    if intervals.is_empty() {
        return 0;
    }
    u32_at(intervals, 4 * i as usize)
}

fn put_picture_row(block: &mut [u8], interval: u32, head: &[u8], pixels_at: u32)
    requires sized { length block.old ≡ 24 }
    requires head { length head.now ≡ 16 }
    ensures { block.new ≡ u32_bytes interval ++ (head.now ++ u32_bytes pixels_at) }
{
    let (front, rest) = block.split_at_mut(4);
    let (middle, last) = rest.split_at_mut(16);
    fill_u32(front, interval);
    middle.copy_from_slice(head);
    fill_u32(last, pixels_at);
}

// The rows of a frame's pictures, whose pixels stand from `from` on.
#[tactic(auto, unfolding(crate::specs::Parts::pictures))]
fn put_pictures(block: &mut [u8], count: u32, row: u32, intervals: &[u8], from: u32, source: &[u8])
    requires sized { length block.old ≡ 24 * count }
    requires whole { IsWhole intervals.now count }
    requires near { from + length source.now < 2 ^ 32 }
    ensures { IfOk (run (pictures count row) source.now)
        (λ a. block.new ≡ picture_rows from (timed intervals.now a.0)) }
{
    let mut pixels_at = from;
    let mut rest = source;
    for i in 0..count {
        let (picture, after) = match read_picture(row, rest) {
            Ok(read) => read,
            Err(_) => return,
        };
        let at = 24 * i as usize;
        let interval = interval_at(intervals, count, i);
        put_picture_row(&mut block[at..at + 24], interval, picture.head, pixels_at);
        pixels_at += picture.pixels.len() as u32;
        rest = after;
    }
}

// The rows of all pictures, whose pixels stand from `from` on.
#[tactic(auto, unfolding(crate::specs::Parts::frames))]
pub(crate) fn put_picture_rows(block: &mut [u8], count: u32, from: u32, sizes: Sizes, source: &[u8])
    requires small { length source.now ≤ 2 ^ 26 }
    requires sized { length block.old ≡ 24 * sizes.pictures }
    requires near { from + length source.now < 2 ^ 32 }
    requires counted { IsSized count source.now sizes }
    ensures { IfOk (run (frames count) source.now) (λ a. block.new ≡ picture_rows from (all_timed a.0)) }
{
    let mut done = Sizes {
        pictures: 0,
        pixels: 0,
    };
    let mut rest = source;
    for row in 0..count {
        let (size, after) = match skip_frame(row, rest) {
            Ok(read) => read,
            Err(_) => return,
        };
        let (head, inner) = match read_head(row, rest) {
            Ok(opening) => opening,
            Err(_) => return,
        };
        let at = 24 * done.pictures as usize;
        put_pictures(
            &mut block[at..at + 24 * size.count as usize],
            size.count,
            row,
            head.intervals,
            from + done.pixels as u32,
            inner,
        );
        done = Sizes {
            pictures: done.pictures + size.count,
            pixels: done.pixels + size.pixels,
        };
        rest = after;
    }
}
