// The parts of a sprite, read from left to right.
ghost use Rattle.std.specs.Prelude.{◌≡◌, ◌==◌, ℕ, ◌+◌, ◌*◌, ◌≤◌, length, false, Result, IfOk, MatchResult};
ghost use Rattle.base_fields.specs.Fields.{u32_in};
ghost use Rattle.part_plan.specs.Plan.{run, seen};
ghost use Rattle.sprite_load.specs.Parts.{picture, head, group, many, is_single};
ghost use Rattle.sprite_load.specs.Sizes.{IsWhole};
ghost use Rattle.sprite_load.specs.Views.{picture_of, head_of, HasHeader, HasFault};

use crate::fault::SpriteFault;
use base_fields::u32_at;
use part_plan::{any_wrong, is_between};

// The widest and the highest picture, and the most frames of a sprite and pictures of a group.
const LARGEST: u32 = 4096;

const MOST: u32 = 1024;

/// A picture's 16 bytes and its pixels.
#[derive(Clone, Copy)]
pub(crate) struct PictureView<'a> {
    pub(crate) head: &'a [u8],
    pub(crate) pixels: &'a [u8],
}

/// A frame's word, and a group's count and intervals.
#[derive(Clone, Copy)]
pub(crate) struct HeadView<'a> {
    pub(crate) word: &'a [u8],
    pub(crate) count: &'a [u8],
    pub(crate) intervals: &'a [u8],
    pub(crate) single: bool,
    // how many pictures follow
    pub(crate) number: u32,
}

// A picture, and what follows it.
#[tactic(auto, unfolding(crate::specs::Parts::picture))]
pub(crate) fn read_picture(row: u32, source: &[u8]) -> Result<(PictureView<'_>, &[u8]), SpriteFault>
    ensures value { seen (λ x. (picture_of x.0, x.1.now)) result ≡ run (picture row) source.now }
    ensures taken { IfOk result (λ x. 16 + length x.0.pixels.now + length x.1.now ≤ length source.now) }
    ensures head { IfOk result (λ x. length x.0.head.now ≡ 16) }
{
    if source.len() < 16 {
        return Err(SpriteFault::Truncated);
    }
    let (head, rest) = source.split_at(16);
    let width = u32_at(head, 8);
    if width > LARGEST {
        return Err(SpriteFault::Size { row });
    }
    let height = u32_at(head, 12);
    if height > LARGEST {
        return Err(SpriteFault::Size { row });
    }
    let area = width as usize * height as usize;
    if rest.len() < area {
        return Err(SpriteFault::Truncated);
    }
    let (pixels, rest) = rest.split_at(area);
    Ok((PictureView { head, pixels }, rest))
}

// What a group has behind its word and before its pictures, and what follows it.
#[tactic(auto, unfolding(crate::specs::Parts::group))]
fn read_group<'a>(
    row: u32,
    word: &'a [u8],
    behind: &'a [u8],
) -> Result<(HeadView<'a>, &'a [u8]), SpriteFault>
    requires { (u32_in word.now 0 == 0) ≡ false }
    ensures value { seen (λ x. (head_of x.0, x.1.now)) result ≡ run (group row word.now) behind.now }
    ensures taken { IfOk result (λ x. length x.1.now ≤ length behind.now) }
    ensures single { IfOk result (λ x. x.0.single ≡ is_single (head_of x.0)) }
    ensures few { IfOk result (λ x. x.0.number ≤ 1024) }
    ensures whole { IfOk result (λ x. IsWhole x.0.intervals.now x.0.number) }
    ensures number { IfOk result (λ x. x.0.number ≡ many (head_of x.0)) }
{
    if behind.len() < 4 {
        return Err(SpriteFault::Truncated);
    }
    let (count, rest) = behind.split_at(4);
    let number = u32_at(count, 0);
    if !is_between(1, MOST, number) {
        return Err(SpriteFault::Group { row });
    }
    let length = 4 * number as usize;
    if rest.len() < length {
        return Err(SpriteFault::Truncated);
    }
    let (intervals, rest) = rest.split_at(length);
    if any_wrong(number, intervals) {
        return Err(SpriteFault::Interval { row });
    }
    Ok((
        HeadView {
            word,
            count,
            intervals,
            single: false,
            number,
        },
        rest,
    ))
}

// What a frame has before its pictures, and what follows it.
#[tactic(auto, unfolding(crate::specs::Parts::head))]
pub(crate) fn read_head(row: u32, source: &[u8]) -> Result<(HeadView<'_>, &[u8]), SpriteFault>
    ensures value { seen (λ x. (head_of x.0, x.1.now)) result ≡ run (head row) source.now }
    ensures taken { IfOk result (λ x. length x.1.now ≤ length source.now) }
    ensures single { IfOk result (λ x. x.0.single ≡ is_single (head_of x.0)) }
    ensures few { IfOk result (λ x. x.0.number ≤ 1024) }
    ensures whole { IfOk result (λ x. IsWhole x.0.intervals.now x.0.number) }
    ensures number { IfOk result (λ x. x.0.number ≡ many (head_of x.0)) }
{
    if source.len() < 4 {
        return Err(SpriteFault::Truncated);
    }
    let (word, rest) = source.split_at(4);
    if u32_at(word, 0) != 0 {
        return read_group(row, word, rest);
    }
    let head = HeadView {
        word,
        count: &[],
        intervals: &[],
        single: true,
        number: 1,
    };
    Ok((head, rest))
}

// The header, and what follows it.
#[tactic(auto, unfolding(crate::specs::Parts::sprite))]
pub(crate) fn read_header(source: &[u8]) -> Result<(&[u8], &[u8]), SpriteFault>
    ensures value { MatchResult result (λ x. HasHeader source.now x.0.now x.1.now) (λ e. HasFault source.now e) }
    ensures taken { IfOk result (λ x. (length x.0.now ≡ 36) × (length x.1.now ≤ length source.now)) }
    ensures few { IfOk result (λ x. u32_in x.0.now 24 ≤ 1024) }
{
    if source.len() < 36 {
        return Err(SpriteFault::Short);
    }
    let (header, rest) = source.split_at(36);
    let version = u32_at(header, 4);
    if version != 1 {
        return Err(SpriteFault::Version { found: version });
    }
    let count = u32_at(header, 24);
    if !is_between(1, MOST, count) {
        return Err(SpriteFault::Frames);
    }
    Ok((header, rest))
}
