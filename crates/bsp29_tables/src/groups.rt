// Groups of textures: the frames of an animation, and what they lack.
ghost use Rattle.std.specs.Prelude.{◌≡◌, ◌≤◌, ◌+◌, ◌<◌, length, filter, is_some};
ghost use Rattle.std.specs.List.{range_with_len};
ghost use Rattle.bsp29_tables.specs.Checks.{fine};
ghost use Rattle.bsp29_tables.specs.Textures.{texture_count, table_check, textures_check};
ghost use Rattle.bsp29_tables.specs.Cycles.{name_of, frame_of, shown_of, frames_of, span, lacking_from, lacking_below};
ghost use Rattle.bsp29_tables.specs.Cycles.{lacking_of, cycle_in, cycle_of};
ghost use Rattle.bsp29_tables.specs.Grouped.{IsGrouped};

use crate::cycles::Cycle;
use crate::names::{frame_cmp, frame_of, name_of, rest_of, texture_cmp};
use crate::textures::texture_count;
use arrayvec::ArrayVec;

// As many as there can be textures.
pub(crate) type Order = ArrayVec<u16, 4096>;

// The textures that have frames, in the order of their numbers.
fn shown_in(lump: &[u8]) -> Order
    requires table { table_check lump.now ≡ fine }
    requires textures { textures_check lump.now ≡ fine }
    ensures { result.items ≡ filter (λ texture. is_some (frame_of (name_of lump.now texture)))
        (range_with_len 0 (texture_count lump.now)) }
{
    let mut order = ArrayVec::new();
    for texture in 0..texture_count(lump) {
        if frame_of(name_of(lump, texture)).is_some() {
            order.push(texture as u16);
        }
    }
    order
}

// The same, so that those of a group lie together.
pub(crate) fn grouped(lump: &[u8]) -> Order
    requires table { table_check lump.now ≡ fine }
    requires textures { textures_check lump.now ≡ fine }
    ensures { IsGrouped lump.now result.items }
{
    let mut order = shown_in(lump);
    order.sort_unstable_by(|first, second| texture_cmp(lump, *first, *second));
    order
}

// The texture that counts for a frame of a group: the last that isn't behind the frame in the order, if it has it.
pub(crate) fn shown_of(lump: &[u8], order: &[u16], rest: &[u8], frame: u8) -> Option<u32>
    requires table { table_check lump.now ≡ fine }
    requires textures { textures_check lump.now ≡ fine }
    requires order { IsGrouped lump.now order.now }
    ensures { result ≡ shown_of lump.now rest.now frame }
{
    let end = order.partition_point(|texture| {
        frame_cmp(name_of(lump, u32::from(*texture)), rest, frame).is_le()
    });
    if end == 0 {
        return None;
    }
    let texture = u32::from(order[end - 1]);
    if frame_cmp(name_of(lump, texture), rest, frame).is_eq() {
        Some(texture)
    } else {
        None
    }
}

// How many frames there are up to the greatest.
fn span(frames: &[Option<u32>]) -> usize
    ensures span { result ≡ span frames.now }
    ensures within { result ≤ length frames.now }
{
    let mut span = 0;
    for (place, frame) in frames.iter().enumerate() {
        span = if frame.is_some() { place + 1 } else { span };
    }
    span
}

// The least frame that is lacking, from `first` on.
fn lacking_from(first: u8, frames: &[Option<u32>]) -> Option<u8>
    requires few { length frames.now ≤ 10 }
    requires first { first ≤ 100 }
    ensures { result ≡ lacking_from first frames.now }
{
    for (place, frame) in frames.iter().enumerate() {
        if frame.is_none() {
            return Some(first + place as u8);
        }
    }
    None
}

// The least frame below the greatest that is lacking.
#[tactic(auto, unfolding(crate::specs::Cycles::lacking_below))]
fn lacking_below(first: u8, frames: &[Option<u32>; 10]) -> Option<u8>
    requires { first ≤ 100 }
    ensures { result ≡ lacking_below first frames.now }
{
    lacking_from(first, &frames[..span(frames)])
}

// The textures that count for the ten frames from `first` on.
fn frames_of(lump: &[u8], order: &[u16], rest: &[u8], first: u8) -> [Option<u32>; 10]
    requires table { table_check lump.now ≡ fine }
    requires textures { textures_check lump.now ≡ fine }
    requires order { IsGrouped lump.now order.now }
    requires first { first ≤ 100 }
    ensures { result ≡ frames_of lump.now rest.now first }
{
    let mut frames = [None; 10];
    for (place, frame) in frames.iter_mut().enumerate() {
        *frame = shown_of(lump, order, rest, first + place as u8);
    }
    frames
}

// The frame that a group lacks.
#[tactic(auto, unfolding(crate::specs::Cycles::lacking_of))]
pub(crate) fn lacking_of(lump: &[u8], order: &[u16], rest: &[u8]) -> Option<u8>
    requires table { table_check lump.now ≡ fine }
    requires textures { textures_check lump.now ≡ fine }
    requires order { IsGrouped lump.now order.now }
    ensures { result ≡ lacking_of lump.now rest.now }
{
    let digit = lacking_below(b'0', &frames_of(lump, order, rest, b'0'));
    let letter = lacking_below(b'A', &frames_of(lump, order, rest, b'A'));
    digit.or(letter)
}

// The cycle of the texture that counts for a place among its frames.
#[tactic(auto, unfolding(crate::specs::Cycles::cycle_in))]
fn cycle_in(
    texture: u32,
    place: u8,
    frames: &[Option<u32>; 10],
    others: &[Option<u32>; 10],
) -> Option<Cycle>
    requires { place < 10 }
    ensures { result ≡ cycle_in texture place frames.now others.now }
{
    let place = usize::from(place);
    if frames[place] != Some(texture) {
        return None;
    }
    let span = span(frames);
    Some(Cycle {
        total: 2 * span as u32,
        least: 2 * place as u32,
        greatest: 2 * place as u32 + 2,
        next: frames[(place + 1) % span],
        alternate: others[0],
    })
}

// The place of a texture in its animation.
#[tactic(auto, unfolding(crate::specs::Cycles::cycle_of))]
pub(crate) fn cycle_of(lump: &[u8], order: &[u16], texture: u32) -> Option<Cycle>
    requires table { table_check lump.now ≡ fine }
    requires textures { textures_check lump.now ≡ fine }
    requires order { IsGrouped lump.now order.now }
    ensures { result ≡ cycle_of lump.now texture }
{
    let name = name_of(lump, texture);
    let frame = frame_of(name)?;
    let rest = rest_of(name);
    let digits = frames_of(lump, order, rest, b'0');
    let letters = frames_of(lump, order, rest, b'A');
    if frame <= b'9' {
        cycle_in(texture, frame - b'0', &digits, &letters)
    } else {
        cycle_in(texture, frame - b'A', &letters, &digits)
    }
}
