// The names of textures, and the frames that they tell.
ghost use Rattle.std.specs.Prelude.{◌≡◌, drop, IfSome};
ghost use Rattle.bsp29_tables.specs.Checks.{fine};
ghost use Rattle.bsp29_tables.specs.Textures.{HasTexture, table_check, textures_check};
ghost use Rattle.bsp29_tables.specs.Cycles.{name_at, name_of, is_animating, frame_told, frame_of};
ghost use Rattle.bsp29_tables.specs.Grouped.{IsFrame, frame_or_zero, frame_cmp, texture_cmp};

use crate::textures::{MISSING, texture_count, texture_offset};
use base_fields::before_zero;
use std::cmp::Ordering;

// The name of the texture that begins there; a missing one has none.
#[tactic(auto, unfolding(crate::specs::Cycles::name_at))]
pub(crate) fn name_at(lump: &[u8], at: u32) -> &[u8]
    requires { HasTexture lump.now at }
    ensures { result.now ≡ name_at lump.now at }
{
    if at == MISSING {
        return &lump[..0];
    }
    let at = at as usize;
    before_zero(&lump[at..at + 16])
}

// The name of a texture: none where there is no such texture.
pub(crate) fn name_of(lump: &[u8], texture: u32) -> &[u8]
    requires table { table_check lump.now ≡ fine }
    requires textures { textures_check lump.now ≡ fine }
    ensures { result.now ≡ name_of lump.now texture }
{
    if texture >= texture_count(lump) {
        return &lump[..0];
    }
    name_at(lump, texture_offset(lump, texture))
}

pub(crate) fn is_animating(name: &[u8]) -> bool
    ensures { result ≡ is_animating name.now }
{
    name.first() == Some(&b'+')
}

// Small letters are taken as capitals.
#[tactic(auto, unfolding(crate::specs::Cycles::frame_told))]
fn frame_told(byte: u8) -> Option<u8>
    ensures told { result ≡ frame_told byte }
    ensures frame { IfSome result IsFrame }
{
    match byte {
        b'0'..=b'9' | b'A'..=b'J' => Some(byte),
        b'a'..=b'j' => Some(byte - b'a' + b'A'),
        _ => None,
    }
}

// The frame of an animating texture.
#[tactic(auto, unfolding(crate::specs::Cycles::frame_told))]
pub(crate) fn frame_of(name: &[u8]) -> Option<u8>
    ensures told { result ≡ frame_of name.now }
    ensures frame { IfSome result IsFrame }
{
    if is_animating(name) && name.len() > 1 {
        frame_told(name[1])
    } else {
        None
    }
}

// The bytes behind the frame: they are those of its group.
pub(crate) fn rest_of(name: &[u8]) -> &[u8]
    ensures { result.now ≡ drop 2 name.now }
{
    &name[name.len().min(2)..]
}

fn frame_or_zero(name: &[u8]) -> u8
    ensures { result ≡ frame_or_zero (frame_of name.now) }
{
    frame_of(name).unwrap_or(0)
}

// How a name lies to a frame of a group.
#[tactic(auto, unfolding(crate::specs::Grouped::frame_cmp))]
pub(crate) fn frame_cmp(name: &[u8], rest: &[u8], frame: u8) -> Ordering
    ensures { result ≡ frame_cmp name.now rest.now frame }
{
    rest_of(name)
        .cmp(rest)
        .then(frame_or_zero(name).cmp(&frame))
}

// How a texture lies to another.
#[tactic(auto, unfolding(crate::specs::Grouped::texture_cmp))]
pub(crate) fn texture_cmp(lump: &[u8], first: u16, second: u16) -> Ordering
    requires table { table_check lump.now ≡ fine }
    requires textures { textures_check lump.now ≡ fine }
    ensures { result ≡ texture_cmp lump.now first second }
{
    let other = name_of(lump, u32::from(second));
    let name = name_of(lump, u32::from(first));
    frame_cmp(name, rest_of(other), frame_or_zero(other)).then(first.cmp(&second))
}
