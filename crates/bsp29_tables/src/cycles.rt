// Cycles of textures: those whose names begin with `+` are frames of animations.
ghost use Rattle.std.specs.Prelude.{◌≡◌, ◌<◌};
ghost use Rattle.bsp29_tables.specs.Checks.{fine};
ghost use Rattle.bsp29_tables.specs.Textures.{HasTexture, texture_count, table_check, textures_check};
ghost use Rattle.bsp29_tables.specs.Cycles.{cycle_of, animation_check, animations_check, frame_check, frames_check};

use crate::fault::BspFault;
use crate::groups::{Order, cycle_of, grouped, lacking_of};
use crate::names::{frame_of, is_animating, name_at, rest_of};
use crate::textures::{texture_count, texture_offset};
use std::marker::Model;

/// The place of a texture in its animation.
#[derive(Clone, Copy, Debug, PartialEq, Eq)]
pub struct Cycle {
    /// How long the animation goes, in tenths of a second.
    pub total: u32,
    /// The time in it from which on the texture is shown.
    pub least: u32,
    /// The time in it before which the texture is shown.
    pub greatest: u32,
    /// The number of the next frame.
    pub next: Option<u32>,
    /// The number of the first frame of the other animation, which is shown in its place while it is switched over.
    pub alternate: Option<u32>,
}

/// The frames of animations among the textures of a lump. Contracts see them as the bytes of the lump.
#[derive(Debug, Drop)]
pub struct Animations<'a> {
    lump: &'a [u8],
    order: Order,
}

impl<'a> Model for Animations<'a> {
    ghost use Rattle.std.specs.Prelude.{List, ℕ};

    ghost Value = { List ℕ };

    ghost view = { λ a. a.lump.now };

    ghost use Rattle.bsp29_tables.specs.Grouped.{IsFound};

    ghost invariant = { λ a. IsFound a.lump.now a.order.items };
}

impl<'a> Animations<'a> {
    /// The frames among the textures of a lump whose table and textures have no fault. Animations may lack frames.
    pub fn find(lump: &'a [u8]) -> Animations<'a>
        requires table { table_check lump.now ≡ fine }
        requires textures { textures_check lump.now ≡ fine }
        ensures { result ≡ lump.now }
    {
        Animations {
            lump,
            order: grouped(lump),
        }
    }

    /// The place of a texture in its animation: `None` where it is no frame of one, or a later texture is the same frame.
    pub fn cycle(&self, texture: u32) -> Option<Cycle>
        requires { texture < texture_count self.now }
        ensures { result ≡ cycle_of self.now texture }
    {
        cycle_of(self.lump, &self.order, texture)
    }

    // The group of the texture lacks no frame.
    #[tactic(auto, unfolding(crate::specs::Cycles::frame_check))]
    fn check_frame(&self, texture: u32, at: u32) -> Result<(), BspFault>
        requires { HasTexture self.now at }
        ensures { result ≡ frame_check self.now texture at }
    {
        let name = name_at(self.lump, at);
        if is_animating(name) {
            if let Some(frame) = lacking_of(self.lump, &self.order, rest_of(name)) {
                return Err(BspFault::MissingFrame { texture, frame });
            }
        }
        Ok(())
    }
}

// The frame of an animating texture is a digit or a letter.
#[tactic(auto, unfolding(crate::specs::Cycles::animation_check))]
fn check_animation(lump: &[u8], texture: u32, at: u32) -> Result<(), BspFault>
    requires { HasTexture lump.now at }
    ensures { result ≡ animation_check lump.now texture at }
{
    let name = name_at(lump, at);
    if is_animating(name) && frame_of(name).is_none() {
        return Err(BspFault::BadAnimation { texture });
    }
    Ok(())
}

// The textures once more, one by one.
pub(crate) fn check_animations(lump: &[u8]) -> Result<(), BspFault>
    requires table { table_check lump.now ≡ fine }
    requires textures { textures_check lump.now ≡ fine }
    ensures { result ≡ animations_check lump.now }
{
    for texture in 0..texture_count(lump) {
        check_animation(lump, texture, texture_offset(lump, texture))?;
    }
    Ok(())
}

// The frames of their groups, one texture after the other.
pub(crate) fn check_frames(lump: &[u8]) -> Result<(), BspFault>
    requires table { table_check lump.now ≡ fine }
    requires textures { textures_check lump.now ≡ fine }
    ensures { result ≡ frames_check lump.now }
{
    let animations = Animations::find(lump);
    for texture in 0..texture_count(lump) {
        animations.check_frame(texture, texture_offset(lump, texture))?;
    }
    Ok(())
}
