//! A large game made from a number: a pack of files, and a script of commands that load them. The same number gives the
//! same bytes, so that a whole session can be run with no game at hand.
//!
//! All chance comes from draws. Their state starts as the number; a draw multiplies it by 1664525, adds 1013904223, keeps
//! the lowest 32 bits, and gives the upper 16 of them. The pack has 34 files, drawn in this order:
//! - `sound/s00.wav` to `sound/s23.wav`: 20000 to 59999 samples of 8 bits, 11025 a second;
//! - `p0.spr` to `p7.spr`: one square picture, 16 to 127 pixels wide;
//! - `maps/m0.bsp` and `maps/m1.bsp`: the smallest brush model, one row of zeros.
//!
//! The script has 256 lines, each for one of these 34 by a draw, as `sound s07.wav`, `model p3.spr` or `map m1`, and then
//! `report`.
#![tactic(auto)]

ghost use Rattle.std.specs.Prelude.{◌≡◌, ◌<◌, ◌^◌, IfOk, vec_len};
ghost use Rattle.world_gen.specs.Packs.{pack_of};
ghost use Rattle.world_gen.specs.Scripts.{script_of};

mod draws;
mod files;
mod numbers;
mod packing;
mod resources;
mod script;

use draws::Draws;
use std::alloc::{AllocError, Global};

/// The two files of a game.
#[derive(Drop)]
pub struct Generated {
    /// The pack, to stand as `pak0.pak`.
    pub pack: Vec<u8>,
    /// The script, to stand as `gen.cfg`: lines that each end in a newline.
    pub script: Vec<u8>,
}

/// The game of a number. An error is want of memory.
#[tactic(auto, using(crate::proofs::SizeLaws::size_laws), unfolding(crate::specs::Packs::pack_of, crate::specs::Scripts::script_of))]
pub fn generate(alloc: Global, number: u32) -> Result<Generated, AllocError>
    ensures pack { IfOk result (λ game. game.pack.items ≡ pack_of number) }
    ensures script { IfOk result (λ game. game.script.items ≡ script_of number) }
    ensures small { IfOk result (λ game. (vec_len game.pack < 2 ^ 32) × (vec_len game.script < 2 ^ 32)) }
{
    let mut draws = Draws::new(number);
    let pack = packing::pack(alloc, &mut draws)?;
    let script = script::script(alloc, &mut draws)?;
    Ok(Generated { pack, script })
}

#[cfg(test)]
mod tests;
