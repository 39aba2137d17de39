// The files of a game.
ghost use Rattle.std.specs.Prelude.{◌≡◌, ◌++◌, ◌<◌, OnOk};
ghost use Rattle.world_gen.specs.Files.{format, padding, sound_header, sound_file, behind_sound};
ghost use Rattle.world_gen.specs.Files.{sprite_header, sprite_file, behind_sprite, map_file};

use crate::draws::Draws;
use crate::numbers::{append_half, append_word, append_words};
use std::alloc::AllocError;

// Samples a second.
const RATE: u32 = 11025;

/// Appends a sound.
#[tactic(auto, unfolding(crate::specs::Files::sound_file, crate::specs::Files::behind_sound))]
pub fn append_sound(file: &mut Vec<u8>, draws: &mut Draws) -> Result<(), AllocError>
    ensures bytes { OnOk result (file.new.items ≡ file.old.items ++ sound_file draws.old.state) }
    ensures state { OnOk result (draws.new.state ≡ behind_sound draws.old.state) }
{
    let count = 20000 + draws.draw() % 40000;
    append_sound_header(file, count)?;
    draws.append_bytes(file, count)?;
    append_padding(file, count)?;
    Ok(())
}

#[tactic(auto, unfolding(crate::specs::Files::sound_header))]
fn append_sound_header(file: &mut Vec<u8>, count: u32) -> Result<(), AllocError>
    requires { count < 60000 }
    ensures { OnOk result (file.new.items ≡ file.old.items ++ sound_header count) }
{
    file.extend_from_slice(b"RIFF")?;
    append_word(file, 36 + count + count % 2)?;
    append_format(file)?;
    file.extend_from_slice(b"data")?;
    append_word(file, count)?;
    Ok(())
}

// The fields are: the format's length, its number, channels, samples and bytes a second, bytes and bits a sample.
#[tactic(auto, unfolding(crate::specs::Files::format))]
fn append_format(file: &mut Vec<u8>) -> Result<(), AllocError>
    ensures { OnOk result (file.new.items ≡ file.old.items ++ format) }
{
    file.extend_from_slice(b"WAVEfmt ")?;
    append_word(file, 16)?;
    append_half(file, 1)?;
    append_half(file, 1)?;
    append_word(file, RATE)?;
    append_word(file, RATE)?;
    append_half(file, 1)?;
    append_half(file, 8)?;
    Ok(())
}

// A zero byte behind an odd number of samples.
fn append_padding(file: &mut Vec<u8>, count: u32) -> Result<(), AllocError>
    ensures { OnOk result (file.new.items ≡ file.old.items ++ padding count) }
{
    if count % 2 == 1 {
        file.push(0)?;
    }
    Ok(())
}

/// Appends a sprite.
#[tactic(auto, unfolding(crate::specs::Files::sprite_file, crate::specs::Files::behind_sprite))]
pub fn append_sprite(file: &mut Vec<u8>, draws: &mut Draws) -> Result<(), AllocError>
    ensures bytes { OnOk result (file.new.items ≡ file.old.items ++ sprite_file draws.old.state) }
    ensures state { OnOk result (draws.new.state ≡ behind_sprite draws.old.state) }
{
    let side = 16 + draws.draw() % 112;
    append_sprite_header(file, side)?;
    draws.append_bytes(file, side * side)?;
    Ok(())
}

#[tactic(auto, unfolding(crate::specs::Files::sprite_header))]
fn append_sprite_header(file: &mut Vec<u8>, side: u32) -> Result<(), AllocError>
    ensures { OnOk result (file.new.items ≡ file.old.items ++ sprite_header side) }
{
    file.extend_from_slice(b"IDSP")?;
    append_words(file, &[1, 2, 0, side, side, 1, 0, 0, 0, 0, 0, side, side])?;
    Ok(())
}

/// Appends the map.
#[tactic(auto, unfolding(crate::specs::Files::map_file))]
pub fn append_map(file: &mut Vec<u8>) -> Result<(), AllocError>
    ensures { OnOk result (file.new.items ≡ file.old.items ++ map_file) }
{
    append_word(file, 29)?;
    file.extend_from_slice(&[0; 14 * 8])?;
    append_word(file, 124)?;
    append_word(file, 64)?;
    file.extend_from_slice(&[0; 64])?;
    Ok(())
}
