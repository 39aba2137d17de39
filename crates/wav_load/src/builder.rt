// The builder of sounds.
ghost use Rattle.std.specs.Prelude.{◌≡◌, ◌+◌, ◌*◌, ◌≤◌, ◌^◌, ◌++◌, length, Result, Ok, IfSome, IsOkAnd};
ghost use Rattle.mem_model.specs.Images.{image_size};
ghost use Rattle.wav_load.specs.Ratios.{IsSmall};
ghost use Rattle.wav_load.specs.Headers.{header_bytes};
ghost use Rattle.wav_load.specs.Images.{count_of, header_of, samples_of, image_of};

use crate::fault::WavFault;
use crate::header::{SoundHeader, put_header};
use crate::samples::put_samples;
use crate::sound::{Sound, sound_of};
use mem_model::Builder;

/// Makes the images of sounds.
#[derive(Clone, Copy, Debug)]
pub struct WavBuilder {
    /// Samples a second.
    pub speed: u32,
}

// What the image tells of a sound.
fn header(sound: &Sound, speed: u32) -> SoundHeader
    requires small { IsSmall sound.now.ratio }
    requires few { sound.now.played ≤ 2 ^ 22 }
    requires start { IfSome sound.now.loop_start (λ start. start ≤ 2 ^ 22) }
    ensures { result ≡ header_of sound.now speed }
{
    SoundHeader {
        length: sound.ratio.scale(sound.played),
        loop_start: sound.loop_start.map(|start| sound.ratio.scale(start)),
        speed,
        width: sound.width,
    }
}

// The length of the image in bytes.
#[tactic(auto, unfolding(crate::specs::Images::image_of))]
fn image_length(source: &[u8], speed: u32) -> Result<u64, WavFault>
    requires { length source.now ≤ 2 ^ 26 }
    ensures { result ≡ image_size (image_of speed source.now) }
{
    let sound = sound_of(source, speed)?;
    let length = sound.ratio.scale(sound.played);
    Ok(20 + u64::from(sound.width) * u64::from(length))
}

// The block becomes the image.
#[tactic(auto, unfolding(crate::specs::Images::image_of))]
fn put_image(block: &mut [u8], source: &[u8], speed: u32)
    requires small { length source.now ≤ 2 ^ 26 }
    requires image { IsOkAnd (image_of speed source.now) (λ image. length image ≡ length block.old) }
    ensures { image_of speed source.now ≡ Ok block.new }
{
    let Ok(sound) = sound_of(source, speed) else {
        unreachable!();
    };
    let (front, samples) = block.split_at_mut(20);
    put_header(front, &header(&sound, speed));
    put_samples(samples, source, &sound);
}

impl Builder for WavBuilder {
    type Fault = WavFault;

    ghost image_of = { λ builder source. image_of builder.speed source };

    fn size(&self, source: &[u8]) -> Result<u64, WavFault> {
        image_length(source, self.speed)
    }

    fn build(&self, source: &[u8], block: &mut [u8]) {
        put_image(block, source, self.speed);
    }
}
