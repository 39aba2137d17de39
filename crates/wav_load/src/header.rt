// The numbers at the front of an image.
ghost use Rattle.std.specs.Prelude.{◌≡◌, ◌≤◌, length};
ghost use Rattle.wav_load.specs.Headers.{start_of, header_in, header_bytes};
ghost use Rattle.wav_load.specs.Images.{TellsSound};

use base_fields::{fill_u32, u32_at};

/// What the image of a sound tells of it.
#[derive(Clone, Copy, Debug, PartialEq, Eq)]
pub struct SoundHeader {
    /// How many samples there are.
    pub length: u32,
    /// The sample at which the loop begins, where there is one.
    pub loop_start: Option<u32>,
    /// Samples a second.
    pub speed: u32,
    /// The bytes of a sample.
    pub width: u32,
}

// In the place of the loop's start, where there is no loop.
const NO_LOOP: u32 = u32::MAX;

// The header as its 20 bytes.
pub(crate) fn put_header(block: &mut [u8], header: &SoundHeader)
    requires { length block.old ≡ 20 }
    ensures { block.new ≡ header_bytes header.now }
{
    let (length, rest) = block.split_at_mut(4);
    let (loop_start, rest) = rest.split_at_mut(4);
    let (speed, rest) = rest.split_at_mut(4);
    let (width, rest) = rest.split_at_mut(4);
    fill_u32(length, header.length);
    fill_u32(loop_start, header.loop_start.unwrap_or(NO_LOOP));
    fill_u32(speed, header.speed);
    fill_u32(width, header.width);
    fill_u32(rest, 0);
}

// The start that a word tells.
fn start_in(word: u32) -> Option<u32>
    ensures { result ≡ start_of word }
{
    if word == NO_LOOP { None } else { Some(word) }
}

/// What the image of a sound tells of it.
pub fn sound_header(image: &[u8]) -> SoundHeader
    requires { 20 ≤ length image.now }
    ensures value { result ≡ header_in image.now }
    ensures sound { TellsSound result image.now }
{
    SoundHeader {
        length: u32_at(image, 0),
        loop_start: start_in(u32_at(image, 4)),
        speed: u32_at(image, 8),
        width: u32_at(image, 12),
    }
}
