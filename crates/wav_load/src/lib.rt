//! Sounds, made of WAV files.
//!
//! A WAV file is `RIFF`, four bytes, `WAVE`, and then chunks: a name of four bytes, a length, and so many bytes, with one
//! more where the length is odd. Numbers have their lowest byte first. The chunks end before one whose length is 2 ^ 31
//! or more. The first of each of these names counts:
//!
//! - `fmt `: behind its length the format (2 bytes, 1 is plain samples), the channels (2), the samples a second (4), six
//!   bytes that aren't read, and the bits of a sample (2).
//! - `data`: the samples, as far as the file has them. Those of 8 bits have no sign, those of 16 bits have one.
//! - `cue `: 24 bytes behind its length the sample at which the loop begins (4), where the file has it.
//! - `LIST`, the first behind the cue: 16 bytes behind its length the samples of the loop (4), where `mark` follows.
//!
//! The samples that are played are those up to the loop's end, where it is told and isn't 0, and else all.
//!
//! The image of a sound is five numbers of four bytes, and then its samples, with a sign. The numbers are the length in
//! samples, the sample at which the loop begins or 0xFFFFFFFF, the speed in samples a second, the bytes of a sample, and 0.
//! A rate that is 2 ^ k times the speed, for a k from -8 to 8, is brought to the speed: sample i of the image is sample
//! i * 2 ^ k of the file, and lengths are divided by 2 ^ k; both are rounded down.
#![tactic(auto)]

mod builder;
mod chunks;
mod fault;
mod header;
mod parts;
mod ratio;
mod samples;
mod sound;
#[cfg(test)]
mod tests;

pub use builder::WavBuilder;
pub use fault::WavFault;
pub use header::{SoundHeader, sound_header};
