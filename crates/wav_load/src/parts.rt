// What is read of a file.
ghost use Rattle.std.specs.Prelude.{◌≡◌, ◌+◌, ◌≤◌, ◌^◌, length, IfSome};
ghost use Rattle.wav_load.specs.Parts.{is_riff, coding_at, stretch_at, loop_start_at, mark_at, parts_in};

use crate::chunks::{find_chunks, has};
use base_fields::{u16_at, u32_at};

/// How the samples are coded.
#[derive(Clone, Copy, Debug)]
pub(crate) struct Coding {
    pub(crate) format: u16,
    pub(crate) channels: u16,
    // samples a second
    pub(crate) rate: u32,
    // of a sample
    pub(crate) bits: u16,
}

/// Where the bytes of the samples stand.
#[derive(Clone, Copy, Debug)]
pub(crate) struct Stretch {
    pub(crate) from: usize,
    pub(crate) length: usize,
}

/// What is read of a file, whatever it is.
#[derive(Clone, Copy, Debug)]
pub(crate) struct Parts {
    pub(crate) riff: bool,
    pub(crate) coding: Option<Coding>,
    pub(crate) stretch: Option<Stretch>,
    // the sample at which the loop begins
    pub(crate) loop_start: Option<u32>,
    // how many samples the loop has
    pub(crate) mark: Option<u32>,
}

fn has_riff(source: &[u8]) -> bool
    ensures { result ≡ is_riff source.now }
{
    source.len() >= 12 && has(source, b"RIFF", 0) && has(source, b"WAVE", 8)
}

fn read_coding(source: &[u8], at: usize) -> Option<Coding>
    requires { at ≤ 2 ^ 26 }
    ensures { result ≡ coding_at source.now at }
{
    if at + 24 > source.len() {
        return None;
    }
    Some(Coding {
        format: u16_at(source, at + 8),
        channels: u16_at(source, at + 10),
        rate: u32_at(source, at + 12),
        bits: u16_at(source, at + 22),
    })
}

// The samples of a chunk, as far as the file has them.
fn read_stretch(source: &[u8], at: usize) -> Stretch
    requires { at + 8 ≤ length source.now }
    ensures value { result ≡ stretch_at source.now at }
    ensures inside { result.from + result.length ≤ length source.now }
{
    let length = u32_at(source, at + 4) as usize;
    Stretch {
        from: at + 8,
        length: length.min(source.len() - (at + 8)),
    }
}

fn read_loop_start(source: &[u8], at: usize) -> Option<u32>
    requires { at ≤ 2 ^ 26 }
    ensures { result ≡ loop_start_at source.now at }
{
    if at + 36 > source.len() {
        return None;
    }
    Some(u32_at(source, at + 32))
}

fn read_mark(source: &[u8], at: usize) -> Option<u32>
    requires { at ≤ 2 ^ 26 }
    ensures { result ≡ mark_at source.now at }
{
    if at + 32 > source.len() || !has(source, b"mark", at + 28) {
        return None;
    }
    Some(u32_at(source, at + 24))
}

// What is read of a file.
#[tactic(auto, unfolding(crate::specs::Parts::parts_in))]
pub(crate) fn read_parts(source: &[u8]) -> Parts
    requires { length source.now ≤ 2 ^ 26 }
    ensures value { result ≡ parts_in source.now }
    ensures inside { IfSome result.stretch (λ s. s.from + s.length ≤ length source.now) }
{
    let places = find_chunks(source);
    Parts {
        riff: has_riff(source),
        coding: places.fmt.and_then(|at| read_coding(source, at)),
        stretch: places.samples.map(|at| read_stretch(source, at)),
        loop_start: places.cue.and_then(|at| read_loop_start(source, at)),
        mark: places.list.and_then(|at| read_mark(source, at)),
    }
}
