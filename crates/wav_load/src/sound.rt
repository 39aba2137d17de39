// A file that passed its tests.
ghost use Rattle.std.specs.Prelude.{◌≡◌, ◌≤◌, ◌^◌, length, IfOk};
ghost use Rattle.wav_load.specs.Parts.{parts_in};
ghost use Rattle.wav_load.specs.Faults.{loop_end, held_in, played_in, sound_in, IsInside};

use crate::fault::WavFault;
use crate::parts::{Parts, read_parts};
use crate::ratio::Ratio;

/// A sound, with its samples where they stand in the file.
#[derive(Clone, Copy, Debug)]
pub(crate) struct Sound {
    // where the samples begin
    pub(crate) from: usize,
    // the samples that are played, at the file's rate
    pub(crate) played: u32,
    // the bytes of a sample
    pub(crate) width: u32,
    // the rate beside the speed
    pub(crate) ratio: Ratio,
    // the sample at which the loop begins, at the file's rate
    pub(crate) loop_start: Option<u32>,
}

// The most samples that are played, at the file's rate.
const LONGEST: u64 = 1 << 22;

// The samples up to the end of the loop, where it has both a start and a mark, and 0 elsewhere.
fn loop_end(loop_start: Option<u32>, mark: Option<u32>) -> u64
    ensures { result ≡ loop_end loop_start mark }
{
    match (loop_start, mark) {
        (Some(start), Some(mark)) => u64::from(start) + u64::from(mark),
        _ => 0,
    }
}

// How many samples are played, of those that the file holds.
fn played(parts: &Parts, held: u64) -> u64
    requires { held ≡ held_in parts.now }
    ensures { result ≡ played_in parts.now }
{
    match loop_end(parts.loop_start, parts.mark) {
        0 => held,
        end => end,
    }
}

// The sound, or the first fault.
#[tactic(auto, unfolding(crate::specs::Faults::sound_in))]
fn judge(parts: &Parts, speed: u32) -> Result<Sound, WavFault>
    ensures { result ≡ sound_in parts.now speed }
{
    if !parts.riff {
        return Err(WavFault::NotRiff);
    }
    let Some(coding) = parts.coding else {
        return Err(WavFault::NoFmt);
    };
    if coding.format != 1 {
        return Err(WavFault::NotPcm);
    }
    if coding.channels != 1 {
        return Err(WavFault::NotMono);
    }
    if coding.bits != 8 && coding.bits != 16 {
        return Err(WavFault::Width);
    }
    let Some(stretch) = parts.stretch else {
        return Err(WavFault::NoData);
    };
    let width = u32::from(coding.bits / 8);
    let held = stretch.length as u64 / u64::from(width);
    let played = played(parts, held);
    if played > held || u64::from(parts.loop_start.unwrap_or(0)) > played {
        return Err(WavFault::BadLoop);
    }
    if played > LONGEST {
        return Err(WavFault::TooLong);
    }
    let Some(ratio) = Ratio::of(coding.rate, speed) else {
        return Err(WavFault::Rate { rate: coding.rate });
    };
    Ok(Sound {
        from: stretch.from,
        played: played as u32,
        width,
        ratio,
        loop_start: parts.loop_start,
    })
}

// The sound that a file is at this speed, or its first fault.
#[tactic(auto, using(crate::proofs::Passing::is_inside))]
pub(crate) fn sound_of(source: &[u8], speed: u32) -> Result<Sound, WavFault>
    requires { length source.now ≤ 2 ^ 26 }
    ensures value { result ≡ sound_in (parts_in source.now) speed }
    ensures inside { IfOk result (IsInside (length source.now)) }
{
    judge(&read_parts(source), speed)
}
