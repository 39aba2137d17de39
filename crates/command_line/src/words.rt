// What the words of the command line ask for, or which of them breaks the rule.
ghost use Rattle.std.specs.Prelude.{◌≡◌, ◌↔◌, ◌+◌, ◌<◌, ◌≤◌, ◌^◌, Ok, Err, IfOk, map, length, string_bytes};
ghost use Rattle.command_line.specs.CommandLine.{IsAsked, IsFirstBad};

use crate::reading::Reading;
use thiserror::Error;

/// What the words ask for.
#[derive(Clone, Copy, Debug, PartialEq, Eq)]
pub struct Request {
    /// The heap's size in KB.
    pub heap: u32,
    /// The zone's size in KB.
    pub zone: u32,
    /// The output speed of sounds in Hz.
    pub speed: u32,
    /// The number of the first folder word.
    pub first: usize,
    /// How many folder words there are. They are the last words.
    pub folders: usize,
}

/// The words break the rule.
#[derive(Clone, Copy, Debug, PartialEq, Eq, Error)]
#[error("bad word {word}")]
pub struct UsageError {
    /// The number of the first word that does, or the number of words where one is missing.
    pub word: u32,
}

// How many KB the heap has where no option says it.
const DEFAULT_HEAP: u32 = 16384;

// How many KB the zone has where no option says it.
const DEFAULT_ZONE: u32 = 48;

// The output speed in Hz where no option says it.
const DEFAULT_SPEED: u32 = 11025;

/// What the words ask for: `-heapsize n`, `-zone n` and `-speed n`, each at most once and in any order, and then 1 to
/// `most` folder words, which aren't empty and don't begin with `-`. `n` has 1 to 9 decimal digits. It is a number of KB,
/// 1024 to 65536 for the heap and 4 to 65536 for the zone, and 1000 to 96000 Hz for the speed. They are 16384, 48 and
/// 11025 where they aren't given.
pub fn request_of(words: &[String], most: usize) -> Result<Request, UsageError>
    requires count { length words.now < 2 ^ 32 }
    requires some { 1 ≤ most }
    ensures asked { (request : Request) → (result ≡ Ok request) ↔ IsAsked (map string_bytes words.now) most request }
    ensures refused { (error : UsageError) → (result ≡ Err error) ↔ IsFirstBad (map string_bytes words.now) most error.word }
    ensures folders { IfOk result (λ request. request.first + request.folders ≡ length words.now) }
    ensures some { IfOk result (λ request. (1 ≤ request.folders) × (request.folders ≤ most)) }
    ensures options { IfOk result (λ request. request.first ≤ 6) }
    ensures heap { IfOk result (λ request. (1024 ≤ request.heap) × (request.heap ≤ 65536)) }
    ensures zone { IfOk result (λ request. (4 ≤ request.zone) × (request.zone ≤ 65536)) }
    ensures speed { IfOk result (λ request. (1000 ≤ request.speed) × (request.speed ≤ 96000)) }
{
    let mut reading = Reading::new();
    for (number, word) in words.iter().enumerate() {
        match reading.with_word(word.as_bytes(), most) {
            Some(next) => reading = next,
            None => {
                return Err(UsageError {
                    word: number as u32,
                });
            }
        }
    }
    if reading.folders == 0 {
        return Err(UsageError {
            word: words.len() as u32,
        });
    }
    Ok(Request {
        heap: reading.heap.unwrap_or(DEFAULT_HEAP),
        zone: reading.zone.unwrap_or(DEFAULT_ZONE),
        speed: reading.speed.unwrap_or(DEFAULT_SPEED),
        first: words.len() - reading.folders,
        folders: reading.folders,
    })
}
