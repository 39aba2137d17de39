// The chunks of a file.
ghost use Rattle.std.specs.Prelude.{◌≡◌, ◌+◌, ◌≤◌, ◌^◌, length, IsTrue};
ghost use Rattle.wav_load.specs.Chunks.{stands, is_chunk, behind, named, noted, places_in, AreInside};

use base_fields::u32_at;

/// Where the chunks stand that count.
#[derive(Clone, Copy, Debug)]
pub(crate) struct Places {
    pub(crate) fmt: Option<usize>,
    pub(crate) cue: Option<usize>,
    // the first behind the cue
    pub(crate) list: Option<usize>,
    pub(crate) samples: Option<usize>,
}

// Whether these bytes stand here.
pub(crate) fn has(source: &[u8], text: &[u8], at: usize) -> bool
    requires { at ≤ length source.now }
    ensures { result ≡ stands source.now text.now at }
{
    source[at..].starts_with(text)
}

// Whether a chunk begins here.
#[tactic(auto, unfolding(crate::specs::Chunks::is_chunk))]
fn begins(source: &[u8], at: usize) -> bool
    requires { at ≤ 2 ^ 33 }
    ensures value { result ≡ is_chunk source.now at }
    ensures inside { IsTrue result → at + 8 ≤ length source.now }
{
    at + 8 <= source.len() && u32_at(source, at + 4) < 1 << 31
}

// Where the next one begins.
#[tactic(auto, unfolding(crate::specs::Chunks::behind))]
fn next(source: &[u8], at: usize) -> usize
    requires small { length source.now ≤ 2 ^ 26 }
    requires inside { at + 8 ≤ length source.now }
    ensures value { result ≡ behind source.now at }
    ensures near { result ≤ 2 ^ 33 }
    ensures further { at + 8 ≤ result }
{
    let length = u32_at(source, at + 4) as usize;
    at + 8 + length + length % 2
}

// The place that was found before, or this one, where the chunk here has this name.
fn first(source: &[u8], found: Option<usize>, name: &[u8], at: usize) -> Option<usize>
    requires { at ≤ length source.now }
    ensures { result ≡ named source.now found name.now at }
{
    if found.is_none() && has(source, name, at) {
        Some(at)
    } else {
        found
    }
}

// The places with that of the chunk here, where it is the first of its name.
fn note(source: &[u8], places: Places, at: usize) -> Places
    requires { at ≤ length source.now }
    ensures { result ≡ noted source.now places at }
{
    Places {
        fmt: first(source, places.fmt, b"fmt ", at),
        cue: first(source, places.cue, b"cue ", at),
        list: match places.cue {
            Some(_) => first(source, places.list, b"LIST", at),
            None => places.list,
        },
        samples: first(source, places.samples, b"data", at),
    }
}

// Where the chunks of a file stand that count.
#[tactic(auto, using(crate::proofs::Walking::walk_laws))]
pub(crate) fn find_chunks(source: &[u8]) -> Places
    requires { length source.now ≤ 2 ^ 26 }
    ensures value { result ≡ places_in source.now }
    ensures inside { AreInside (length source.now) result }
{
    let mut places = Places {
        fmt: None,
        cue: None,
        list: None,
        samples: None,
    };
    let mut at = 12;
    while begins(source, at) {
        places = note(source, places, at);
        at = next(source, at);
    }
    places
}
