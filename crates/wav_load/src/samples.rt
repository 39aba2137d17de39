// The samples of a sound, brought to its speed.
ghost use Rattle.std.specs.Prelude.{◌≡◌, ◌*◌, ◌/◌, ◌%◌, ◌≤◌, ◌<◌, ◌^◌, [], ◌∷◌, length};
ghost use Rattle.std.specs.List.{repeat};
ghost use Rattle.wav_load.specs.declared.ratio.Ratio.TheVariants.{Times, Part};
ghost use Rattle.wav_load.specs.Ratios.{scaled, IsSmall};
ghost use Rattle.wav_load.specs.Faults.{IsInside};
ghost use Rattle.wav_load.specs.Images.{centred, outputs, samples_of, count_of};

use crate::ratio::Ratio;
use crate::sound::Sound;

// A sample of 8 bits as it is kept: less 128.
fn centred(sample: u8) -> u8
    ensures { result ≡ centred sample }
{
    sample.wrapping_add(128)
}

// Each sample of 8 bits once.
#[tactic(auto, using(crate::proofs::SampleLaws::sample_laws))]
fn keep_bytes(block: &mut [u8], input: &[u8])
    requires { length block.old ≡ length input.now }
    ensures { block.new ≡ outputs 1 (Times 1) input.now (length block.old) }
{
    for i in 0..block.len() {
        block[i] = centred(input[i]);
    }
}

// The first of each so many samples of 8 bits.
#[tactic(auto, using(crate::proofs::SampleLaws::sample_laws))]
fn skip_bytes(block: &mut [u8], input: &[u8], power: usize)
    requires least { 0 < power }
    requires few { length input.now ≤ 2 ^ 26 }
    requires sized { length block.old ≡ length input.now / power }
    ensures { block.new ≡ outputs 1 (Times power) input.now (length block.old) }
{
    for i in 0..block.len() {
        block[i] = centred(input[i * power]);
    }
}

// Each sample of 8 bits so many times.
#[tactic(auto, using(crate::proofs::SampleLaws::sample_laws))]
fn repeat_bytes(block: &mut [u8], input: &[u8], power: usize)
    requires small { (0 < power) × (power ≤ 256) }
    requires few { length input.now ≤ 2 ^ 26 }
    requires sized { length block.old ≡ length input.now * power }
    ensures { block.new ≡ outputs 1 (Part power) input.now (length block.old) }
{
    for (i, sample) in input.iter().enumerate() {
        let at = i * power;
        block[at..at + power].fill(centred(*sample));
    }
}

// The samples of 8 bits, brought to the speed.
fn put_bytes(block: &mut [u8], input: &[u8], ratio: Ratio)
    requires small { IsSmall ratio }
    requires few { length input.now ≤ 2 ^ 26 }
    requires sized { length block.old ≡ scaled ratio (length input.now) }
    ensures { block.new ≡ outputs 1 ratio input.now (length block.old) }
{
    match ratio {
        Ratio::Times(1) => keep_bytes(block, input),
        Ratio::Times(power) => skip_bytes(block, input, power as usize),
        Ratio::Part(power) => repeat_bytes(block, input, power as usize),
    }
}

// Each sample of 16 bits once.
#[tactic(auto, using(crate::proofs::SampleLaws::words_kept))]
fn keep_words(block: &mut [u8], input: &[u8])
    requires even { length input.now % 2 ≡ 0 }
    requires sized { length block.old ≡ length input.now }
    ensures { block.new ≡ outputs 2 (Times 1) input.now (length block.old / 2) }
{
    block.copy_from_slice(input);
}

// The first of each so many samples of 16 bits.
#[tactic(auto, using(crate::proofs::SampleLaws::sample_laws))]
fn skip_words(block: &mut [u8], input: &[u8], power: usize)
    requires least { 0 < power }
    requires few { length input.now ≤ 2 ^ 26 }
    requires sized { length block.old ≡ 2 * (length input.now / 2 / power) }
    ensures { block.new ≡ outputs 2 (Times power) input.now (length block.old / 2) }
{
    for i in 0..block.len() / 2 {
        let at = 2 * (i * power);
        block[2 * i] = input[at];
        block[2 * i + 1] = input[at + 1];
    }
}

// The same sample again and again.
#[tactic(auto, using(crate::proofs::SampleLaws::word_again))]
fn fill_words(block: &mut [u8], low: u8, high: u8)
    requires { length block.old % 2 ≡ 0 }
    ensures { block.new ≡ repeat (length block.old / 2) (low ∷ high ∷ []) }
{
    for i in 0..block.len() / 2 {
        block[2 * i] = low;
        block[2 * i + 1] = high;
    }
}

// Each sample of 16 bits so many times.
#[tactic(auto, using(crate::proofs::SampleLaws::sample_laws))]
fn repeat_words(block: &mut [u8], input: &[u8], power: usize)
    requires small { (0 < power) × (power ≤ 256) }
    requires few { length input.now ≤ 2 ^ 26 }
    requires sized { length block.old ≡ 2 * (length input.now / 2 * power) }
    ensures { block.new ≡ outputs 2 (Part power) input.now (length block.old / 2) }
{
    for i in 0..input.len() / 2 {
        let at = 2 * (i * power);
        fill_words(
            &mut block[at..at + 2 * power],
            input[2 * i],
            input[2 * i + 1],
        );
    }
}

// The samples of 16 bits, brought to the speed.
fn put_words(block: &mut [u8], input: &[u8], ratio: Ratio)
    requires small { IsSmall ratio }
    requires few { length input.now ≤ 2 ^ 26 }
    requires even { length input.now % 2 ≡ 0 }
    requires sized { length block.old ≡ 2 * scaled ratio (length input.now / 2) }
    ensures { block.new ≡ outputs 2 ratio input.now (length block.old / 2) }
{
    match ratio {
        Ratio::Times(1) => keep_words(block, input),
        Ratio::Times(power) => skip_words(block, input, power as usize),
        Ratio::Part(power) => repeat_words(block, input, power as usize),
    }
}

// The samples of a sound, from where they stand in its file.
pub(crate) fn put_samples(block: &mut [u8], source: &[u8], sound: &Sound)
    requires inside { IsInside (length source.now) sound.now }
    requires small { length source.now ≤ 2 ^ 26 }
    requires sized { length block.old ≡ sound.now.width * count_of sound.now }
    ensures { block.new ≡ samples_of source.now sound.now }
{
    let length = sound.width as usize * sound.played as usize;
    let input = &source[sound.from..sound.from + length];
    if sound.width == 1 {
        put_bytes(block, input, sound.ratio);
    } else {
        put_words(block, input, sound.ratio);
    }
}
