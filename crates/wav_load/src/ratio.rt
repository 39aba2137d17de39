// A rate beside a speed.
ghost use Rattle.std.specs.Prelude.{◌≡◌, ◌==◌, ◌*◌, ◌≤◌, ◌^◌, IfSome};
ghost use Rattle.std.specs.List.{find};

/// How many samples of a rate come on those of a speed: a power of two, or a part of one.
#[derive(Clone, Copy, Debug)]
pub(crate) enum Ratio {
    // the rate is so many times the speed
    Times(u32),
    // the speed is so many times the rate
    Part(u32),
}

// The factors that are taken.
const POWERS: [u32; 9] = [1, 2, 4, 8, 16, 32, 64, 128, 256];

// The first of these numbers that brings one rate to another.
fn factor(powers: &[u32], low: u32, high: u32) -> Option<u32>
    ensures { result ≡ find (λ power. low * power == high) powers.now }
{
    powers.iter().copied().find(|power| u64::from(low) * u64::from(*power) == u64::from(high))
}

impl Ratio {
    ghost use Rattle.wav_load.specs.Ratios.{IsSmall, ratio_of, scaled};

    // The ratio of a rate to a speed, if it is one that is taken.
    #[tactic(auto, unfolding(crate::specs::Ratios::ratio_of, crate::specs::Ratios::powers))]
    pub(crate) fn of(rate: u32, speed: u32) -> Option<Ratio>
        ensures value { result ≡ ratio_of rate speed }
        ensures small { IfSome result IsSmall }
    {
        if rate == 0 {
            return None;
        }
        match factor(&POWERS, speed, rate) {
            Some(power) => Some(Ratio::Times(power)),
            None => factor(&POWERS, rate, speed).map(Ratio::Part),
        }
    }

    // So many samples of the rate, brought to the speed.
    pub(crate) fn scale(self, count: u32) -> u32
        requires small { IsSmall self }
        requires few { count ≤ 2 ^ 22 }
        ensures value { result ≡ scaled self count }
        ensures most { result ≤ 2 ^ 30 }
    {
        match self {
            Ratio::Times(power) => count / power,
            Ratio::Part(power) => count * power,
        }
    }
}
