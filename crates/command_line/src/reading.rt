// The words, read one after another.
ghost use Rattle.std.specs.Prelude.{◌≡◌, ◌≢◌, ℕ, List, Some, None, MatchOption};
ghost use Rattle.command_line.specs.CommandLine.{name_of, least_of, greatest_of, IsSetting, is_folder_word};
ghost use Rattle.command_line.specs.Reading.{set_to, with_set, ReadsMore};

use base_fields::decimal;

/// What an option sets.
#[derive(Clone, Copy, PartialEq, Eq)]
pub(crate) enum Quantity {
    /// The heap's size in KB.
    Heap,
    /// The zone's size in KB.
    Zone,
    /// The output speed of sounds in Hz.
    Speed,
}

impl Quantity {
    // The quantity that an option of this name sets.
    fn named(word: &[u8]) -> Option<Quantity>
        ensures { MatchOption result ((quantity : Quantity) → word.now ≢ name_of quantity)
            (λ quantity. word.now ≡ name_of quantity) }
    {
        if word == b"-heapsize".as_slice() {
            Some(Quantity::Heap)
        } else if word == b"-zone".as_slice() {
            Some(Quantity::Zone)
        } else if word == b"-speed".as_slice() {
            Some(Quantity::Speed)
        } else {
            None
        }
    }

    // The least number and the greatest that it may be.
    fn range(self) -> (u32, u32)
        ensures { result ≡ (least_of self, greatest_of self) }
    {
        match self {
            Quantity::Heap => (1024, 65536),
            Quantity::Zone => (4, 65536),
            Quantity::Speed => (1000, 96000),
        }
    }

    // The number that the word writes, where the quantity may be that.
    fn number(self, word: &[u8]) -> Option<u32>
        ensures { MatchOption result ((n : ℕ) → IsSetting (record { quantity = self; word = word.now; number = n }) → ⊥)
            (λ n. IsSetting (record { quantity = self; word = word.now; number = n })) }
    {
        let (least, greatest) = self.range();
        match decimal(word) {
            Ok(number) if least <= number && number <= greatest => Some(number),
            _ => None,
        }
    }
}

/// What the words read so far say.
#[derive(Clone, Copy)]
pub(crate) struct Reading {
    pub(crate) heap: Option<u32>,
    pub(crate) zone: Option<u32>,
    pub(crate) speed: Option<u32>,
    // The option whose number comes next.
    pub(crate) named: Option<Quantity>,
    pub(crate) folders: usize,
}

impl Reading {
    pub(crate) fn new() -> Reading
        ensures { result ≡ record { heap = None; zone = None; speed = None; named = None; folders = 0 } }
    {
        Reading {
            heap: None,
            zone: None,
            speed: None,
            named: None,
            folders: 0,
        }
    }

    // With one word more, where some lawful line of words begins so.
    pub(crate) fn with_word(self, word: &[u8], most: usize) -> Option<Reading>
        ensures { ReadsMore self word.now most result }
    {
        if let Some(quantity) = self.named {
            return self.with_number(quantity, word);
        }
        match Quantity::named(word) {
            Some(quantity) if self.folders == 0 => self.with_name(quantity, word),
            _ => self.with_folder(word, most),
        }
    }

    // The number that a quantity was given.
    fn given(self, quantity: Quantity) -> Option<u32>
        ensures { result ≡ set_to quantity self }
    {
        match quantity {
            Quantity::Heap => self.heap,
            Quantity::Zone => self.zone,
            Quantity::Speed => self.speed,
        }
    }

    // With this number for a quantity, and no option that waits for one.
    fn with_set(self, quantity: Quantity, number: u32) -> Reading
        ensures { result ≡ with_set quantity number self }
    {
        let read = Reading {
            named: None,
            ..self
        };
        match quantity {
            Quantity::Heap => Reading {
                heap: Some(number),
                ..read
            },
            Quantity::Zone => Reading {
                zone: Some(number),
                ..read
            },
            Quantity::Speed => Reading {
                speed: Some(number),
                ..read
            },
        }
    }

    // With the number that an option waits for.
    fn with_number(self, quantity: Quantity, word: &[u8]) -> Option<Reading>
        requires { self.named ≡ Some quantity }
        ensures { (most : ℕ) → ReadsMore self word.now most result }
    {
        let number = quantity.number(word)?;
        Some(self.with_set(quantity, number))
    }

    // With the name of an option that isn't given yet.
    fn with_name(self, quantity: Quantity, word: &[u8]) -> Option<Reading>
        requires none { self.named ≡ None }
        requires front { self.folders ≡ 0 }
        requires name { word.now ≡ name_of quantity }
        ensures { (most : ℕ) → ReadsMore self word.now most result }
    {
        if self.given(quantity).is_some() {
            return None;
        }
        Some(Reading {
            named: Some(quantity),
            ..self
        })
    }

    // With one folder word more.
    fn with_folder(self, word: &[u8], most: usize) -> Option<Reading>
        requires none { self.named ≡ None }
        requires no_name { self.folders ≡ 0 → (quantity : Quantity) → word.now ≢ name_of quantity }
        ensures { ReadsMore self word.now most result }
    {
        if is_folder(word) && self.folders < most {
            return Some(Reading {
                folders: self.folders + 1,
                ..self
            });
        }
        None
    }
}

fn is_folder(word: &[u8]) -> bool
    ensures { result ≡ is_folder_word word.now }
{
    match word {
        [] => false,
        [first, ..] => *first != b'-',
    }
}
