// The names of lumps.
ghost use Rattle.std.specs.Prelude.{◌≡◌, ◌≢◌, ◌≤◌, All, length, take};
ghost use Rattle.base_fields.specs.Texts.{until_zero};
ghost use Rattle.wad2_lumps.specs.Names.{cleaned};

use arrayvec::ArrayVec;
use base_fields::before_zero;
use std::marker::Model;

/// The name of a lump, as names are compared. Contracts see it as its bytes.
#[derive(Debug, Drop)]
pub struct LumpName {
    name: ArrayVec<u8, 16>,
}

impl Model for LumpName {
    ghost use Rattle.std.specs.Prelude.{◌≡◌, List, ℕ};
    ghost use Rattle.wad2_lumps.specs.Names.{cleaned};

    ghost Value = { List ℕ };

    ghost view = { λ a. a.name.items };

    ghost invariant = { λ a. cleaned a.name.items ≡ a.name.items };
}

impl LumpName {
    /// The bytes of the name, at most 16.
    pub fn bytes(&self) -> &[u8]
        ensures value { result.now ≡ self.now }
        ensures same { cleaned result.now ≡ result.now }
        ensures sized { length result.now ≤ 16 }
        ensures text { All (λ c. c ≢ 0) result.now }
    {
        self.name.as_slice()
    }
}

// The bytes that count of a name: the first 16 at most, and those before the first zero.
pub(crate) fn cut(name: &[u8]) -> &[u8]
    ensures value { result.now ≡ until_zero (take 16 name.now) }
    ensures sized { length result.now ≤ 16 }
{
    before_zero(&name[..name.len().min(16)])
}

/// A name as names are compared: cut to 16 bytes, cut at the first zero byte, and its letters A to Z made lower case.
pub fn cleaned(name: &[u8]) -> LumpName
    ensures { result ≡ cleaned name.now }
{
    let mut name = ArrayVec::<u8, 16>::try_from(cut(name)).unwrap();
    name.make_ascii_lowercase();
    LumpName { name }
}
