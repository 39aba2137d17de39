// The kinds of resources, and the tables of their names.
ghost use Rattle.std.specs.Prelude.{◌≡◌, ◌<◌};
ghost use Rattle.base_fields.specs.Names.{is_game_name};
ghost use Rattle.res_table.specs.Images.{HasFileName, file_of, kind_of, model_kind};
ghost use Rattle.res_table.specs.Placed.{low_at};
ghost use Rattle.res_table.specs.Tables.{most_of, user_of};

use base_fields::{GameName, joined};
use mem_model::Place;

/// What a resource is.
#[derive(Clone, Copy, Debug, PartialEq, Eq)]
pub enum Kind {
    /// A brush model, on the low hunk.
    Brush,
    /// An alias model, in the cache.
    Alias,
    /// A sprite, on the low hunk.
    Sprite,
    /// A wad, on the low hunk.
    Wad,
    /// Samples, in the cache.
    Sound,
}

impl Kind {
    // The low place of an image, where it isn't in the cache.
    pub(crate) fn low_at(self, place: Place) -> Option<Place>
        ensures { result ≡ low_at self place.0 }
    {
        match self {
            Kind::Brush | Kind::Sprite | Kind::Wad => Some(place),
            Kind::Alias | Kind::Sound => None,
        }
    }
}

/// A table of names. Each name of a table has a slot, and each slot a user of the cache.
#[derive(Clone, Copy, Debug, PartialEq, Eq)]
pub enum Table {
    /// The names of models, which are those of their files. There are 256 at most, and their users are 0 to 255.
    Models,
    /// The names of sounds. There are 512 at most, and their users are 256 to 767.
    Sounds,
}

impl Table {
    // How many names it has at most.
    pub(crate) fn most(self) -> usize
        ensures { result ≡ most_of self }
    {
        match self {
            Table::Models => 256,
            Table::Sounds => 512,
        }
    }

    // The user of the cache that a slot has.
    pub(crate) fn user(self, slot: usize) -> u32
        requires { slot < most_of self }
        ensures { result ≡ user_of self slot }
    {
        match self {
            Table::Models => slot as u32,
            Table::Sounds => 256 + slot as u32,
        }
    }

    /// Whether the name of the file of a name is a lawful one. That of a model is the name, and that of a sound is `sound/`
    /// and the name.
    #[tactic(auto, using(crate::proofs::Naming::naming))]
    pub fn has_file(self, name: &GameName) -> bool
        ensures { result ≡ is_game_name (file_of self name.now) }
    {
        let word = name.bytes();
        match self {
            Table::Models => true,
            Table::Sounds => joined(b"sound/", word, b"").is_ok(),
        }
    }

    /// The name of the file of a name.
    #[tactic(auto, using(crate::proofs::Naming::naming))]
    pub fn file(self, name: &GameName) -> GameName
        requires { HasFileName self name.now }
        ensures { result ≡ file_of self name.now }
    {
        match self {
            Table::Models => name.copied(),
            Table::Sounds => joined(b"sound/", name.bytes(), b"").unwrap(),
        }
    }

    // What the bytes of a file are made into.
    pub(crate) fn kind(self, source: &[u8]) -> Kind
        ensures { result ≡ kind_of self source.now }
    {
        match self {
            Table::Models => model_kind(source),
            Table::Sounds => Kind::Sound,
        }
    }
}

// A model is known by its first four bytes, and a brush by having none of these.
fn model_kind(source: &[u8]) -> Kind
    ensures { result ≡ model_kind source.now }
{
    if source.starts_with(b"IDPO") {
        Kind::Alias
    } else if source.starts_with(b"IDSP") {
        Kind::Sprite
    } else if source.starts_with(b"WAD2") {
        Kind::Wad
    } else {
        Kind::Brush
    }
}
