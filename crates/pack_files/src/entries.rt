// The files of a pack.
ghost use Rattle.std.specs.Prelude.{◌≡◌, ◌<◌, length, option_map, slice_get, Some};
ghost use Rattle.pack_files.specs.Packs.{Row, entry_of};

use crate::names::{Name, Sought};
use indexmap::IndexMap;
use std::marker::Model;

/// Where a file stands in its pack, and how many bytes it has. Its end may lie past the pack's end.
#[derive(Clone, Copy, Debug, PartialEq, Eq)]
pub struct Entry {
    /// The place of its first byte.
    pub offset: u32,
    /// How many bytes it has.
    pub length: u32,
}

/// The directory of a pack. Contracts see it as the first row of each name, the count of all rows, and the pack's length.
#[derive(Drop)]
pub struct Pack {
    pub(crate) count: u32,
    pub(crate) whole: u64,
    // The first entry of each name.
    pub(crate) entries: IndexMap<Name, Entry>,
}

impl Model for Pack {
    ghost use Rattle.pack_files.specs.Packs.{PackTable, table_of};

    ghost Value = { PackTable };

    ghost view = { λ p. record { rows = table_of p.entries.entries; count = p.count; whole = p.whole } };
}

impl Pack {
    /// The first entry of this name.
    pub fn entry(&self, name: &[u8]) -> Option<Entry>
        ensures { result ≡ entry_of name.now self.now.rows }
    {
        self.entries.get(Sought { bytes: name }).copied()
    }

    /// How many rows there are, one for each name.
    pub fn rows(&self) -> usize
        ensures { result ≡ length self.now.rows }
    {
        self.entries.len()
    }

    /// The name of the row of this number.
    pub fn name(&self, row: usize) -> &[u8]
        requires { row < length self.now.rows }
        ensures { option_map (λ (r : Row). r.name) (slice_get self.now.rows row) ≡ Some result.now }
    {
        let (name, _) = self.entries.get_index(row).unwrap();
        name.as_bytes()
    }

    /// How many entries the directory has, those of a name that came before included.
    pub fn count(&self) -> u32
        ensures { result ≡ self.now.count }
    {
        self.count
    }

    /// The length of the pack in bytes.
    pub fn whole(&self) -> u64
        ensures { result ≡ self.now.whole }
    {
        self.whole
    }
}
