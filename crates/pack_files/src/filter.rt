// Which of the packs of a folder may have a name.
ghost use Rattle.std.specs.Prelude.{◌≡◌, ◌==◌, ◌<◌, ℕ, length, vec_len};
ghost use Rattle.pack_files.specs.Filters.{may_have, HasRows};

use crate::entries::Pack;
use crate::hashing::name_hash;
use std::alloc::{AllocError, Global};

// How many masks there are.
const MASKS: usize = 65536;

/// Which of 32 packs may have a name of a hash: a mask of them for each value of the hash's low 16 bits.
#[derive(Drop)]
pub struct Filter {
    masks: Vec<u32>,
    ghost sized: { vec_len masks ≡ 65536 },
}

impl Filter {
    /// A filter of packs without names.
    pub fn create(alloc: Global) -> Result<Filter, AllocError> {
        Ok(Filter {
            masks: vec![in alloc; 0u32; MASKS]?,
        })
    }

    /// Whether the pack may have a name of this hash. It has none where this is false.
    pub fn may_have(&self, pack: u32, hash: u32) -> bool
        requires { pack < 32 }
        ensures { result ≡ (may_have self.now.masks.items pack hash == 1) }
    {
        (self.masks[(hash % 65536) as usize] >> pack) & 1 == 1
    }

    // Adds a name of this hash to the pack.
    fn add(&mut self, pack: u32, hash: u32)
        requires { pack < 32 }
        ensures added { may_have self.new.masks.items pack hash ≡ 1 }
        ensures kept { (other name : ℕ) → may_have self.old.masks.items other name ≡ 1
            → may_have self.new.masks.items other name ≡ 1 }
    {
        self.masks[(hash % 65536) as usize] |= 1 << pack;
    }

    /// Adds the names of the pack.
    pub fn add_all(&mut self, pack: u32, directory: &Pack)
        requires { pack < 32 }
        ensures added { HasRows self.new.masks.items pack directory.now.rows }
        ensures kept { (other name : ℕ) → may_have self.old.masks.items other name ≡ 1
            → may_have self.new.masks.items other name ≡ 1 }
    {
        for row in 0..directory.rows() {
            self.add(pack, name_hash(directory.name(row)));
        }
    }
}
