//! The blocks of a plain store, each seen as the block that it stands for.

ghost use Rattle.std.specs.Prelude.{◌≡◌, ◌<◌, ◌≤◌, ◌^◌, ◌++◌, ◌∷◌, [], IfOk, OnOk, OnErr, length, vec_len, vec_capacity};
ghost use Rattle.std.specs.List.{insert};
ghost use Rattle.std.specs.Borrow.{sem, Lends, u8 as byte, Array};
ghost use Rattle.mem_model.specs.Hunk.{with_bytes, hunk_block};
ghost use Rattle.mem_model.specs.Zone.{free_block, used_block, with_payload};
ghost use Rattle.mem_model.specs.Plain.{is_fit};
ghost use Rattle.mem_model.specs.Rows.{hunk_row, zone_row, cache_row};
ghost use Rattle.mem_model.specs.Cache.{new_block};
ghost use Rattle.mem_model.specs.Images.{with_contents};
ghost use Rattle.mem_model.specs.Places.{end_of};
ghost use Rattle.mem_model.specs.Told.{row_of};
ghost use Rattle.mem_model.specs.contracts.cells.HunkCell.{the_row as hunk_cell_row};
ghost use Rattle.mem_model.specs.contracts.cells.ZoneCell.{the_row as zone_cell_row};
ghost use Rattle.mem_model.specs.contracts.cells.CacheCell.{the_row as cache_cell_row};

use crate::answers::BlockRow;
use arrayvec::ArrayVec;
use std::alloc::{AllocError, Global};
use std::marker::Model;

// A push whose failure says only that memory ran out.
pub fn add<T: Drop>(list: &mut Vec<T>, item: T) -> Result<(), AllocError>
    ensures ok { OnOk result (list.new.items ≡ list.old.items ++ item ∷ []) }
    ensures err { OnErr result (list.new.items ≡ list.old.items) }
{
    list.push(item)?;
    Ok(())
}

// An insert into room that was made before.
pub fn insert_reserved<T: Drop>(list: &mut Vec<T>, at: usize, item: T)
    requires inside { at ≤ vec_len list.old }
    requires room { vec_len list.old < vec_capacity list.old }
    ensures { list.new.items ≡ insert list.old.items at item }
{
    if list.insert(at, item).is_err() {
        unreachable!()
    }
}

/// A block of a hunk.
#[derive(Drop)]
pub struct HunkCell {
    size: u32,
    name: ArrayVec<u8, 8>,
    bytes: Vec<u8>,
}

impl Model for HunkCell {
    ghost use Rattle.mem_model.specs.Blocks.{HunkBlock};

    ghost Value = { HunkBlock };

    ghost view = { λ c. record { size = c.size; name = c.name.items; bytes = c.bytes.items } };
}

impl HunkCell {
    /// A block of `size` bytes, its header of 16 included, with zero bytes and the first 8 bytes of a name.
    pub fn zeroed(alloc: Global, size: u32, name: &[u8]) -> Result<HunkCell, AllocError>
        requires { 16 ≤ size }
        ensures { IfOk result (λ c. c ≡ hunk_block size name.now) }
    {
        let bytes = vec![in alloc; 0; (size - 16) as usize]?;
        let name = ArrayVec::try_from(&name[..name.len().min(8)]).unwrap();
        Ok(HunkCell { size, name, bytes })
    }

    /// A block with a whole name and no bytes of its own.
    pub fn bare(alloc: Global, size: u32, name: &[u8]) -> HunkCell
        requires { length name.now ≤ 8 }
        ensures { result ≡ record { size = size; name = name.now; bytes = [] } }
    {
        HunkCell {
            size,
            name: ArrayVec::try_from(name).unwrap(),
            bytes: Vec::new(alloc),
        }
    }

    /// The size, the header of 16 included.
    pub fn size(&self) -> u32
        ensures { result ≡ self.now.size }
    {
        self.size
    }

    /// The row of this block, whose header is at a place.
    pub fn row(&self, place: u32) -> BlockRow
        ensures { row_of result ≡ hunk_row place self.now }
    {
        let mut name = [0; 16];
        name[..self.name.len()].copy_from_slice(&self.name);
        BlockRow {
            place,
            size: self.size,
            name,
            user: 0,
            used: true,
        }
    }

    /// The bytes, which outlast the block.
    pub fn into_bytes(self) -> Vec<u8>
        ensures { result.items ≡ self.bytes }
    {
        self.bytes
    }

    pub fn bytes(&self) -> &[u8]
        ensures { result.now ≡ self.now.bytes }
    {
        self.bytes.as_slice()
    }

    pub fn bytes_mut(&mut self) -> &mut [u8]
        ensures* writes_back { sem 𝓛 (Lends hunk_cell_row (Array byte 0) self.entry result (with_bytes self.old)) }
        ensures shows { result.now ≡ self.old.bytes }
    {
        self.bytes.as_mut_slice()
    }
}

/// A block of the zone.
#[derive(Drop)]
pub struct ZoneCell {
    size: u32,
    used: bool,
    bytes: Vec<u8>,
}

impl Model for ZoneCell {
    ghost use Rattle.mem_model.specs.Blocks.{ZoneBlock};

    ghost Value = { ZoneBlock };

    ghost view = { λ c. record { size = c.size; used = c.used; bytes = c.bytes.items } };
}

impl ZoneCell {
    /// A free block.
    pub fn free(alloc: Global, size: u32) -> ZoneCell
        ensures { result ≡ free_block size }
    {
        ZoneCell {
            size,
            used: false,
            bytes: Vec::new(alloc),
        }
    }

    /// A block in use, of `size` bytes, its header of 24 and its end mark of 4 included, with zero bytes.
    pub fn used(alloc: Global, size: u32) -> Result<ZoneCell, AllocError>
        requires { 28 ≤ size }
        ensures { IfOk result (λ c. c ≡ used_block size) }
    {
        let bytes = vec![in alloc; 0; (size - 28) as usize]?;
        Ok(ZoneCell {
            size,
            used: true,
            bytes,
        })
    }

    /// The size, the header of 24 and the end mark of 4 included.
    pub fn size(&self) -> u32
        ensures { result ≡ self.now.size }
    {
        self.size
    }

    pub fn is_used(&self) -> bool
        ensures { result ≡ self.now.used }
    {
        self.used
    }

    /// Whether it is free, and of at least this size.
    pub fn fits(&self, need: u64) -> bool
        ensures { result ≡ is_fit need self.now }
    {
        !self.used && need <= u64::from(self.size)
    }

    /// The row of this block, whose header is at a place.
    pub fn row(&self, place: u32) -> BlockRow
        ensures { row_of result ≡ zone_row place self.now }
    {
        BlockRow {
            place,
            size: self.size,
            name: [0; 16],
            user: 0,
            used: self.used,
        }
    }

    pub fn bytes(&self) -> &[u8]
        ensures { result.now ≡ self.now.bytes }
    {
        self.bytes.as_slice()
    }

    pub fn bytes_mut(&mut self) -> &mut [u8]
        ensures* writes_back { sem 𝓛 (Lends zone_cell_row (Array byte 0) self.entry result (with_payload self.old)) }
        ensures shows { result.now ≡ self.old.bytes }
    {
        self.bytes.as_mut_slice()
    }
}

/// A block of the cache.
#[derive(Drop)]
pub struct CacheCell {
    place: u32,
    size: u32,
    user: u32,
    name: Vec<u8>,
    bytes: Vec<u8>,
}

impl Model for CacheCell {
    ghost use Rattle.mem_model.specs.Blocks.{CacheBlock};

    ghost Value = { CacheBlock };

    ghost view = { λ c.
        record { place = c.place; size = c.size; user = c.user; name = c.name.items; bytes = c.bytes.items } };
}

impl CacheCell {
    /// A block of `size` bytes, its header of 40 included, with zero bytes and the first 15 bytes of a name.
    pub fn zeroed(alloc: Global, size: u32, user: u32, name: &[u8]) -> Result<CacheCell, AllocError>
        requires { 40 ≤ size }
        ensures { IfOk result (λ c. c ≡ new_block 0 size user name.now) }
    {
        let bytes = vec![in alloc; 0; (size - 40) as usize]?;
        CacheCell::holding(alloc, size, user, name, bytes)
    }

    /// The same with some bytes, which are cut, or followed by zeros, to as many as the block has.
    pub fn filled(
        alloc: Global,
        size: u32,
        user: u32,
        name: &[u8],
        bytes: Vec<u8>,
    ) -> Result<CacheCell, AllocError>
        requires { 40 ≤ size }
        ensures { IfOk result (λ c. c ≡ with_contents (new_block 0 size user name.now) bytes.items) }
    {
        let len = (size - 40) as usize;
        let mut bytes = bytes;
        // No more room than that: an allocator often has a few bytes behind a block, and then copies nothing.
        bytes.reserve_exact(len.saturating_sub(bytes.len()))?;
        bytes.resize(len, 0)?;
        CacheCell::holding(alloc, size, user, name, bytes)
    }

    // The same with these bytes as they are.
    fn holding(
        alloc: Global,
        size: u32,
        user: u32,
        name: &[u8],
        bytes: Vec<u8>,
    ) -> Result<CacheCell, AllocError>
        ensures { IfOk result (λ c. c ≡ record (new_block 0 size user name.now) { bytes = bytes.items }) }
    {
        let mut front = Vec::new(alloc);
        front.extend_from_slice(&name[..name.len().min(15)])?;
        Ok(CacheCell {
            place: 0,
            size,
            user,
            name: front,
            bytes,
        })
    }

    /// Where the header is.
    pub fn place(&self) -> u32
        ensures { result ≡ self.now.place }
    {
        self.place
    }

    /// The size, the header of 40 included.
    pub fn size(&self) -> u32
        ensures { result ≡ self.now.size }
    {
        self.size
    }

    pub fn user(&self) -> u32
        ensures { result ≡ self.now.user }
    {
        self.user
    }

    /// Where the block ends.
    pub fn end(&self) -> u32
        requires { end_of self.now ≤ 2 ^ 26 }
        ensures { result ≡ end_of self.now }
    {
        self.place + self.size
    }

    /// The same block at another place.
    pub fn set_place(&mut self, place: u32)
        ensures { self.new ≡ record self.old { place = place } }
    {
        self.place = place;
    }

    /// The row of this block.
    pub fn row(&self) -> BlockRow
        requires { length self.now.name ≤ 16 }
        ensures { row_of result ≡ cache_row self.now }
    {
        let mut name = [0; 16];
        name[..self.name.len()].copy_from_slice(&self.name);
        BlockRow {
            place: self.place,
            size: self.size,
            name,
            user: self.user,
            used: true,
        }
    }

    pub fn bytes(&self) -> &[u8]
        ensures { result.now ≡ self.now.bytes }
    {
        self.bytes.as_slice()
    }

    pub fn bytes_mut(&mut self) -> &mut [u8]
        ensures* writes_back { sem 𝓛 (Lends cache_cell_row (Array byte 0) self.entry result (with_contents self.old)) }
        ensures shows { result.now ≡ self.old.bytes }
    {
        self.bytes.as_mut_slice()
    }
}
