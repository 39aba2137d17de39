//! What the calls of a store answer.

ghost use Rattle.std.specs.Prelude.{◌≡◌};
ghost use Rattle.base_fields.specs.Texts.{until_zero};

use base_fields::before_zero;
use std::alloc::AllocError;
use thiserror::Error;

/// Where a block's payload begins: an offset in the arena, in bytes.
#[derive(Clone, Copy, Debug, PartialEq, Eq)]
pub struct Place(pub u32);

/// Why a hunk gave no block.
#[derive(Clone, Copy, Debug, PartialEq, Eq, Error)]
pub enum RoomError {
    /// The block needs `asked` bytes, its header included, and there are `room`.
    #[error("failed on {asked} bytes")]
    NoRoom { asked: u64, room: u64 },
    #[error("out of memory")]
    OutOfMemory,
}

/// A mark that is the end of neither the zone's block nor a block above it.
#[derive(Clone, Copy, Debug, PartialEq, Eq, Error)]
#[error("bad mark {mark}")]
pub struct BadMark {
    pub mark: u32,
}

/// Why the zone gave no block.
#[derive(Clone, Copy, Debug, PartialEq, Eq, Error)]
pub enum ZoneError {
    /// No free block has the `asked` bytes that the new one needs, its header and its end mark included.
    #[error("zone full: {asked} bytes")]
    Full { asked: u64 },
    #[error("out of memory")]
    OutOfMemory,
}

/// Why a place of the zone was not freed.
#[derive(Clone, Copy, Debug, PartialEq, Eq, Error)]
pub enum FreeError {
    /// No block of the zone has its payload there.
    #[error("no zone block at {place}")]
    NotZone { place: u32 },
    /// The block there is free.
    #[error("zone block at {place} is free")]
    AlreadyFree { place: u32 },
}

/// Why a user got no block of the cache.
#[derive(Clone, Copy, Debug, PartialEq, Eq, Error)]
pub enum CacheError {
    /// The block needs `asked` bytes, its header included, and there are `room`.
    #[error("failed on {asked} bytes")]
    NoRoom { asked: u64, room: u64 },
    /// The user has a block.
    #[error("user {user} has a block")]
    Occupied { user: u32 },
    /// No block has 0 bytes.
    #[error("no bytes asked")]
    BadSize,
    #[error("out of memory")]
    OutOfMemory,
}

/// What a report says of a block.
#[derive(Clone, Copy, Debug, PartialEq, Eq)]
pub struct BlockRow {
    /// Where the block's header begins: an offset in the arena, in bytes.
    pub place: u32,
    /// In bytes, the header included.
    pub size: u32,
    /// Padded with zeros.
    pub name: [u8; 16],
    /// Whose block it is, or 0 where blocks have no users.
    pub user: u32,
    /// Whether the block is in use.
    pub used: bool,
}

impl BlockRow {
    /// The name without the zeros behind it.
    pub fn name_bytes(&self) -> &[u8]
        ensures { result.now ≡ until_zero self.now.name }
    {
        before_zero(&self.name)
    }
}

/// Why a store was not made.
#[derive(Clone, Copy, Debug, PartialEq, Eq, Error)]
pub enum StoreStart {
    /// The arena does not hold the zone's block.
    #[error("heap too small")]
    TooSmall,
    #[error("out of memory")]
    OutOfMemory,
}

impl From<AllocError> for RoomError {
    ghost use Rattle.mem_model.specs.declared.answers.RoomError.{RoomError};
    ghost use Rattle.std.specs.Prelude.{◌≡◌};

    ghost from_gives = { λ _ e. e ≡ RoomError.OutOfMemory };

    fn from(_error: AllocError) -> Self {
        RoomError::OutOfMemory
    }
}

impl From<AllocError> for ZoneError {
    ghost use Rattle.mem_model.specs.declared.answers.ZoneError.{ZoneError};
    ghost use Rattle.std.specs.Prelude.{◌≡◌};

    ghost from_gives = { λ _ e. e ≡ ZoneError.OutOfMemory };

    fn from(_error: AllocError) -> Self {
        ZoneError::OutOfMemory
    }
}

impl From<AllocError> for CacheError {
    ghost use Rattle.mem_model.specs.declared.answers.CacheError.{CacheError};
    ghost use Rattle.std.specs.Prelude.{◌≡◌};

    ghost from_gives = { λ _ e. e ≡ CacheError.OutOfMemory };

    fn from(_error: AllocError) -> Self {
        CacheError::OutOfMemory
    }
}

impl From<AllocError> for StoreStart {
    ghost use Rattle.mem_model.specs.declared.answers.StoreStart.{StoreStart};
    ghost use Rattle.std.specs.Prelude.{◌≡◌};

    ghost from_gives = { λ _ e. e ≡ StoreStart.OutOfMemory };

    fn from(_error: AllocError) -> Self {
        StoreStart::OutOfMemory
    }
}
