// What is answered when a resource is acquired.
use crate::kinds::Kind;
use alias_load::AliasFault;
use bsp29_tables::BspFault;
use file_load::LoadError;
use mem_model::RoomError;
use sprite_load::SpriteFault;
use thiserror::Error;
use wad2_lumps::WadFault;
use wav_load::WavFault;

/// Why the bytes of a file are no resource.
#[derive(Clone, Copy, Debug, PartialEq, Eq, Error)]
pub enum Fault {
    /// They are no brush model. Those that begin as no other model are taken for one.
    #[error("bad brush: {0}")]
    Brush(BspFault),
    /// They are no alias model.
    #[error("bad alias: {0}")]
    Alias(AliasFault),
    /// They are no sprite.
    #[error("bad sprite: {0}")]
    Sprite(SpriteFault),
    /// They are no sound.
    #[error("bad sound: {0}")]
    Sound(WavFault),
    /// They are no wad.
    #[error("bad wad: {0}")]
    Wad(WadFault),
}

/// A resource that is there.
#[derive(Clone, Copy, Debug, PartialEq, Eq)]
pub struct Res {
    /// What it is.
    pub kind: Kind,
    /// The size of its image in bytes.
    pub size: u32,
    /// The place of its image.
    pub place: u32,
    /// Whether it was loaded now.
    pub loaded: bool,
}

/// Why a resource is not there.
#[derive(Clone, Copy, Debug, PartialEq, Eq, Error)]
pub enum AcquireError {
    /// The name isn't in the table, and the table has as many names as it can have.
    #[error("table full")]
    TableFull,
    /// No mount has the file.
    #[error("not found")]
    NotFound,
    /// The file ends at `end` in a pack of `length` bytes.
    #[error("beyond pack: ends at {end} of {length}")]
    BeyondPack { end: u64, length: u64 },
    /// The file's bytes are no resource of its kind.
    #[error("{0}")]
    Bad(Fault),
    /// A block needs `asked` bytes, its header included, and there are `room`.
    #[error("failed on {asked} bytes")]
    NoRoom { asked: u64, room: u64 },
    /// A call of the folder of this number failed.
    #[error("folder {folder}: read fault")]
    FolderFault { folder: u32 },
    /// The store had no memory.
    #[error("out of memory")]
    OutOfMemory,
}

impl From<LoadError> for AcquireError {
    ghost use Rattle.std.specs.Prelude.{◌≡◌};
    ghost use Rattle.res_table.specs.Refusals.{load_refused};

    ghost from_gives = { λ error e. e ≡ load_refused error };

    fn from(error: LoadError) -> Self {
        match error {
            LoadError::NotFound => AcquireError::NotFound,
            LoadError::BeyondPack { end, length } => AcquireError::BeyondPack { end, length },
            LoadError::NoRoom { asked, room } => AcquireError::NoRoom { asked, room },
            LoadError::FolderFault { folder, .. } => AcquireError::FolderFault { folder },
            LoadError::OutOfMemory => AcquireError::OutOfMemory,
        }
    }
}

impl From<RoomError> for AcquireError {
    ghost use Rattle.std.specs.Prelude.{◌≡◌};
    ghost use Rattle.res_table.specs.Refusals.{room_refused};

    ghost from_gives = { λ error e. e ≡ room_refused error };

    fn from(error: RoomError) -> Self {
        match error {
            RoomError::NoRoom { asked, room } => AcquireError::NoRoom { asked, room },
            RoomError::OutOfMemory => AcquireError::OutOfMemory,
        }
    }
}

impl From<Fault> for AcquireError {
    ghost use Rattle.std.specs.Prelude.{◌≡◌};
    ghost use Rattle.res_table.specs.declared.answers.AcquireError.{AcquireError};

    ghost from_gives = { λ fault e. e ≡ AcquireError.Bad fault };

    fn from(fault: Fault) -> Self {
        AcquireError::Bad(fault)
    }
}
