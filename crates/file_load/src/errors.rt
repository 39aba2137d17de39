// Why a file was not loaded.
use mem_model::RoomError;
use thiserror::Error;

/// Which of a load's calls of a folder failed.
#[derive(Clone, Copy, Debug, PartialEq, Eq)]
pub enum Stage {
    /// The file was looked for.
    Find,
    /// The file was read into its block.
    Read,
}

/// Why a file was not loaded.
#[derive(Clone, Copy, Debug, PartialEq, Eq, Error)]
pub enum LoadError {
    /// No mount has the name.
    #[error("not found")]
    NotFound,
    /// The file ends at `end` in a pack of `length` bytes.
    #[error("beyond pack: ends at {end} of {length}")]
    BeyondPack { end: u64, length: u64 },
    /// The block needs `asked` bytes, its header included, and there are `room`.
    #[error("failed on {asked} bytes")]
    NoRoom { asked: u64, room: u64 },
    /// A call of the folder of this number failed.
    #[error("folder {folder}: read fault")]
    FolderFault { folder: u32, stage: Stage },
    /// The store had no memory.
    #[error("out of memory")]
    OutOfMemory,
}

impl From<RoomError> for LoadError {
    ghost use Rattle.std.specs.Prelude.{◌≡◌};
    ghost use Rattle.file_load.specs.Refusals.{refused};

    ghost from_gives = { λ error e. e ≡ refused error };

    fn from(error: RoomError) -> Self {
        match error {
            RoomError::NoRoom { asked, room } => LoadError::NoRoom { asked, room },
            RoomError::OutOfMemory => LoadError::OutOfMemory,
        }
    }
}
