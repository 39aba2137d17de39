// Why a pack was not read.
use thiserror::Error;

/// Why a file is no pack that is taken. The first of these counts.
#[derive(Clone, Copy, Debug, PartialEq, Eq, Error)]
pub enum PackFault {
    /// It has fewer than 12 bytes, or doesn't begin with `PACK`.
    #[error("not a pack")]
    NotPack,
    /// Its directory has more than 2048 entries.
    #[error("{count} entries")]
    TooMany {
        /// How many it has.
        count: u32,
    },
    /// Its directory ends past the file's end.
    #[error("directory outside")]
    DirOutside,
}

/// Why a pack was not read.
#[derive(Clone, Copy, Debug, PartialEq, Eq, Error)]
pub enum PackError {
    /// The file is no pack that is taken.
    #[error("bad pack: {0}")]
    Bad(PackFault),
    /// A read of the folder failed.
    #[error("folder read fault")]
    FolderFault,
    /// The host had no memory for the directory.
    #[error("out of memory")]
    OutOfMemory,
}
