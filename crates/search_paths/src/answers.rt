// What the path answers.
use pack_files::PackFault;
use thiserror::Error;

/// Where a file stands on the path.
#[derive(Clone, Copy, Debug, PartialEq, Eq)]
pub struct FileRef {
    /// The number of its mount, from 0 at the path's front.
    pub mount: u32,
    /// The place of its first byte in what it lies in: a pack, or the file itself.
    pub offset: u64,
    /// How many bytes it has.
    pub length: u64,
    /// How many bytes that has in which it lies. The file's end may lie past it.
    pub whole: u64,
}

/// A call of the folder of this number failed. Folders are numbered from 0 in the order in which they were handed in.
#[derive(Clone, Copy, Debug, PartialEq, Eq)]
pub struct FolderFault {
    pub folder: u32,
}

/// Why a folder was not mounted.
#[derive(Clone, Copy, Debug, PartialEq, Eq, Error)]
pub enum MountError {
    /// A pack of the folder is no pack that is taken: the first such pack.
    #[error("folder {folder}: pak{pack}.pak: {fault}")]
    BadPack {
        /// The number of the folder.
        folder: u32,
        /// The number of the pack.
        pack: u32,
        /// Why it is not taken.
        fault: PackFault,
    },
    /// A call of the folder failed.
    #[error("folder {folder}: read fault")]
    FolderFault {
        /// The number of the folder.
        folder: u32,
    },
    /// The host had no memory.
    #[error("out of memory")]
    OutOfMemory,
}

/// A mount, as the path lists it.
#[derive(Clone, Copy, Debug, PartialEq, Eq)]
pub enum MountRow {
    /// A folder of this number.
    Folder { folder: u32 },
    /// The pack of this number in this folder, with the count of all entries of its directory.
    Pack { folder: u32, pack: u32, count: u32 },
}
