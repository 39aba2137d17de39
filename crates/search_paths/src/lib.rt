//! The path on which the files of a game are looked for.
//!
//! Folders are mounted one after another, each in front of those before. In front of a folder stands its `pak0.pak`, in
//! front of that its `pak1.pak`, and so on until one is missing or 32 are mounted. The first mount from the front that has a
//! name has its file.
#![tactic(auto)]

mod answers;
mod finding;
mod folders;
mod mounted;
mod mounting;
mod names;
mod path;

pub use answers::{FileRef, FolderFault, MountError, MountRow};
pub use path::Paths;

#[cfg(test)]
mod find_tests;
#[cfg(test)]
mod mount_tests;
