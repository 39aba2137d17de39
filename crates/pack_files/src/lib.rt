//! Packs: files that hold the files of a game, with a directory of them.
//!
//! A pack begins with a header of 12 bytes: `PACK`, where its directory stands, and how many bytes the directory has, each
//! in four bytes, the lowest first. The directory has rows of 64 bytes: a name of 56 bytes up to its first zero, where the
//! file stands, and how many bytes it has. What is left of the directory behind its last whole row is no part of it.
#![tactic(auto)]

mod directory;
mod entries;
mod faults;
mod filter;
mod hashing;
mod names;
mod reading;

pub use entries::{Entry, Pack};
pub use faults::{PackError, PackFault};
pub use filter::Filter;
pub use hashing::name_hash;
pub use reading::read_pack;

#[cfg(test)]
mod tests;
