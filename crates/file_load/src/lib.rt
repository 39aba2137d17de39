//! Loading a file of the path into a block of the memory.
//!
//! The block has a byte more than the file, so a zero stands behind the file's bytes. What can end a load comes in this
//! order: a fault of a folder at the search, no mount with the name, an end past the pack's end, no room or no memory, and a
//! fault of a folder at the reading.
#![tactic(auto)]

mod errors;
mod files;
mod low;
mod temp;

pub use errors::{LoadError, Stage};
pub use low::load_low;
pub use temp::load_temp;

#[cfg(test)]
mod tests;
