//! The resources of a game by name: which are loaded, where they lie, and the user of the cache that each name has.
#![tactic(auto)]

mod answers;
mod builder;
mod cached;
mod kinds;
mod load;
mod look;
mod lowered;
mod slots;
mod table;
#[cfg(test)]
mod tests;
mod used;

pub use answers::{AcquireError, Fault, Res};
pub use kinds::{Kind, Table};
pub use table::ResTable;
