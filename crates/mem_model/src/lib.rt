//! The memory of the machine: one arena with a hunk that grows at each end, and a zone and a cache inside.
//!
//! `specs/` says what a memory is and what each operation gives, and the trait `Store` is met by whatever keeps one.
#![tactic(auto)]

mod answers;
mod builder;
mod cache;
mod cells;
mod plain;
mod store;
#[cfg(test)]
mod tests;
mod zone;

pub use answers::{
    BadMark, BlockRow, CacheError, FreeError, Place, RoomError, StoreStart, ZoneError,
};
pub use builder::Builder;
pub use plain::PlainStore;
pub use store::Store;
