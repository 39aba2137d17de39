//! The level of the low hunk above which everything belongs to a map, and the change of the map.
#![tactic(auto)]

mod change;
#[cfg(test)]
mod tests;

pub use change::{change_map, set_level};
