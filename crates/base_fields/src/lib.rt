//! What every crate above speaks of: numbers in bytes, the names of game files, the numbers of commands, and texts of
//! fixed length.
#![tactic(auto)]

mod fields;
mod names;
mod numbers;
mod texts;

pub use fields::{fill_u32, i16_at, i32_at, put_u32, u16_at, u32_at};
pub use names::{BadName, GameName, game_name, has_step_up, joined};
pub use numbers::{BadNumber, decimal};
pub use texts::before_zero;

#[cfg(test)]
mod tests;
