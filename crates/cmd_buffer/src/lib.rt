//! The words of a command text, the buffer that command texts are taken from, and the aliases.
#![tactic(auto)]

mod aliases;
mod buffer;
mod words;

pub use aliases::{AliasError, Aliases};
pub use buffer::{CmdBuffer, CommandText, LONGEST, Overflow, SPACE, Taken};
pub use words::{Words, tokenize};

#[cfg(test)]
mod tests;
