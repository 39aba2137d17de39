//! The words of the command line: options, each with a number, and then folders.
#![tactic(auto)]

mod reading;
mod words;

pub use words::{Request, UsageError, request_of};

#[cfg(test)]
mod tests;
