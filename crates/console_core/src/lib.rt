//! The console: mounts folders, reads a script, and runs its lines in a session.
#![tactic(auto)]

mod opening;
mod script;
mod status;
mod top;

pub use console_session::{Session, StepEnd};
pub use status::{Status, exit_code, status_line, status_told};
pub use top::quake_main;

#[cfg(test)]
mod tests;
