//! A session of the console: a command buffer, cvars and aliases over a store and a path of folders, whose lines are run as
//! frames of commands.
#![tactic(auto)]

mod console;
mod ends;
mod handed;
mod handing;
mod hosting;
mod replies;
mod session;
mod values;
mod verbs;

pub use console::Parts;
pub use ends::{Fault, StepEnd};
pub use handed::HandedCommand;
pub use session::{Session, USERS};

#[cfg(test)]
mod tests;
