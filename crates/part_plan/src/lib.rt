//! Files that are read part by part: what a reading gives, and the first fault of one. And the tests that several
//! formats share.
#![tactic(auto)]

mod checks;

pub use checks::{any_wrong, is_between};
