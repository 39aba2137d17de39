//! The texts that tell of a resource: that it is there, why the bytes of a file are none, its image in hexadecimal
//! digits, what the image says of it, a picture of a wad, and what is seen from a leaf of a map.
#![tactic(auto)]

mod brushes;
mod digits;
mod dumps;
mod faults;
mod infos;
mod leaf_rows;
mod lines;
mod lump_errors;
mod lump_names;
mod numbers;
mod pictures;
#[cfg(test)]
mod tests;
mod wads;

pub use dumps::dump;
pub use infos::info;
pub use leaf_rows::put_leaf_row;
pub use lines::{put_bad, put_resource};
pub use lump_errors::{LumpError, put_lump_error};
pub use pictures::put_picture;
