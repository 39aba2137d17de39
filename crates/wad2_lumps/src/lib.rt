//! Wads: files of many lumps, each with a name.
//!
//! A wad is `WAD2`, the number of its lumps (4 bytes), and the offset of its table (4). Numbers have no sign, and their
//! lowest byte first. Offsets count bytes from the front of the file. The table has a row of 32 bytes for each lump:
//!
//! - the offset of the lump (4), which is not tested against the file's end;
//! - its bytes on disk (4), and its bytes once they are unpacked (4), which is the size that is told;
//! - its type (1), its compression (1), where 0 is none, and two bytes that aren't read;
//! - its name (16).
//!
//! Names are compared once they are cleaned: cut to 16 bytes, cut at the first zero byte, and the letters A to Z made
//! lower case. The first row of a name counts, also where it is compressed and a later one isn't.
//!
//! A lump of type 66 is a picture: its width and its height in pixels (4 each), at most 4096, and then a byte a pixel.
//!
//! The image of a wad is the bytes of its file.
#![tactic(auto)]

mod answers;
mod builder;
mod fault;
mod lumps;
mod names;
mod pictures;
mod rows;
mod table;
#[cfg(test)]
mod tests;

pub use answers::{Lump, Picture};
pub use builder::WadBuilder;
pub use fault::{PicFault, WadFault};
pub use lumps::lump;
pub use names::{LumpName, cleaned};
pub use pictures::picture;
pub use rows::{LumpRow, lump_row};
pub use table::check_wad;
