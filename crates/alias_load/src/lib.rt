//! Alias models, made of IDPO files.
//!
//! A file has a header of 84 bytes, then its skins, its st vertices, its triangles and its frames. Numbers have four
//! bytes, the lowest first. In the header stand the version at 4, which is 6, and from 48 on the number of skins, their
//! width and their height, and the numbers of vertices, of triangles and of frames.
//!
//! - A skin is a word and its pictures. The word 0 stands before a single picture; any other before a group: a count,
//!   so many intervals of four bytes, and so many pictures. A picture has a byte for each pixel.
//! - The st vertices have 12 bytes each. The triangles have 16 bytes each: a word and the numbers of three vertices.
//! - A frame is a word and its poses. The word 0 stands before a single pose; any other before a group: a count, the
//!   bounds of all its poses (least and greatest corner, 4 bytes each), so many intervals of four bytes, and so many
//!   poses. A pose is its bounds, a name of 16 bytes, and 4 bytes for each vertex.
//!
//! The image has, without gaps:
//!
//! - 88 bytes: the number 2, the bytes of the header from 8 on, the number of all pictures and that of all poses;
//! - for each skin 12 bytes: 1 for a group and else 0, the number of its first picture, and how many it has;
//! - for each frame 20 bytes: the same of its poses, and its bounds, which are those of the pose where there is one
//!   alone;
//! - for each picture its interval, 0 where it is single;
//! - for each pose 28 bytes: its interval, 0 where it is single, its bounds and its name;
//! - the st vertices and the triangles as they stand in the file; all pictures; and the vertices of all poses.
#![tactic(auto)]

mod builder;
mod fault;
mod file;
mod header;
mod image_header;
mod laws;
mod reading;
mod section;
#[cfg(test)]
mod tests;

pub use builder::AliasBuilder;
pub use fault::{AliasFault, AliasField, AliasPart};
pub use image_header::{AliasHeader, alias_header};
pub use laws::spelled;
