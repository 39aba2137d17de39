//! Sprites, made of sprite files.
//!
//! A sprite file is a header of 36 bytes, its frames, and bytes that aren't read. Numbers have four bytes, the lowest
//! first. The header is four bytes that aren't tested, the version (1), the type, the radius, the width, the height,
//! the count of frames (1 to 1024), the length of the beam, and how the frames are timed. Its other numbers aren't
//! tested.
//!
//! A frame begins with a word. Where it is 0 one picture follows; else a group does: a count (1 to 1024), as many
//! intervals, each above 0 as a signed number, and as many pictures. A picture is its origin (x and y), its width and
//! its height (4096 at most), and a byte for each pixel.
//!
//! The image of a sprite has these parts, one behind the other:
//!
//! - the number 3, bytes 8 to 35 of the file, and the count of all pictures, at 32;
//! - from 36 on, 12 bytes for each frame: 1 for a group or else 0, the number of its first picture, and how many it
//!   has;
//! - 24 bytes for each picture: its interval, or 0 where it has none, its origin, width and height as in the file, and
//!   where in the image its pixels begin;
//! - the pixels of all pictures.
#![tactic(auto)]

mod builder;
mod fault;
mod header;
mod parts;
mod pixels;
mod rows;
mod sizes;
mod spelling;
#[cfg(test)]
mod tests;

pub use builder::SpriteBuilder;
pub use fault::SpriteFault;
pub use header::{SpriteHeader, sprite_header};
pub use spelling::spelled;
