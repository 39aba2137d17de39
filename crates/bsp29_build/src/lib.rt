//! Brush models, made of files of version 29: maps, and the models that are kept in files of the same kind.
//!
//! The files are described in `bsp29_tables`. The image begins with the number 29; then for each of 16 sections where it
//! begins in the image and how many rows it has, four bytes each; and from 132 on the sections, without gaps. Numbers
//! have their lowest byte first, and 0xFFFFFFFF stands for none.
//!
//! The sections 0 to 14 have the rows of the lumps in the order of the header, as they stand in the file but for these:
//!
//! - a plane has 24 bytes: its 20, and a word with a bit for each part of its normal that is below zero, which a zero
//!   with a sign isn't;
//! - a texture has a row of 68 bytes: 1, its name of 16 bytes with zeros behind its first zero byte, its width, its
//!   height, its four offsets, the five numbers of its place in an animation (a total, a least and a greatest time, the
//!   next texture and the alternate one: 0 and none where it has no place), and where its pixels begin in the image. The
//!   row of a missing texture is zeros. The pixels of all textures stand behind the rows;
//! - a node has 28 bytes and a leaf 32: the row, and the least node that has it as a child;
//! - a face has 24 bytes: its 20, and its kind, which is 1 where the name of its texture begins with `sky`, 2 where it
//!   begins with `*`, and else 0.
//!
//! Section 15 is hull 0, a clipnode of 8 bytes for each node: its plane, and its two children, where a leaf is told by its
//! contents.
#![tactic(auto)]

mod builder;
mod faces;
mod hull;
mod images;
mod parents;
mod planes;
mod readers;
mod sections;
mod textures;

pub use builder::BspBuilder;
pub use readers::{BrushTexture, count, leaf, offset, texture, visibility, visleafs};

#[cfg(test)]
mod tests;
