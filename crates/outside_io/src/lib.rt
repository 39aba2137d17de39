//! What the program reads from and writes to: folders, a source and a sink, and each of them in memory.
#![tactic(auto)]

mod boxed;
mod files;
mod memory;
mod outside;
mod tally;

pub use files::MemFile;
pub use memory::{MemFolder, MemSink, MemSource};
pub use outside::{Folder, FolderFailed, Sink, SinkFailed, Source, SourceFailed};

#[cfg(test)]
mod tests;
