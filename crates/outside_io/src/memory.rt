//! A folder, a source and a sink in memory, whose calls fail by a list of their numbers.
//!
//! The first call has the number 0. Numbers and counts stand still at the last value of a `u64`: each call from there
//! on has that number, and fails where it is listed.
ghost use Rattle.std.specs.Prelude.{◌≡◌, ◌<◌, ◌≤◌, ◌^◌, All, IfOk, [], vec_len};
ghost use Rattle.outside_io.specs.Files.{told};

use crate::files::{MemFile, find};
use crate::outside::{Folder, FolderFailed, Sink, SinkFailed, Source, SourceFailed};
use crate::tally::Tally;
use std::alloc::{AllocError, Global};
use std::marker::Model;

/// A folder in memory, in which the first file of a name counts.
#[derive(Drop)]
pub struct MemFolder {
    files: Vec<MemFile>,
    tally: Tally,
}

impl Model for MemFolder {
    ghost use Rattle.std.specs.Prelude.{All, ◌<◌, ◌^◌, vec_len};
    ghost use Rattle.outside_io.specs.Files.{told};
    ghost use Rattle.outside_io.specs.Memory.{FolderState};

    ghost Value = { FolderState };

    ghost view = { λ f. record {
      files = told f.files.items;
      failing = f.tally.failing.items;
      calls = f.tally.calls;
      faults = f.tally.faults;
    } };

    ghost invariant = { λ f. All (λ file. vec_len file.bytes < 2 ^ 62) f.files.items };
}

impl MemFolder {
    /// A folder of these files, each of fewer than 2^62 bytes. The calls of these numbers fail, counted from 0 over
    /// `len_of` and `read_at`.
    pub fn create(files: Vec<MemFile>, fails: Vec<u64>) -> MemFolder
        requires { All (λ file. vec_len file.bytes < 2 ^ 62) files.items }
        ensures { result ≡ record { files = told files.items; failing = fails.items; calls = 0; faults = 0 } }
    {
        MemFolder {
            files,
            tally: Tally::new(fails),
        }
    }
}

impl Folder for MemFolder {
    ghost use Rattle.std.specs.Prelude.{◌≡◌, ◌<◌, ◌^◌, ◌↔◌, Some, Contains, IsErr, IfOk, IfSome, OnOk, length};
    ghost use Rattle.outside_io.specs.Causes.{one_more, after_call};
    ghost use Rattle.outside_io.specs.Files.{length_of, HasRange, IsPartOf};

    ghost files = { λ folder. Some folder.files };

    ghost folder_faults = { λ folder. folder.faults };

    ghost folder_calls = { λ folder. folder.calls };

    /// The length of the first file of this name. It fails exactly at the listed calls.
    fn len_of(&mut self, name: &[u8]) -> Result<Option<u64>, FolderFailed>
        ensures length { IfOk result (λ len. len ≡ length_of name.now self.old.files) }
        ensures limit { IfOk result (λ len. IfSome len (λ n. n < 2 ^ 62)) }
        ensures listed { IsErr result ↔ Contains self.old.failing self.old.calls }
        ensures same { self.new
            ≡ record self.old { calls = one_more self.old.calls; faults = after_call result self.old.faults } }
    {
        if self.tally.count_call() {
            return Err(FolderFailed);
        }
        match find(&self.files, name) {
            Some(file) => Ok(Some(file.bytes.len() as u64)),
            None => Ok(None),
        }
    }

    /// Fills `into` with the file's bytes from `at` on. It fails exactly at the listed calls.
    fn read_at(&mut self, name: &[u8], at: u64, into: &mut [u8]) -> Result<(), FolderFailed>
        requires { HasRange name.now at (length into.old) self.old.files }
        ensures filled { OnOk result (IsPartOf name.now at into.new self.old.files) }
        ensures listed { IsErr result ↔ Contains self.old.failing self.old.calls }
        ensures same { self.new
            ≡ record self.old { calls = one_more self.old.calls; faults = after_call result self.old.faults } }
    {
        if self.tally.count_call() {
            return Err(FolderFailed);
        }
        if let Some(file) = find(&self.files, name) {
            let start = at as usize;
            into.copy_from_slice(&file.bytes[start..start + into.len()]);
        }
        Ok(())
    }

    fn faults_seen(&self) -> u64 {
        self.tally.faults
    }

    fn calls_seen(&self) -> u64 {
        self.tally.calls
    }
}

/// Bytes in memory to read, in pieces.
#[derive(Drop)]
pub struct MemSource {
    bytes: Vec<u8>,
    at: usize,
    piece: usize,
    tally: Tally,
}

impl Model for MemSource {
    ghost use Rattle.std.specs.Prelude.{◌≤◌, ◌<◌, drop, vec_len};
    ghost use Rattle.outside_io.specs.Memory.{SourceState};

    ghost Value = { SourceState };

    ghost view = { λ s. record {
      rest = drop s.at s.bytes.items;
      piece = s.piece;
      failing = s.tally.failing.items;
      calls = s.tally.calls;
      faults = s.tally.faults;
    } };

    ghost invariant = { λ s. (s.at ≤ vec_len s.bytes) × (0 < s.piece) };
}

impl MemSource {
    /// A source of these bytes. A read gives at most `piece` of them, which is 1 or more, and the reads of these
    /// numbers, from 0, fail.
    pub fn create(bytes: Vec<u8>, piece: usize, fails: Vec<u64>) -> MemSource
        requires { 1 ≤ piece }
        ensures { result ≡ record { rest = bytes.items; piece = piece; failing = fails.items; calls = 0; faults = 0 } }
    {
        MemSource {
            bytes,
            at: 0,
            piece,
            tally: Tally::new(fails),
        }
    }
}

impl Source for MemSource {
    ghost use Rattle.std.specs.Prelude.{◌≡◌, ◌<◌, ◌≤◌, ◌↔◌, ◌++◌, min, take, Some, Contains, IsErr, IfOk, OnErr, length};
    ghost use Rattle.outside_io.specs.Causes.{one_more, after_call};
    ghost use Rattle.outside_io.specs.Streams.{TakesFront};

    ghost rest = { λ source. Some source.rest };

    ghost source_faults = { λ source. source.faults };

    /// Takes as many bytes as the piece, `into` and the rest allow. It fails exactly at the listed reads.
    fn read(&mut self, into: &mut [u8]) -> Result<usize, SourceFailed>
        requires { 0 < length into.old }
        ensures within { IfOk result (λ n. n ≤ length into.new) }
        ensures most { IfOk result (λ n. n ≡ min (min self.old.piece (length into.old)) (length self.old.rest)) }
        ensures taken { IfOk result (λ n. TakesFront (Some self.old.rest) (Some self.new.rest) n into.new) }
        ensures kept { OnErr result (self.new.rest ≡ self.old.rest) }
        ensures listed { IsErr result ↔ Contains self.old.failing self.old.calls }
        ensures same { self.new ≡ record self.old {
          rest = self.new.rest;
          calls = one_more self.old.calls;
          faults = after_call result self.old.faults;
        } }
    {
        if self.tally.count_call() {
            return Err(SourceFailed);
        }
        let left = self.bytes.len() - self.at;
        let n = self.piece.min(into.len()).min(left);
        into[..n].copy_from_slice(&self.bytes[self.at..self.at + n]);
        self.at += n;
        Ok(n)
    }
}

/// A place in memory to put bytes, up to a capacity.
#[derive(Drop)]
pub struct MemSink {
    bytes: Vec<u8>,
    capacity: usize,
    tally: Tally,
}

impl Model for MemSink {
    ghost use Rattle.std.specs.Prelude.{◌≤◌, vec_len, vec_capacity};
    ghost use Rattle.outside_io.specs.Memory.{SinkState};

    ghost Value = { SinkState };

    ghost view = { λ s. record {
      got = s.bytes.items;
      capacity = s.capacity;
      failing = s.tally.failing.items;
      calls = s.tally.calls;
      faults = s.tally.faults;
    } };

    ghost invariant = { λ s. (vec_len s.bytes ≤ s.capacity) × (s.capacity ≤ vec_capacity s.bytes) };
}

impl MemSink {
    /// An empty sink. The puts of these numbers, from 0, fail, and so do those that would pass the capacity in bytes.
    /// It refuses only for want of memory.
    pub fn create(alloc: Global, capacity: usize, fails: Vec<u64>) -> Result<MemSink, AllocError>
        ensures { IfOk result (λ sink. sink
            ≡ record { got = []; capacity = capacity; failing = fails.items; calls = 0; faults = 0 }) }
    {
        Ok(MemSink {
            bytes: Vec::with_capacity(alloc, capacity)?,
            capacity,
            tally: Tally::new(fails),
        })
    }

    /// The bytes that were put.
    pub fn got(&self) -> &[u8]
        ensures { result.now ≡ self.now.got }
    {
        &self.bytes
    }
}

impl Sink for MemSink {
    ghost use Rattle.std.specs.Prelude.{◌≡◌, ◌<◌, ◌+◌, ◌↔◌, ◌++◌, ◌⊎◌, Some, Contains, IsErr, OnOk, OnErr, take, length};
    ghost use Rattle.outside_io.specs.Causes.{one_more, after_call};
    ghost use Rattle.outside_io.specs.Streams.{Adds, AddsFront};

    ghost got = { λ sink. Some sink.got };

    ghost sink_faults = { λ sink. sink.faults };

    ghost held_back = { λ sink. 0 };

    /// Adds the piece. It fails exactly at the listed puts, where nothing is added, and at those that pass the
    /// capacity, where what fits is added.
    fn put(&mut self, piece: &[u8]) -> Result<(), SinkFailed>
        ensures added { OnOk result (Adds piece.now (Some self.old.got) (Some self.new.got)) }
        ensures part { OnErr result (AddsFront piece.now (Some self.old.got) (Some self.new.got)) }
        ensures failed { IsErr result ↔ (Contains self.old.failing self.old.calls
            ⊎ self.old.capacity < length self.old.got + length piece.now) }
        ensures listed { Contains self.old.failing self.old.calls → self.new.got ≡ self.old.got }
        ensures fits { (Contains self.old.failing self.old.calls → ⊥)
            → self.new.got ≡ take self.old.capacity (self.old.got ++ piece.now) }
        ensures same { self.new ≡ record self.old {
          got = self.new.got;
          calls = one_more self.old.calls;
          faults = after_call result self.old.faults;
        } }
    {
        if self.tally.count_call() {
            return Err(SinkFailed);
        }
        let room = self.capacity - self.bytes.len();
        let n = piece.len().min(room);
        self.bytes.extend_from_slice(&piece[..n]).unwrap();
        if n == piece.len() {
            return Ok(());
        }
        self.tally.count_fault();
        Err(SinkFailed)
    }

    /// Nothing is held back.
    fn flush(&mut self)
        ensures same { self.new ≡ self.old }
    {}
}
