// Standard input and standard output.
ghost use Rattle.std.specs.Prelude.{◌≡◌, ◌≤◌, ◌<◌, ℕ, [], OnOk, OnErr, length, take};
ghost use Rattle.std.specs.Io.KnownBytes.{Appends};

use arrayvec::ArrayVec;
use outside_io::{Sink, SinkFailed, Source, SourceFailed};
use std::io;
use std::io::{ErrorKind, Read, Stdin, Stdout, Write};

/// Standard input. It tells no bytes, and counts its faults: the reads that the host failed.
#[derive(Drop)]
pub struct StdinSource {
    input: Stdin,
    faults: u64,
}

impl StdinSource {
    pub fn new(input: Stdin) -> StdinSource
        ensures { result.faults ≡ 0 }
    {
        StdinSource { input, faults: 0 }
    }
}

impl Source for StdinSource {
    ghost use Rattle.std.specs.Prelude.{◌≡◌, ◌≤◌, ◌<◌, None, IfOk, length};
    ghost use Rattle.outside_io.specs.Causes.{after_call};

    ghost rest = { λ source. None };

    ghost source_faults = { λ source. source.faults };

    fn read(&mut self, into: &mut [u8]) -> Result<usize, SourceFailed>
        requires { 0 < length into.old }
        ensures within { IfOk result (λ n. n ≤ length into.new) }
        ensures faults { self.new.faults ≡ after_call result self.old.faults }
    {
        match self.input.read(into) {
            Ok(n) => Ok(n),
            Err(_) => {
                self.faults = self.faults.saturating_add(1);
                Err(SourceFailed)
            }
        }
    }
}

// How many bytes are held back at most.
const ROOM: usize = 8192;

/// Standard output. It tells no bytes, and counts its faults: the puts that failed, and the flushes that the host failed.
///
/// Pieces are held back, and are written together where there is no room for more and at a flush. After a failed write
/// nothing is written any more, and the host has a front of what was put.
#[derive(Drop)]
pub struct StdoutSink {
    output: Stdout,
    held: ArrayVec<u8, ROOM>,
    // Whether a write failed.
    failed: bool,
    faults: u64,
}

impl StdoutSink {
    pub fn new(output: Stdout) -> StdoutSink
        ensures { result.faults ≡ 0 }
    {
        StdoutSink {
            output,
            held: ArrayVec::new(),
            failed: false,
            faults: 0,
        }
    }

    /// Whether a write failed. Then some of what was put may be lost.
    pub fn has_failed(&self) -> bool
        ensures { result ≡ self.now.failed }
    {
        self.failed
    }

    // Writes what is held back.
    fn write_held(&mut self)
        ensures empty { self.new.held.items ≡ [] }
        ensures faults { self.new.faults ≡ self.old.faults }
    {
        if let Err(_) = put_whole(&mut self.output, self.held.as_slice()) {
            self.failed = true;
        }
        self.held.clear();
    }

    // Holds a piece back, or writes it with all before it where there is no room.
    fn take(&mut self, piece: &[u8])
        ensures { self.new.faults ≡ self.old.faults }
    {
        if self.held.try_extend_from_slice(piece).is_ok() {
            return;
        }
        self.write_held();
        if self.failed || self.held.try_extend_from_slice(piece).is_ok() {
            return;
        }
        if let Err(_) = put_whole(&mut self.output, piece) {
            self.failed = true;
        }
    }
}

impl Sink for StdoutSink {
    ghost use Rattle.std.specs.Prelude.{◌≡◌, ◌≤◌, None, length};
    ghost use Rattle.outside_io.specs.Causes.{after_call};

    ghost got = { λ sink. None };

    ghost sink_faults = { λ sink. sink.faults };

    ghost held_back = { λ sink. length sink.held.items };

    fn put(&mut self, piece: &[u8]) -> Result<(), SinkFailed>
        ensures faults { self.new.faults ≡ after_call result self.old.faults }
    {
        if !self.failed {
            self.take(piece);
        }
        if self.failed {
            self.faults = self.faults.saturating_add(1);
            return Err(SinkFailed);
        }
        Ok(())
    }

    fn flush(&mut self)
        ensures handed_on { length self.new.held.items ≡ 0 }
        ensures faults { self.old.faults ≤ self.new.faults }
    {
        if self.failed {
            self.held.clear();
            return;
        }
        self.write_held();
        if self.failed {
            self.faults = self.faults.saturating_add(1);
        }
    }
}

// Writes the whole piece. After an error a front of it was written.
pub(crate) fn put_whole<W: Write>(to: &mut W, piece: &[u8]) -> io::Result<()>
    ensures whole { OnOk result (Appends (W.contents to.old) (W.contents to.new) piece.now) }
    ensures front { OnErr result ((n : ℕ) × (n ≤ length piece.now)
        × Appends (W.contents to.old) (W.contents to.new) (take n piece.now)) }
{
    let mut written = 0;
    'put: while written < piece.len() {
        match to.write(&piece[written..])? {
            0 => return Err(io::Error::from(ErrorKind::WriteZero)),
            n => written += n,
        }
    }
    Ok(())
}
