// Folders, sources and sinks.
ghost use Rattle.std.specs.Prelude.{◌≡◌, ◌<◌, ◌≤◌, ◌^◌, ℕ, List, Option, length, IfOk, IfSome, OnOk, OnErr};
ghost use Rattle.std.specs.Option.{ForSome};
ghost use Rattle.outside_io.specs.Causes.{HasCause, one_more};
ghost use Rattle.outside_io.specs.Files.{File, length_of, HasRange, IsPartOf};
ghost use Rattle.outside_io.specs.Streams.{TakesFront, Adds, AddsFront};

use thiserror::Error;

/// A call of a folder failed.
#[derive(Clone, Copy, Debug, PartialEq, Eq, Error)]
#[error("folder read fault")]
pub struct FolderFailed;

/// A read of a source failed.
#[derive(Clone, Copy, Debug, PartialEq, Eq, Error)]
#[error("script read fault")]
pub struct SourceFailed;

/// A put to a sink failed.
#[derive(Clone, Copy, Debug, PartialEq, Eq, Error)]
#[error("write fault")]
pub struct SinkFailed;

/// A folder of files, in which the first file of a name counts.
pub trait Folder: Drop {
    /// The files, where the folder tells them. No call changes them.
    ghost files: { Self → Option (List File) };

    /// How many calls have failed. The count stands still at the last value of a `u64`.
    ghost folder_faults: { Self → ℕ };

    /// How many calls of `len_of` and `read_at` were made. The count stands still at the last value of a `u64`.
    ghost folder_calls: { Self → ℕ };

    /// The length in bytes of the first file of this name, or `None` exactly where there is no such file.
    /// It fails only where a fault is counted.
    fn len_of(&mut self, name: &[u8]) -> Result<Option<u64>, FolderFailed>
        ensures length { IfOk result (λ len. IfSome (files self.old) (λ all. len ≡ length_of name.now all)) }
        ensures limit { IfOk result (λ len. IfSome len (λ n. n < 2 ^ 62)) }
        ensures same { files self.new ≡ files self.old }
        ensures counted { folder_calls self.new ≡ one_more (folder_calls self.old) }
        ensures cause { HasCause (folder_faults self.old) (folder_faults self.new) result };

    /// Fills `into` with the file's bytes from `at` on. After an error `into` may hold anything.
    /// It fails only where a fault is counted.
    fn read_at(&mut self, name: &[u8], at: u64, into: &mut [u8]) -> Result<(), FolderFailed>
        requires { ForSome (files self.old) (HasRange name.now at (length into.old)) }
        ensures filled { OnOk result (IfSome (files self.old) (IsPartOf name.now at into.new)) }
        ensures same { files self.new ≡ files self.old }
        ensures counted { folder_calls self.new ≡ one_more (folder_calls self.old) }
        ensures cause { HasCause (folder_faults self.old) (folder_faults self.new) result };

    /// How many calls have failed.
    fn faults_seen(&self) -> u64
        ensures { result ≡ folder_faults self.now };

    /// How many calls of `len_of` and `read_at` were made.
    fn calls_seen(&self) -> u64
        ensures { result ≡ folder_calls self.now };
}

/// Bytes to read.
pub trait Source {
    /// The bytes that are left, where the source tells them.
    ghost rest: { Self → Option (List ℕ) };

    /// How many reads have failed. The count stands still at the last value of a `u64`.
    ghost source_faults: { Self → ℕ };

    /// Takes bytes into the front of `into`, and answers how many. It is `Ok(0)` exactly at the end.
    /// It fails only where a fault is counted, and takes nothing then.
    fn read(&mut self, into: &mut [u8]) -> Result<usize, SourceFailed>
        requires { 0 < length into.old }
        ensures within { IfOk result (λ n. n ≤ length into.new) }
        ensures taken { IfOk result (λ n. TakesFront (rest self.old) (rest self.new) n into.new) }
        ensures kept { OnErr result (rest self.new ≡ rest self.old) }
        ensures cause { HasCause (source_faults self.old) (source_faults self.new) result };
}

/// A place to put bytes.
pub trait Sink {
    /// The bytes that were put, where the sink tells them. Of a sink that holds back they are those that it took, whether
    /// they were handed on or not: where a flush fails, what stands behind the sink is a front of them.
    ghost got: { Self → Option (List ℕ) };

    /// How many puts have failed. The count stands still at the last value of a `u64`.
    ghost sink_faults: { Self → ℕ };

    /// How many bytes of what was put are held back.
    ghost held_back: { Self → ℕ };

    /// Adds the piece at the end. After an error a front of it was added.
    /// It fails only where a fault is counted.
    fn put(&mut self, piece: &[u8]) -> Result<(), SinkFailed>
        ensures added { OnOk result (Adds piece.now (got self.old) (got self.new)) }
        ensures part { OnErr result (AddsFront piece.now (got self.old) (got self.new)) }
        ensures cause { HasCause (sink_faults self.old) (sink_faults self.new) result };

    /// Hands on what the sink may hold back of what was put. Where that fails the fault is counted, and each put from
    /// then on fails.
    fn flush(&mut self)
        ensures handed_on { held_back self.new ≡ 0 }
        ensures same { got self.new ≡ got self.old }
        ensures faults { sink_faults self.old ≤ sink_faults self.new };
}
