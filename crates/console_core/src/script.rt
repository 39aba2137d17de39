// The script: it is read in pieces, and the whole lines of what was taken are run before the next read.
ghost use Rattle.std.specs.Prelude.{◌≡◌, ◌≤◌, ◌++◌, [], length, take, false, MatchOption};
ghost use Rattle.outside_io.specs.Causes.{Rose};
ghost use Rattle.console_session.specs.Sessions.{is_end};
ghost use Rattle.console_session.specs.Frames.{line};
ghost use Rattle.console_core.specs.Runs.{run_lines, lines_of, last_line, rest_run, HasNoNewline, IsFirstLine};
ghost use Rattle.console_core.specs.Outside.{outside_of, IsHandedOn};
ghost use Rattle.console_core.specs.Reading.{RunsIn, HasRead, ReadsPast, HasReadCauses};

use arrayvec::ArrayVec;
use console_session::{Session, StepEnd};
use mem_model::Store;
use memchr::memchr;
use outside_io::{Folder, Sink, Source};

// How many bytes are read at a time at most.
const PIECE: usize = 4096;

// How many bytes a script has at most.
const LIMIT: usize = 1_048_576;

/// What is kept of a line that has no end yet: its first bytes, one more than the buffer holds.
pub type Pending = ArrayVec<u8, 8192>;

/// How the reading of a script ended.
#[derive(Clone, Copy, Debug, PartialEq, Eq)]
pub enum ReadEnd {
    /// The script was read to its end.
    AtEnd,
    /// A line ended the run, by `quit` or by a fault.
    Ended(StepEnd),
    /// A read failed.
    Failed,
    /// A byte more than a script may have was taken.
    TooLong,
}

// Keeps more of an unfinished line, as far as there is room.
fn keep(pending: &mut Pending, bytes: &[u8])
    ensures { pending.new.items ≡ take 8192 (pending.old.items ++ bytes.now) }
{
    let count = pending.remaining_capacity().min(bytes.len());
    let _ = pending.try_extend_from_slice(&bytes[..count]);
}

// Runs the line that is pending and ends with this front of a piece. A line that is whole in the piece is run where it lies.
fn run_pending<M: Store, F: Folder, O: Sink>(
    session: &mut Session<M, F>,
    pending: &mut Pending,
    front: &[u8],
    out: &mut O,
) -> StepEnd
    requires going { session.old.ended ≡ false }
    ensures runs { RunsIn M.frugal O.Sink (line (pending.old.items ++ front.now) session.old.state)
        session.old session.new out.old out.new result }
    ensures empty { pending.new.items ≡ [] }
    ensures ended { session.new.ended ≡ is_end result }
{
    if pending.is_empty() {
        return session.step(front, out);
    }
    keep(pending, front);
    let end = session.step(pending.as_slice(), out);
    pending.clear();
    end
}

// The first line of a text, and what stands behind its newline. `None` where no line ends.
fn split_line(text: &[u8]) -> Option<(&[u8], &[u8])>
    ensures { MatchOption result (HasNoNewline text.now) (λ parts. IsFirstLine text.now parts.0.now parts.1.now) }
{
    let at = memchr(b'\n', text)?;
    Some((&text[..at], &text[at + 1..]))
}

// Runs the whole lines of what is pending and a piece, and keeps the rest. Replies may still be held back.
fn run_piece<M: Store, F: Folder, O: Sink>(
    session: &mut Session<M, F>,
    pending: &mut Pending,
    piece: &[u8],
    out: &mut O,
) -> StepEnd
    requires pending { HasNoNewline pending.old.items }
    requires short { length pending.old.items ≤ 8192 }
    requires going { session.old.ended ≡ false }
    ensures runs { RunsIn M.frugal O.Sink (run_lines session.old.state (lines_of (pending.old.items ++ piece.now)).whole)
        session.old session.new out.old out.new result }
    ensures rest { result ≡ StepEnd.Went
        → pending.new.items ≡ take 8192 (lines_of (pending.old.items ++ piece.now)).rest }
    ensures ended { session.new.ended ≡ is_end result }
{
    let mut left = piece;
    'newline: while let Some((front, behind)) = split_line(left) {
        match run_pending(session, pending, front, out) {
            StepEnd::Went => {}
            end => return end,
        }
        left = behind;
    }
    keep(pending, left);
    StepEnd::Went
}

// Runs the whole lines of what is pending and a piece, and keeps the rest; then what was put is handed on.
fn feed<M: Store, F: Folder, O: Sink>(
    session: &mut Session<M, F>,
    pending: &mut Pending,
    piece: &[u8],
    out: &mut O,
) -> StepEnd
    requires pending { HasNoNewline pending.old.items }
    requires short { length pending.old.items ≤ 8192 }
    requires going { session.old.ended ≡ false }
    ensures runs { RunsIn M.frugal O.Sink (run_lines session.old.state (lines_of (pending.old.items ++ piece.now)).whole)
        session.old session.new out.old out.new result }
    ensures rest { result ≡ StepEnd.Went
        → pending.new.items ≡ take 8192 (lines_of (pending.old.items ++ piece.now)).rest }
    ensures ended { session.new.ended ≡ is_end result }
    ensures handed_on { O.held_back out.new ≡ 0 }
{
    let end = run_piece(session, pending, piece, out);
    out.flush();
    end
}

// Reads a byte past the limit, to see whether the script is longer.
fn read_past<S: Source>(script: &mut S) -> ReadEnd
    ensures past { ReadsPast result (S.rest script.old) (S.rest script.new) }
    ensures failed { result ≡ ReadEnd.Failed → Rose (S.source_faults script.old) (S.source_faults script.new) }
    ensures faults { S.source_faults script.old ≤ S.source_faults script.new }
{
    let mut byte = [0u8; 1];
    match script.read(&mut byte) {
        Ok(0) => ReadEnd::AtEnd,
        Ok(_) => ReadEnd::TooLong,
        Err(_) => ReadEnd::Failed,
    }
}

/// Reads a script, and runs its whole lines as they come. What they put is handed on before the next read.
/// Where no command of what was run asks for a file, no folder is called.
pub fn run_script<M: Store, F: Folder, S: Source, O: Sink>(
    session: &mut Session<M, F>,
    script: &mut S,
    pending: &mut Pending,
    out: &mut O,
) -> ReadEnd
    requires empty { pending.old.items ≡ [] }
    requires going { session.old.ended ≡ false }
    ensures read { HasRead session.old session.new result pending.new.items
        (outside_of S.Source O.Sink script.old out.old) (outside_of S.Source O.Sink script.new out.new) }
    ensures going { result ≡ ReadEnd.AtEnd → session.new.ended ≡ false }
    ensures path { session.new.state.path ≡ session.old.state.path }
    ensures causes { HasReadCauses M.frugal session.old.faults session.new.faults
        (outside_of S.Source O.Sink script.old out.old) (outside_of S.Source O.Sink script.new out.new) result }
    ensures handed_on { IsHandedOn
        (outside_of S.Source O.Sink script.old out.old) (outside_of S.Source O.Sink script.new out.new) }
{
    let mut piece = [0u8; PIECE];
    let mut left = LIMIT;
    'read: while 0 < left {
        let most = PIECE.min(left);
        let Ok(count) = script.read(&mut piece[..most]) else {
            return ReadEnd::Failed;
        };
        if count == 0 {
            return ReadEnd::AtEnd;
        }
        match feed(session, pending, &piece[..count], out) {
            StepEnd::Went => {}
            end => return ReadEnd::Ended(end),
        }
        left -= count;
    }
    read_past(script)
}

// Runs the last line, where it isn't empty.
fn run_last<M: Store, F: Folder, O: Sink>(
    session: &mut Session<M, F>,
    text: &[u8],
    out: &mut O,
) -> StepEnd
    requires going { session.old.ended ≡ false }
    ensures runs { RunsIn M.frugal O.Sink (last_line session.old.state text.now)
        session.old session.new out.old out.new result }
    ensures ended { session.new.ended ≡ is_end result }
{
    if text.is_empty() {
        return StepEnd::Went;
    }
    session.step(text, out)
}

// Runs the last line and the frames after it. Replies may still be held back.
fn run_last_frames<M: Store, F: Folder, O: Sink>(
    session: &mut Session<M, F>,
    text: &[u8],
    out: &mut O,
) -> StepEnd
    requires going { session.old.ended ≡ false }
    ensures { RunsIn M.frugal O.Sink (rest_run session.old.state text.now)
        session.old session.new out.old out.new result }
{
    match run_last(session, text, out) {
        StepEnd::Went => session.finish(out),
        end => end,
    }
}

/// Runs what is left at a script's end: its last line, and the frames after it; then what was put is handed on.
pub fn run_rest<M: Store, F: Folder, O: Sink>(
    session: &mut Session<M, F>,
    text: &[u8],
    out: &mut O,
) -> StepEnd
    requires going { session.old.ended ≡ false }
    ensures runs { RunsIn M.frugal O.Sink (rest_run session.old.state text.now)
        session.old session.new out.old out.new result }
    ensures handed_on { O.held_back out.new ≡ 0 }
{
    let end = run_last_frames(session, text, out);
    out.flush();
    end
}
