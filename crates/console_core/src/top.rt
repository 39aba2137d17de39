// The top call.
ghost use Rattle.std.specs.Prelude.{◌≡◌, ◌↔◌, ◌<◌, ◌≤◌, ◌+◌, ◌-◌, ◌^◌, map, drop, string_bytes, vec_len, length};
ghost use Rattle.std.specs.Prelude.{IfSome, IsSomeAnd, Some, None, false};
ghost use Rattle.outside_io.specs.Causes.{Rose};
ghost use Rattle.search_paths.specs.Path.{all_some};
ghost use Rattle.console_core.specs.Outside.{outside_of, NoneFell, IsHandedOn};
ghost use Rattle.console_core.specs.Ends.{AsksTooMuch, usage_of, told_state, Ends, RunEnds, IsStatusOf, IsAmong};
ghost use Rattle.console_core.specs.Ends.{HasOwnCause, HandsOver, HasOutcome, IsComplete, no_events};
ghost use Rattle.command_line.specs.CommandLine.{IsAsked};

use crate::opening::mount_all;
use crate::script::{Pending, ReadEnd, run_rest, run_script};
use crate::status::Status;
use command_line::{Request, request_of};
use console_session::{Session, StepEnd, USERS};
use mem_model::{PlainStore, Store, StoreStart};
use outside_io::{Folder, Sink, Source};
use res_table::ResTable;
use std::alloc::Global;

// How many folders a command line names at most.
const MOST_FOLDERS: usize = 8;

// The status of a run that ended so, where the first folder's word has this number. A folder's fault hands the folder back.
fn status_of<M: Store, F: Folder>(session: Session<M, F>, first: u32, end: StepEnd) -> Status<F>
    requires among { IsAmong (length session.faults) end }
    requires small { first + length session.faults < 2 ^ 32 }
    ensures { IsStatusOf end first F.files F.folder_faults session.state.path.told session.faults result }
{
    match end {
        StepEnd::Went | StepEnd::Quit => Status::Done,
        StepEnd::FolderFault { folder } => Status::FolderFault {
            word: first + folder,
            folder: session.take_folder(folder),
        },
        StepEnd::WriteFault => Status::WriteFault,
        StepEnd::OutOfMemory => Status::OutOfMemory,
    }
}

// Runs a script in a session that was just started on what is asked for.
fn run_session<M: Store, F: Folder, S: Source, O: Sink>(
    mut session: Session<M, F>,
    request: Request,
    script: &mut S,
    out: &mut O,
) -> Status<F>
    requires going { session.ended ≡ false }
    requires folders { length session.faults ≡ length session.state.path.told }
    requires small { request.first + length session.faults < 2 ^ 32 }
    ensures usage { usage_of result ≡ None }
    ensures not_small { result ≡ Status.TooSmall → ⊥ }
    ensures ends { RunEnds (told_state session.state) request.first
        (outside_of S.Source O.Sink script.old out.old) (outside_of S.Source O.Sink script.new out.new) result }
    ensures handed_on { IsHandedOn
        (outside_of S.Source O.Sink script.old out.old) (outside_of S.Source O.Sink script.new out.new) }
    ensures counts { NoneFell
        (outside_of S.Source O.Sink script.old out.old) (outside_of S.Source O.Sink script.new out.new) }
    ensures cause { HasOwnCause
        (outside_of S.Source O.Sink script.old out.old) (outside_of S.Source O.Sink script.new out.new) result }
    ensures handed_over { HandsOver request.first F.files F.folder_faults session.state.path.told session.faults result }
{
    let mut pending = Pending::new();
    let first = request.first as u32;
    match run_script(&mut session, script, &mut pending, out) {
        ReadEnd::AtEnd => {
            let end = run_rest(&mut session, pending.as_slice(), out);
            status_of(session, first, end)
        }
        ReadEnd::Ended(end) => status_of(session, first, end),
        ReadEnd::Failed => Status::ScriptFault,
        ReadEnd::TooLong => Status::ScriptTooLong,
    }
}

// Runs a script on folders, of which the first has this word's number, on a heap and a zone of the sizes that are asked for.
fn run_folders<F: Folder, S: Source, O: Sink>(
    alloc: Global,
    request: Request,
    folders: Vec<F>,
    script: &mut S,
    out: &mut O,
) -> Status<F>
    requires heap { (1024 ≤ request.heap) × (request.heap ≤ 65536) }
    requires zone { (4 ≤ request.zone) × (request.zone ≤ 65536) }
    requires small { request.first + vec_len folders < 2 ^ 32 }
    requires few { vec_len folders ≤ 65536 }
    ensures usage { usage_of result ≡ None }
    ensures too_small { (result ≡ Status.TooSmall) ↔ AsksTooMuch request }
    ensures ends { Ends F.files F.folder_calls folders.items request no_events
        (outside_of S.Source O.Sink script.old out.old) (outside_of S.Source O.Sink script.new out.new) result }
    ensures handed_on { IsHandedOn
        (outside_of S.Source O.Sink script.old out.old) (outside_of S.Source O.Sink script.new out.new) }
    ensures counts { NoneFell
        (outside_of S.Source O.Sink script.old out.old) (outside_of S.Source O.Sink script.new out.new) }
    ensures cause { HasOwnCause
        (outside_of S.Source O.Sink script.old out.old) (outside_of S.Source O.Sink script.new out.new) result }
    ensures handed_over { HandsOver request.first F.files F.folder_faults
        (map F.files folders.items) (map F.folder_faults folders.items) result }
{
    let store = match PlainStore::create(alloc, 1024 * request.heap, 1024 * request.zone, USERS) {
        Ok(store) => store,
        Err(StoreStart::TooSmall) => return Status::TooSmall,
        Err(StoreStart::OutOfMemory) => return Status::OutOfMemory,
    };
    let Ok(table) = ResTable::create(alloc, request.speed) else {
        return Status::OutOfMemory;
    };
    let paths = match mount_all(alloc, request.first as u32, folders) {
        Ok(paths) => paths,
        Err(status) => return status,
    };
    match Session::start(store, paths, table) {
        Ok(session) => run_session(session, request, script, out),
        Err(_) => Status::OutOfMemory,
    }
}

// The folders of the words from this number on.
fn from_word<F: Folder>(folders: Vec<F>, first: usize) -> Vec<F>
    requires { first ≤ vec_len folders }
    ensures { result.items ≡ drop first folders.items }
{
    let mut folders = folders;
    folders.drain(..first);
    folders
}

// Runs a script on the folders that the words ask for.
fn run<F: Folder, S: Source, O: Sink>(
    alloc: Global,
    words: &[String],
    folders: Vec<F>,
    script: &mut S,
    out: &mut O,
) -> Status<F>
    requires one_each { vec_len folders ≡ length words.now }
    requires few { length words.now < 2 ^ 32 }
    ensures { HasOutcome no_events (map string_bytes words.now) F.files F.folder_faults F.folder_calls folders.items
        (outside_of S.Source O.Sink script.old out.old) (outside_of S.Source O.Sink script.new out.new) result }
{
    let request = match request_of(words, MOST_FOLDERS) {
        Ok(request) => request,
        Err(error) => return Status::Usage { word: error.word },
    };
    let folders = from_word(folders, request.first);
    run_folders(alloc, request, folders, script, out)
}

/// Mounts folders, runs a script over them, and puts the replies to its commands.
///
/// The words are the options `-heapsize` and `-zone`, each with a number of KB, and `-speed` with one of Hz, each at
/// most once and in any order, and then the words of 1 to 8 folders, which aren't empty and don't begin with `-`. A
/// heap has 1024 to 65536 KB, and 16384 where none is asked for; a zone has 4 to 65536, and 48; the speed of sounds is
/// 1000 to 96000 samples a second, and 11025. `Usage` tells the number of the first word that breaks this, or the
/// number of words where one is missing; `TooSmall` says that the zone's block exceeds the heap. Both come before
/// memory is taken, anything is read or anything is put. The folder of number i stands for word i; those of the other
/// words are dropped unused. There must be fewer than 2^32 words.
///
/// The folders are mounted one after another, each with its packs in front of those before, and the first mount with a
/// name has its file. `BadPack` tells the first pack that is not taken. A folder that fails while it is mounted gives
/// `FolderFault`, and no pack before the call that failed is bad, as far as the folders tell. Either comes before the
/// script is read.
///
/// The script is read in pieces of at most 4096 bytes, and every whole line among the bytes taken is run before the
/// next read; it has at most 1,048,576 bytes, and no piece holds both the last of these and the one after it. A last
/// line without a newline is a line where it isn't empty. `quit`, or a fault in a line, ends the run in the last piece
/// that was read, and may leave bytes unread. Before each read but the first, and at the end, the sink is told to hand
/// on what was put: a sink that held nothing back before holds nothing back afterwards.
///
/// With `Done` the replies of the run over the whole script were put, or those up to `quit`; after `ScriptFault` and
/// `ScriptTooLong` those over the whole lines before; after `FolderFault` none, where the folder failed while it was
/// mounted, or those before one command that asked for a file; after `WriteFault` those before one reply and a front of
/// that one. `OutOfMemory` comes while the heap, the table of resources and the path are made, before the script is
/// read, or in a command that asked for memory.
pub fn quake_main<S: Source, O: Sink>(
    alloc: Global,
    words: &[String],
    folders: Vec<Box<dyn Folder>>,
    script: &mut S,
    out: &mut O,
) -> Status
    requires one_each { vec_len folders ≡ length words.now }
    requires few { length words.now < 2 ^ 32 }
    ensures outcome { HasOutcome no_events (map string_bytes words.now) files folder_faults folder_calls folders.items
        (outside_of S.Source O.Sink script.old out.old) (outside_of S.Source O.Sink script.new out.new) result }
    ensures too_long { IfSome (S.rest script.old) (λ before. IfSome (S.rest script.new) (λ after.
        (result ≡ Status.ScriptTooLong) ↔ (1048576 < length before - length after))) }
    ensures complete { (request : Request) → IsAsked (map string_bytes words.now) 8 request → (AsksTooMuch request → ⊥)
        → IsSomeAnd (S.rest script.old) (λ bytes. length bytes ≤ 1048576)
        → (Rose (S.source_faults script.old) (S.source_faults script.new) → ⊥)
        → (Rose (O.sink_faults out.old) (O.sink_faults out.new) → ⊥)
        → IsComplete (all_some (map files (drop request.first folders.items))) result }
{
    run(alloc, words, folders, script, out)
}
