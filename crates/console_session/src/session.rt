// A session of the console.
ghost use Rattle.std.specs.Prelude.{◌≡◌, ◌<◌, Some, length, slice_get, IfOk, OnErr, false, true};
ghost use Rattle.mem_model.specs.Laid.{Laid};
ghost use Rattle.console_session.specs.States.{started, IsNew, HasCauses};
ghost use Rattle.search_paths.specs.Path.{counts_of};
ghost use Rattle.console_session.specs.Serving.{path_of};
ghost use Rattle.res_table.specs.Held.{AreHeld};
ghost use Rattle.res_table.specs.Resources.{no_resources};
ghost use Rattle.console_session.specs.Sessions.{told_end, is_end};
ghost use Rattle.console_session.specs.Frames.{finish, line, Runs, NoneAsks};

use crate::console::{Console, Parts};
use crate::ends::{Fault, StepEnd};
use cmd_buffer::CommandText;
use mem_model::Store;
use outside_io::{Folder, Sink};
use res_table::ResTable;
use search_paths::Paths;
use std::alloc::AllocError;
use std::marker::Model;

/// How many users the cache of a session's store has.
pub const USERS: u32 = 768;

/// A console over a store, a path of folders and a table of resources. In every session the memory is laid out, each resource
/// that is there is the image of its file, and the cvars and aliases are in blocks of the zone that nothing else writes.
#[derive(Drop)]
pub struct Session<M: Store, F: Folder = Box<dyn Folder>> {
    pub(crate) console: Console<M, F>,
    // The command that is run.
    pub(crate) text: CommandText,
}

impl<M: Store, F: Folder> Model for Session<M, F> {
    ghost use Rattle.search_paths.specs.Path.{counts_of};
    ghost use Rattle.console_session.specs.Holding.{Holds};
    ghost use Rattle.console_session.specs.Serving.{seen};
    ghost use Rattle.console_session.specs.Sessions.{Seen};

    ghost Value = { Seen };

    ghost view = { λ s. record {
      state = seen M.Store F.Folder s.console;
      faults = counts_of F.folder_faults s.console.paths;
      calls = counts_of F.folder_calls s.console.paths;
      ended = s.console.ended;
    } };

    ghost invariant = { λ s. Holds (seen M.Store F.Folder s.console) };
}

impl<M: Store, F: Folder> Session<M, F> {
    /// A session over a store that was just created, with a zone of at least 4096 bytes and 768 cache users, a path, and a
    /// table that was just created, whose speed is that of the sounds.
    ///
    /// The cvars get their defaults. It holds what is handed in and values of fixed size, and takes no memory of its own:
    /// only a store that isn't frugal may refuse, for want of memory, and is dropped then with the path and the table.
    pub fn start(store: M, paths: Paths<F>, table: ResTable) -> Result<Session<M, F>, AllocError>
        requires new { IsNew (M.state store) }
        requires empty { table ≡ no_resources table.speed }
        ensures state { IfOk result (λ session.
            session.state ≡ started (M.state store) (path_of F.Folder paths) table.speed) }
        ensures faults { IfOk result (λ session. session.faults ≡ counts_of F.folder_faults paths) }
        ensures going { IfOk result (λ session. session.ended ≡ false) }
        ensures memory { OnErr result (M.frugal ≡ false) }
    {
        match Console::start(store, paths, table) {
            Ok(console) => Ok(Session {
                console,
                text: CommandText::new(),
            }),
            Err(error) => Err(error),
        }
    }

    /// Takes an input line, and runs a frame. The session must not have ended.
    ///
    /// The line is cut at its first zero byte. It and a newline are added to the buffer; where they don't fit,
    /// `overflow` is printed. The frame takes commands until the buffer is empty or `wait` was executed, at most 4096.
    /// After a fault the replies before one reply were put, and what the fault left of that one.
    ///
    /// A command that asks for a file is told where each mount up to the first that has it is; behind one that isn't,
    /// nothing is told of the line. A line that asks for no file calls no folder.
    pub fn step<O: Sink>(&mut self, text: &[u8], out: &mut O) -> StepEnd
        requires going { self.old.ended ≡ false }
        ensures told { Runs (line text.now self.old.state) (told_end result) self.new.state (O.got out.old) (O.got out.new) }
        ensures path { self.new.state.path ≡ self.old.state.path }
        ensures laid { Laid self.new.state.memory }
        ensures resources { AreHeld self.new.state.path.mounts self.new.state.table self.new.state.memory }
        ensures causes { HasCauses M.frugal self.old.faults self.new.faults
            (O.sink_faults out.old) (O.sink_faults out.new) (told_end result) }
        ensures calls { NoneAsks (line text.now self.old.state) → self.new.calls ≡ self.old.calls }
        ensures ended { self.new.ended ≡ is_end result }
    {
        let end = end_of(self.console.run_line(text, &mut self.text, out));
        self.console.ended = ends_run(end);
        end
    }

    /// Runs the frames after the script's end, until the buffer is empty, with one budget of 4096 commands for all. The
    /// session must not have ended, and has ended then.
    pub fn finish<O: Sink>(&mut self, out: &mut O) -> StepEnd
        requires going { self.old.ended ≡ false }
        ensures told { Runs (finish self.old.state) (told_end result) self.new.state (O.got out.old) (O.got out.new) }
        ensures path { self.new.state.path ≡ self.old.state.path }
        ensures laid { Laid self.new.state.memory }
        ensures resources { AreHeld self.new.state.path.mounts self.new.state.table self.new.state.memory }
        ensures causes { HasCauses M.frugal self.old.faults self.new.faults
            (O.sink_faults out.old) (O.sink_faults out.new) (told_end result) }
        ensures calls { NoneAsks (finish self.old.state) → self.new.calls ≡ self.old.calls }
        ensures ended { self.new.ended ≡ true }
    {
        let end = end_of(self.console.run_frame(true, &mut self.text, out));
        self.console.ended = true;
        end
    }

    /// The store, to be read.
    pub fn store(&self) -> &M
        ensures memory { M.state result.now ≡ self.now.state.memory }
        ensures laid { Laid (M.state result.now) }
    {
        self.console.store()
    }

    /// Hands back what the session stood on, and drops the rest, which takes no memory.
    pub fn into_parts(self) -> Parts<M, F>
        ensures memory { M.state result.store ≡ self.state.memory }
        ensures laid { Laid (M.state result.store) }
        ensures path { path_of F.Folder result.paths ≡ self.state.path }
        ensures faults { counts_of F.folder_faults result.paths ≡ self.faults }
        ensures calls { counts_of F.folder_calls result.paths ≡ self.calls }
        ensures table { result.table ≡ self.state.table }
        ensures resources { AreHeld self.state.path.mounts result.table (M.state result.store) }
    {
        self.console.into_parts()
    }

    /// Hands the folder of this number back, and drops the rest.
    pub fn take_folder(self, folder: u32) -> F
        requires { folder < length self.faults }
        ensures told { slice_get self.state.path.told folder ≡ Some (F.files result) }
        ensures faults { slice_get self.faults folder ≡ Some (F.folder_faults result) }
    {
        self.console.take_folder(folder)
    }

    /// Whether the run has ended.
    pub fn ended(&self) -> bool
        ensures { result ≡ self.now.ended }
    {
        self.console.ended
    }
}

// How a step ended.
pub(crate) fn end_of(outcome: Result<bool, Fault>) -> StepEnd
    ensures told { told_end result ≡ outcome }
{
    match outcome {
        Ok(false) => StepEnd::Went,
        Ok(true) => StepEnd::Quit,
        Err(Fault::Folder { folder }) => StepEnd::FolderFault { folder },
        Err(Fault::Write) => StepEnd::WriteFault,
        Err(Fault::Memory) => StepEnd::OutOfMemory,
    }
}

pub(crate) fn ends_run(end: StepEnd) -> bool
    ensures { result ≡ is_end end }
{
    match end {
        StepEnd::Went => false,
        _ => true,
    }
}
