// Commands of a caller: a session hands over those that it doesn't know.
ghost use Rattle.std.specs.Prelude.{◌≡◌, None, false};
ghost use Rattle.mem_model.specs.Laid.{Laid};
ghost use Rattle.res_table.specs.Held.{AreHeld};
ghost use Rattle.console_session.specs.States.{HasCauses};
ghost use Rattle.console_session.specs.Sessions.{told_end, is_end};
ghost use Rattle.console_session.specs.Frames.{frame, Runs, NoneAsks};

use crate::ends::StepEnd;
use crate::handed::HandedCommand;
use crate::session::{Session, end_of, ends_run};
use mem_model::Store;
use outside_io::{Folder, Sink};

impl<M: Store, F: Folder> Session<M, F> {
    /// Says whether commands that the session doesn't know are handed over from now on, in place of being told as unknown.
    /// They are told at the start.
    ///
    /// Such a command is one whose first word is neither a command nor an alias nor a cvar. It prints nothing, and ends its
    /// frame; what stands behind it stays in the buffer. The caller takes it by `take_handed`, and goes on by `resume`.
    pub fn hand_over(&mut self, hands: bool)
        ensures state { self.new.state ≡ record self.old.state { hands = hands } }
        ensures rest { self.new ≡ record self.old { state = self.new.state } }
    {
        self.console.hand_over(hands);
    }

    /// Takes the command that was handed over, where one was and isn't taken yet. The next that is handed over takes its place.
    pub fn take_handed(&mut self) -> Option<HandedCommand>
        ensures taken { result ≡ self.old.state.handed }
        ensures state { self.new.state ≡ record self.old.state { handed = None } }
        ensures rest { self.new ≡ record self.old { state = self.new.state } }
    {
        self.console.take_handed()
    }

    /// Runs a frame on what is in the buffer, as `step` does behind its line. The session must not have ended.
    ///
    /// It has a budget of its own, so an alias that names itself and a command of the caller can hand over without end: a caller
    /// limits how often it resumes.
    pub fn resume<O: Sink>(&mut self, out: &mut O) -> StepEnd
        requires going { self.old.ended ≡ false }
        ensures told { Runs (frame false 4096 self.old.state) (told_end result) self.new.state (O.got out.old) (O.got out.new) }
        ensures path { self.new.state.path ≡ self.old.state.path }
        ensures laid { Laid self.new.state.memory }
        ensures resources { AreHeld self.new.state.path.mounts self.new.state.table self.new.state.memory }
        ensures causes { HasCauses M.frugal self.old.faults self.new.faults
            (O.sink_faults out.old) (O.sink_faults out.new) (told_end result) }
        ensures calls { NoneAsks (frame false 4096 self.old.state) → self.new.calls ≡ self.old.calls }
        ensures ended { self.new.ended ≡ is_end result }
    {
        let end = end_of(self.console.run_frame(false, &mut self.text, out));
        self.console.ended = ends_run(end);
        end
    }
}
