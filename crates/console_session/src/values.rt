// The cvars of a session, read and set between steps.
ghost use Rattle.std.specs.Prelude.{◌≡◌, ◌<◌, ◌^◌, true, None, Some, Ok, MatchOption, IfOk, IfSome, is_some, length};
ghost use Rattle.mem_model.specs.Laid.{Laid, IsText};
ghost use Rattle.res_table.specs.Held.{AreHeld};
ghost use Rattle.cvar_table.specs.Cvars.{cvar_of, cvar_value, OthersReadAlike};
ghost use Rattle.console_session.specs.Values.{SetsCvar};

use crate::session::Session;
use mem_model::{Store, ZoneError};
use outside_io::Folder;

impl<M: Store, F: Folder> Session<M, F> {
    /// The value of the cvar of exactly this name, without the zero that ends it: `None` exactly where none has the name.
    pub fn cvar(&self, name: &[u8]) -> Option<&[u8]>
        ensures value { MatchOption result (cvar_value self.now.state.memory self.now.state.cvars name.now ≡ None)
            (λ value. cvar_value self.now.state.memory self.now.state.cvars name.now ≡ Some value.now) }
        ensures text { IfSome result (λ value. IsText value.now) }
    {
        self.console.cvar(name)
    }

    /// Sets the cvar of exactly this name as the command `NAME VALUE` does, and answers whether there is one. Nothing is
    /// printed. The value has no zero byte.
    ///
    /// `Full` tells what the value's block needs where no free block of the zone holds it. It changes nothing but for the
    /// event, where events are kept, and want of memory changes nothing at all.
    pub fn set_cvar(&mut self, name: &[u8], value: &[u8]) -> Result<bool, ZoneError>
        requires text { IsText value.now }
        requires short { length value.now < 2 ^ 62 }
        ensures set { SetsCvar M.frugal name.now value.now self.old.state self.new.state result }
        ensures found { IfOk result (λ found. found ≡ is_some (cvar_of self.old.state.cvars name.now)) }
        ensures read_back { result ≡ Ok true →
            cvar_value self.new.state.memory self.new.state.cvars name.now ≡ Some value.now }
        ensures others { result ≡ Ok true → OthersReadAlike self.old.state.memory self.new.state.memory
            self.old.state.cvars self.new.state.cvars name.now }
        ensures laid { Laid self.new.state.memory }
        ensures resources { AreHeld self.new.state.path.mounts self.new.state.table self.new.state.memory }
        ensures rest { self.new ≡ record self.old { state = self.new.state } }
    {
        self.console.set_cvar(name, value)
    }
}
