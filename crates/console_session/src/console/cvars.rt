// The cvars, between commands.
ghost use Rattle.std.specs.Prelude.{◌≡◌, ◌<◌, ◌^◌, true, None, Some, Ok, MatchOption, IfOk, IfSome, is_some, length};
ghost use Rattle.mem_model.specs.Laid.{IsText};
ghost use Rattle.cvar_table.specs.Cvars.{cvar_of, cvar_value, OthersReadAlike};
ghost use Rattle.console_session.specs.Holding.{Holds};
ghost use Rattle.console_session.specs.Serving.{seen};
ghost use Rattle.console_session.specs.Values.{SetsCvar};

use crate::console::Console;
use mem_model::{Store, ZoneError};
use outside_io::Folder;

impl<M: Store, F: Folder> Console<M, F> {
    // The value of the cvar of exactly this name.
    pub fn cvar(&self, name: &[u8]) -> Option<&[u8]>
        requires holds { Holds (seen M.Store F.Folder self.now) }
        ensures value { MatchOption result (cvar_value (M.state self.now.store) self.now.cvars name.now ≡ None)
            (λ value. cvar_value (M.state self.now.store) self.now.cvars name.now ≡ Some value.now) }
        ensures text { IfSome result (λ value. IsText value.now) }
    {
        self.cvars.get(&self.store, name)
    }

    // Sets the cvar of exactly this name, and answers whether there is one.
    pub fn set_cvar(&mut self, name: &[u8], value: &[u8]) -> Result<bool, ZoneError>
        requires holds { Holds (seen M.Store F.Folder self.old) }
        requires text { IsText value.now }
        requires short { length value.now < 2 ^ 62 }
        ensures set { SetsCvar M.frugal name.now value.now (seen M.Store F.Folder self.old)
            (seen M.Store F.Folder self.new) result }
        ensures found { IfOk result (λ found. found ≡ is_some (cvar_of self.old.cvars name.now)) }
        ensures read_back { result ≡ Ok true →
            cvar_value (M.state self.new.store) self.new.cvars name.now ≡ Some value.now }
        ensures others { result ≡ Ok true → OthersReadAlike (M.state self.old.store) (M.state self.new.store)
            self.old.cvars self.new.cvars name.now }
        ensures rest { self.new ≡ record self.old { store = self.new.store; cvars = self.new.cvars } }
        ensures holds { Holds (seen M.Store F.Folder self.new) }
    {
        self.cvars.set(&mut self.store, name, value)
    }
}
