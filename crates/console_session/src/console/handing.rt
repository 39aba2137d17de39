// Commands that a console doesn't know, and hands over.
ghost use Rattle.std.specs.Prelude.{◌≡◌, None};
ghost use Rattle.console_session.specs.Holding.{Holds};
ghost use Rattle.console_session.specs.Serving.{seen};
ghost use Rattle.console_session.specs.Commands.{are_strange};

use crate::console::Console;
use crate::handed::HandedCommand;
use crate::verbs::find_verb;
use cmd_buffer::Words;
use mem_model::Store;
use outside_io::Folder;

impl<M: Store, F: Folder> Console<M, F> {
    // Whether there is a first word, which is neither a command nor an alias nor a cvar.
    pub(super) fn are_strange(&self, words: &Words<'_>) -> bool
        requires holds { Holds (seen M.Store F.Folder self.now) }
        ensures { result ≡ are_strange words.now (seen M.Store F.Folder self.now) }
    {
        let Some(word) = words.first() else {
            return false;
        };
        find_verb(word).is_none()
            && self.aliases.find(&self.store, word).is_none()
            && self.cvars.get(&self.store, word).is_none()
    }

    // Says whether commands that the console doesn't know are handed over from now on.
    pub fn hand_over(&mut self, hands: bool)
        requires holds { Holds (seen M.Store F.Folder self.old) }
        ensures rest { self.new ≡ record self.old { hands = hands } }
        ensures holds { Holds (seen M.Store F.Folder self.new) }
    {
        self.hands = hands;
    }

    // Takes the command that was handed over.
    pub fn take_handed(&mut self) -> Option<HandedCommand>
        requires holds { Holds (seen M.Store F.Folder self.old) }
        ensures taken { result ≡ self.old.handed }
        ensures rest { self.new ≡ record self.old { handed = None } }
        ensures holds { Holds (seen M.Store F.Folder self.new) }
    {
        self.handed.take()
    }
}
