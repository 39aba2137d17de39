// The commands on aliases and cvars, and what a first word means that is no command.
ghost use Rattle.std.specs.Prelude.{◌≡◌, ◌++◌, drop, if◌then◌else◌};
ghost use Rattle.mem_model.specs.Laid.{IsText};
ghost use Rattle.cmd_buffer.specs.Buffer.{fits_in};
ghost use Rattle.console_session.specs.Holding.{Holds, AreShort};
ghost use Rattle.console_session.specs.Serving.{seen, Does};
ghost use Rattle.console_session.specs.Commands.{make_alias, answer_alias, make_cvar, cvar_or_unknown, by_name, spaced};

use crate::console::Console;
use crate::ends::{Fault, Next};
use crate::replies::{
    put_alias_set, put_aliases, put_cvar, put_cvar_set, put_inserted, put_unknown,
};
use arrayvec::ArrayVec;
use cmd_buffer::{CmdBuffer, Words};
use mem_model::Store;
use outside_io::{Folder, Sink};

// A value has the words of a command, which have 1023 bytes at most, a space for each of 80, and a newline.
const VALUE: usize = 1104;

// The words from the third on, each followed by a space, and a newline.
fn value_of(words: &Words<'_>) -> ArrayVec<u8, VALUE>
    requires { AreShort words.now }
    ensures { result.items ≡ spaced (drop 2 words.now) }
{
    let mut value = ArrayVec::new();
    let mut left = words.rest().rest();
    'words: while let Some(word) = left.first() {
        value.try_extend_from_slice(word).unwrap();
        value.push(b' ');
        left = left.rest();
    }
    value.push(b'\n');
    value
}

// Puts a text in front of the buffer, where it fits.
pub(super) fn insert(buffer: &mut CmdBuffer, text: &[u8]) -> bool
    requires texts { IsText text.now × IsText buffer.old }
    ensures fits { result ≡ fits_in text.now buffer.old }
    ensures buffer { buffer.new ≡ (if fits_in text.now buffer.old then text.now ++ buffer.old else buffer.old) }
    ensures text { IsText buffer.new }
{
    buffer.insert(text).is_ok()
}

impl<M: Store, F: Folder> Console<M, F> {
    // Sets the alias of the second word to those that follow it.
    fn make_alias<O: Sink>(&mut self, words: &Words<'_>, out: &mut O) -> Result<Next, Fault>
        requires holds { Holds (seen M.Store F.Folder self.old) }
        requires short { AreShort words.now }
        ensures { Does M.Store F.Folder O.Sink (make_alias words.now) self.old self.new out.old out.new result }
    {
        let value = value_of(words);
        let set = self
            .aliases
            .set(&mut self.store, words.word(1), value.as_slice());
        put_alias_set(out, set)
    }

    pub(super) fn alias<O: Sink>(&mut self, words: &Words<'_>, out: &mut O) -> Result<Next, Fault>
        requires holds { Holds (seen M.Store F.Folder self.old) }
        requires short { AreShort words.now }
        ensures { Does M.Store F.Folder O.Sink (answer_alias words.now) self.old self.new out.old out.new result }
    {
        if words.is_one() {
            return put_aliases(&self.store, &self.aliases, out);
        }
        self.make_alias(words, out)
    }

    // Sets the cvar of the first word to the second.
    fn make_cvar<O: Sink>(&mut self, words: &Words<'_>, out: &mut O) -> Result<Next, Fault>
        requires holds { Holds (seen M.Store F.Folder self.old) }
        requires short { AreShort words.now }
        ensures { Does M.Store F.Folder O.Sink (make_cvar words.now) self.old self.new out.old out.new result }
    {
        let set = self
            .cvars
            .set(&mut self.store, words.word(0), words.word(1));
        put_cvar_set(out, set)
    }

    // Shows or sets the cvar of the first word.
    fn run_cvar<O: Sink>(&mut self, words: &Words<'_>, out: &mut O) -> Result<Next, Fault>
        requires holds { Holds (seen M.Store F.Folder self.old) }
        requires short { AreShort words.now }
        ensures { Does M.Store F.Folder O.Sink (cvar_or_unknown words.now) self.old self.new out.old out.new result }
    {
        match self.cvars.get(&self.store, words.word(0)) {
            None => put_unknown(out, words.word(0)),
            Some(value) if words.is_one() => put_cvar(out, words.word(0), value),
            Some(_) => self.make_cvar(words, out),
        }
    }

    // The first word is no command: it may be an alias or a cvar.
    pub(super) fn run_name<O: Sink>(
        &mut self,
        words: &Words<'_>,
        out: &mut O,
    ) -> Result<Next, Fault>
        requires holds { Holds (seen M.Store F.Folder self.old) }
        requires short { AreShort words.now }
        ensures { Does M.Store F.Folder O.Sink (by_name words.now) self.old self.new out.old out.new result }
    {
        match self.aliases.find(&self.store, words.word(0)) {
            Some(value) => {
                let inserted = insert(&mut self.buffer, value);
                put_inserted(out, inserted)
            }
            None => self.run_cvar(words, out),
        }
    }
}
