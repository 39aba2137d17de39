// The commands that load mounts, and those that ask for blocks.
ghost use Rattle.std.specs.Prelude.{◌≡◌, ◌≤◌, ◌++◌, length, IfOk, IfSome, IsSomeAnd, All, take, if◌then◌else◌};
ghost use Rattle.base_fields.specs.Texts.{until_zero};
ghost use Rattle.mem_model.specs.Hunk.{low_bytes};
ghost use Rattle.mem_model.specs.Operations.{low_free};
ghost use Rattle.cmd_buffer.specs.Buffer.{fits_in};
ghost use Rattle.file_load.specs.Loads.{load_low, Loads};
ghost use Rattle.res_table.specs.Held.{lows_of};
ghost use Rattle.console_session.specs.Holding.{Holds};
ghost use Rattle.console_session.specs.Serving.{seen, Does, KeepsRest};
ghost use Rattle.console_session.specs.Commands.{answer_echo, answer_file, answer_exec, answer_reserve};
ghost use Rattle.console_session.specs.Commands.{answer_video, answer_level, answer_report, answer_path, answer_flush};

use crate::console::Console;
use crate::console::values::insert;
use crate::ends::{Fault, Next};
use crate::replies::{
    put_bad_name, put_bad_number, put_block, put_echo, put_executed, put_file, put_load_error,
    put_mounts, put_report, reply,
};
use base_fields::{GameName, before_zero};
use cmd_buffer::Words;
use file_load::{LoadError, load_low};
use map_change::set_level;
use mem_model::{Place, Store};
use outside_io::{Folder, Sink};
use reply_pieces::Piece;

impl<M: Store, F: Folder> Console<M, F> {
    // Loads a file of the path onto the low hunk.
    fn load(&mut self, name: &GameName) -> Result<(Place, u64), LoadError>
        requires holds { Holds (seen M.Store F.Folder self.old) }
        ensures told { IfSome (load_low (seen M.Store F.Folder self.old).path.mounts (M.state self.old.store) name.now)
            (λ given. Loads given result (M.state self.new.store)) }
        ensures there { IfOk result (λ loaded.
            IsSomeAnd (low_bytes (M.state self.new.store) loaded.0.0) (λ bytes. loaded.1 ≤ length bytes)) }
        ensures rest { KeepsRest M.Store F.Folder self.old self.new result }
    {
        load_low(&mut self.store, &mut self.paths, name)
    }

    pub(super) fn file<O: Sink>(
        &mut self,
        name: Option<GameName>,
        out: &mut O,
    ) -> Result<Next, Fault>
        requires holds { Holds (seen M.Store F.Folder self.old) }
        ensures { Does M.Store F.Folder O.Sink (answer_file name) self.old self.new out.old out.new result }
    {
        let Some(name) = name else {
            return put_bad_name(out);
        };
        match self.load(&name) {
            Ok((place, size)) => put_file(out, &name, size, place),
            Err(error) => put_load_error(out, b"not found: ", &name, error),
        }
    }

    // Inserts a loaded file of this size in front of the buffer, and frees what was loaded.
    fn insert_loaded(&mut self, mark: u32, place: Place, size: u64) -> bool
        requires holds { Holds (seen M.Store F.Folder self.old) }
        requires below { self.old.level ≤ mark }
        requires lows { All (λ place. place ≤ mark) (lows_of self.old.table) }
        requires there { IsSomeAnd (low_bytes (M.state self.old.store) place.0) (λ bytes. size ≤ length bytes) }
        ensures buffer { IfSome (low_bytes (M.state self.old.store) place.0) (λ bytes.
            self.new.buffer ≡ (if fits_in (until_zero (take size bytes)) self.old.buffer
            then until_zero (take size bytes) ++ self.old.buffer else self.old.buffer)) }
        ensures fits { IfSome (low_bytes (M.state self.old.store) place.0) (λ bytes.
            result ≡ fits_in (until_zero (take size bytes)) self.old.buffer) }
        ensures memory { M.state self.new.store ≡ (low_free (M.state self.old.store) mark).after }
        ensures rest { self.new ≡ record self.old { store = self.new.store; buffer = self.new.buffer } }
        ensures holds { Holds (seen M.Store F.Folder self.new) }
    {
        let bytes = self.store.low_bytes(place);
        let inserted = insert(&mut self.buffer, before_zero(&bytes[..size as usize]));
        let _ = self.store.low_free(mark);
        inserted
    }

    pub(super) fn exec<O: Sink>(
        &mut self,
        name: Option<GameName>,
        out: &mut O,
    ) -> Result<Next, Fault>
        requires holds { Holds (seen M.Store F.Folder self.old) }
        ensures { Does M.Store F.Folder O.Sink (answer_exec name) self.old self.new out.old out.new result }
    {
        let Some(name) = name else {
            return put_bad_name(out);
        };
        let mark = self.store.low_mark();
        match self.load(&name) {
            Ok((place, size)) => {
                let inserted = self.insert_loaded(mark, place, size);
                put_executed(out, &name, inserted)
            }
            Err(error) => put_load_error(out, b"couldn't exec ", &name, error),
        }
    }

    pub(super) fn echo<O: Sink>(&mut self, words: &Words<'_>, out: &mut O) -> Result<Next, Fault>
        requires holds { Holds (seen M.Store F.Folder self.old) }
        ensures { Does M.Store F.Folder O.Sink (answer_echo words.now) self.old self.new out.old out.new result }
    {
        put_echo(words, out)
    }

    // Asks for a low block.
    pub(super) fn reserve<O: Sink>(
        &mut self,
        size: Option<u32>,
        name: Option<GameName>,
        out: &mut O,
    ) -> Result<Next, Fault>
        requires holds { Holds (seen M.Store F.Folder self.old) }
        ensures { Does M.Store F.Folder O.Sink (answer_reserve size name) self.old self.new out.old out.new result }
    {
        let Some(size) = size else {
            return put_bad_number(out);
        };
        let Some(name) = name else {
            return put_bad_name(out);
        };
        let given = self.store.low_alloc(u64::from(size), name.base());
        put_block(out, b"reserve ", &name, size, given)
    }

    // Frees the high hunk, and then asks for a block there.
    pub(super) fn video<O: Sink>(
        &mut self,
        size: Option<u32>,
        name: Option<GameName>,
        out: &mut O,
    ) -> Result<Next, Fault>
        requires holds { Holds (seen M.Store F.Folder self.old) }
        ensures { Does M.Store F.Folder O.Sink (answer_video size name) self.old self.new out.old out.new result }
    {
        let Some(size) = size else {
            return put_bad_number(out);
        };
        let Some(name) = name else {
            return put_bad_name(out);
        };
        self.store.high_mark();
        let _ = self.store.high_free(0);
        let given = self.store.high_alloc(u64::from(size), name.base());
        put_block(out, b"video ", &name, size, given)
    }

    // Sets the host level to where the low hunk ends.
    pub(super) fn set_level<O: Sink>(&mut self, out: &mut O) -> Result<Next, Fault>
        requires holds { Holds (seen M.Store F.Folder self.old) }
        ensures { Does M.Store F.Folder O.Sink answer_level self.old self.new out.old out.new result }
    {
        self.level = set_level(&self.store);
        reply(
            out,
            &[
                Piece::Text(b"level "),
                Piece::Number(u64::from(self.level)),
                Piece::Text(b"\n"),
            ],
        )
    }

    pub(super) fn report_blocks<O: Sink>(&mut self, out: &mut O) -> Result<Next, Fault>
        requires holds { Holds (seen M.Store F.Folder self.old) }
        ensures { Does M.Store F.Folder O.Sink answer_report self.old self.new out.old out.new result }
    {
        put_report(&self.store, out)
    }

    pub(super) fn flush_cache<O: Sink>(&mut self, out: &mut O) -> Result<Next, Fault>
        requires holds { Holds (seen M.Store F.Folder self.old) }
        ensures { Does M.Store F.Folder O.Sink answer_flush self.old self.new out.old out.new result }
    {
        self.store.flush();
        reply(out, &[])
    }

    pub(super) fn list_path<O: Sink>(&mut self, out: &mut O) -> Result<Next, Fault>
        requires holds { Holds (seen M.Store F.Folder self.old) }
        ensures { Does M.Store F.Folder O.Sink answer_path self.old self.new out.old out.new result }
    {
        put_mounts(&self.paths, out)
    }
}
