// The resources of a game.
ghost use Rattle.std.specs.Prelude.{◌≡◌, ◌<◌, [], ◌∷◌, None, Some, Ok, false, is_none};
ghost use Rattle.std.specs.Prelude.{IfOk, IfErr, IfSome, IsErrOf, MatchOption};
ghost use Rattle.mem_model.specs.Keeps.{KeepsAll, beside_high};
ghost use Rattle.mem_model.specs.Laid.{Laid};
ghost use Rattle.search_paths.specs.Counts.{NoneFalls};
ghost use Rattle.search_paths.specs.Path.{rows_of, told_mounts, counts_of, SamePath};
ghost use Rattle.file_load.specs.Loads.{load_temp};
ghost use Rattle.res_table.specs.Acquire.{acquire, answered_before, before_of, table_after, Acquires};
ghost use Rattle.res_table.specs.Calls.{AsksOnce};
ghost use Rattle.res_table.specs.Faults.{IsAcquireFault};
ghost use Rattle.res_table.specs.Forgotten.{forgotten};
ghost use Rattle.res_table.specs.Held.{AreHeld, AreThere, seen};
ghost use Rattle.res_table.specs.Images.{HasFileName, IsImage, file_of};
ghost use Rattle.res_table.specs.Kept.{GrowsLow};
ghost use Rattle.res_table.specs.Resources.{no_resources, rows_in, with_rows};
ghost use Rattle.res_table.specs.Tables.{entered, most_of, slot_for, user_of};

use crate::answers::{AcquireError, Res};
use crate::kinds::{Kind, Table};
use crate::load::load;
use crate::look::bytes_at;
use crate::slots::{Loaded, Slots, loaded_of};
use crate::used::used;
use base_fields::GameName;
use mem_model::Store;
use outside_io::Folder;
use search_paths::Paths;
use std::alloc::{AllocError, Global};
use std::marker::Model;

/// The resources of a game: which names each table has, and what was loaded for each. Contracts see it as its rows.
#[derive(Drop)]
pub struct ResTable {
    speed: u32,
    models: Slots,
    sounds: Slots,
}

impl Model for ResTable {
    ghost use Rattle.std.specs.Prelude.{◌≡◌};
    ghost use Rattle.res_table.specs.Resources.{Resources};

    ghost Value = { Resources };

    ghost view = { λ t. record { speed = t.speed; models = t.models.rows; sounds = t.sounds.rows } };

    ghost invariant = { λ t. (t.models.most ≡ 256) × (t.sounds.most ≡ 512) };
}

impl ResTable {
    /// No resources, with room for the names of each table, so that no later call takes memory for them. Sounds are made for
    /// `speed` samples a second.
    pub fn create(alloc: Global, speed: u32) -> Result<ResTable, AllocError>
        ensures { IfOk result (λ table. table ≡ no_resources speed) }
    {
        Ok(ResTable {
            speed,
            models: Slots::create(alloc, Table::Models.most())?,
            sounds: Slots::create(alloc, Table::Sounds.most())?,
        })
    }

    // Samples a second.
    fn speed(&self) -> u32
        ensures { result ≡ self.now.speed }
    {
        self.speed
    }

    // The names of a table.
    fn slots(&self, table: Table) -> &Slots
        ensures { result.now ≡ record { rows = rows_in self.now table; most = most_of table } }
    {
        match table {
            Table::Models => &self.models,
            Table::Sounds => &self.sounds,
        }
    }

    // What was loaded for a name, in its slot or in the next one.
    fn enter(&mut self, table: Table, name: &GameName, loaded: Loaded)
        requires { slot_for name.now (rows_in self.old table) < most_of table }
        ensures { self.new ≡ with_rows self.old table (entered (rows_in self.old table) name.now loaded) }
    {
        match table {
            Table::Models => self.models.enter(name, loaded),
            Table::Sounds => self.sounds.enter(name, loaded),
        }
    }

    // The resource of a name, where it is there: it is used once. A further name is refused where there is no room for it.
    #[tactic(auto, using(crate::proofs::Acquiring::presence), unfolding(crate::specs::Acquire::answered_before))]
    fn present<M: Store>(
        &self,
        store: &mut M,
        table: Table,
        name: &GameName,
    ) -> Result<Option<Res>, AcquireError>
        ensures before { answered_before self.now (M.state store.old) table name.now
            ≡ before_of self.now (M.state store.new) result }
        ensures same { result ≡ Ok None → M.state store.new ≡ M.state store.old }
        ensures room { result ≡ Ok None → slot_for name.now (rows_in self.now table) < most_of table }
        ensures old { IfOk result (λ found. IfSome found (λ res. res.loaded ≡ false)) }
        ensures full { IfErr result (λ e. e ≡ AcquireError.TableFull) }
        ensures keeps { KeepsAll [] (M.state store.old) (M.state store.new) }
        ensures beside { beside_high (M.state store.new) ≡ beside_high (M.state store.old) }
        ensures laid { Laid (M.state store.old) → Laid (M.state store.new) }
    {
        let slots = self.slots(table);
        match slots.find(name) {
            Some((slot, loaded)) => Ok(used(store, table.user(slot), &loaded)),
            None if slots.has_room() => Ok(None),
            None => Err(AcquireError::TableFull),
        }
    }

    /// The resource of a name. One that is there is answered without a call of a folder, and used once where it lies in
    /// the cache. Else its file is loaded into the temporary block, which stays active, and its image is built in a block
    /// of the cache with the base of the file's name. The name enters the table with its first load.
    ///
    /// The errors come in this order: `TableFull`, those of the load of the file, `Bad`, and `NoRoom` or `OutOfMemory` of
    /// the cache. Each leaves the table and the low hunk as they were.
    pub fn acquire<M: Store, F: Folder>(
        &mut self,
        store: &mut M,
        paths: &mut Paths<F>,
        table: Table,
        name: &GameName,
    ) -> Result<Res, AcquireError>
        requires file { HasFileName table name.now }
        requires laid { Laid (M.state store.old) }
        requires held { AreHeld (told_mounts F.files paths.old) self.old (M.state store.old) }

        // Where the mounts tell the file, and where it isn't needed.
        ensures told { IfSome (acquire self.old (M.state store.old) table name.now
            (load_temp (told_mounts F.files paths.old) (M.state store.old) (file_of table name.now))) (λ given.
            Acquires (is_none (answered_before self.old (M.state store.old) table name.now)) given result self.new
            (M.state store.new)) }
        ensures unasked { IfSome (answered_before self.old (M.state store.old) table name.now) (λ _.
            paths.new ≡ paths.old) }

        // Whatever they tell.
        ensures held { AreHeld (told_mounts F.files paths.new) self.new (M.state store.new) }
        ensures keeps { KeepsAll (user_of table (slot_for name.now (rows_in self.old table)) ∷ []) (M.state store.old)
            (M.state store.new) }
        ensures low { GrowsLow (M.state store.old) (M.state store.new) }
        ensures refused { IfErr result (λ _. (M.state store.new).low ≡ (M.state store.old).low) }
        ensures zone { (M.state store.new).zone ≡ (M.state store.old).zone }
        ensures table { self.new ≡ table_after self.old table name.now result }
        ensures memory { IsErrOf result AcquireError.OutOfMemory → M.frugal ≡ false }
        ensures laid { Laid (M.state store.new) }

        // The path.
        ensures same { SamePath F.files paths.old paths.new }
        ensures asked { answered_before self.old (M.state store.old) table name.now ≡ None
            → AsksOnce F.folder_calls (file_of table name.now) (told_mounts F.files paths.old) (rows_of paths.old)
            paths.old.folders paths.new.folders result }
        ensures faults { NoneFalls (counts_of F.folder_faults paths.old) (counts_of F.folder_faults paths.new) }
        ensures calls { NoneFalls (counts_of F.folder_calls paths.old) (counts_of F.folder_calls paths.new) }
        ensures fault { IfErr result
            (IsAcquireFault (counts_of F.folder_faults paths.old) (counts_of F.folder_faults paths.new)) }
    {
        if let Some(res) = self.present(store, table, name)? {
            return Ok(res);
        }
        let user = table.user(self.slots(table).slot(name));
        let res = load(store, paths, self.speed(), table, user, &table.file(name))?;
        self.enter(table, name, loaded_of(&res));
        Ok(res)
    }

    /// Forgets what a freeing of the low hunk to a level takes away: a resource is absent from now on where the header
    /// of its low block, 16 bytes before its place, lies at or above the level. Each name keeps its slot.
    pub fn forget_low(&mut self, level: u32)
        ensures { self.new ≡ forgotten level self.old }
    {
        self.models.forget_low(level);
        self.sounds.forget_low(level);
    }

    /// The kind and the image of the resource of a name, which is no use of it: `None` exactly where the name isn't in the
    /// table or its block is gone.
    pub fn look<'a, M: Store>(
        &self,
        store: &'a M,
        table: Table,
        name: &GameName,
    ) -> Option<(Kind, &'a [u8])>
        requires { AreThere self.now (M.state store.now) }
        ensures seen { MatchOption result (seen self.now (M.state store.now) table name.now ≡ None)
            (λ image. seen self.now (M.state store.now) table name.now ≡ Some (image.0, image.1.now)) }
        ensures image { IfSome result (λ image. IsImage image.0 image.1.now) }
    {
        let (slot, loaded) = self.slots(table).find(name)?;
        let bytes = bytes_at(store, table.user(slot), loaded.low)?;
        Some((loaded.kind, &bytes[..loaded.size as usize]))
    }
}
