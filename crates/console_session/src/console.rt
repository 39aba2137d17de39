// What a session keeps, and the commands on it.
ghost use Rattle.std.specs.Prelude.{◌≡◌, ◌<◌, Some, length, slice_get, IfOk, OnErr, false};
ghost use Rattle.console_session.specs.States.{started, IsNew};
ghost use Rattle.console_session.specs.Holding.{Holds};
ghost use Rattle.search_paths.specs.Path.{counts_of};
ghost use Rattle.console_session.specs.Serving.{seen, path_of};
ghost use Rattle.res_table.specs.Resources.{no_resources};

mod commands;
mod cvars;
mod frames;
mod handing;
mod hosting;
mod resources;
mod values;

use crate::handed::HandedCommand;
use base_fields::GameName;
use cmd_buffer::{Aliases, CmdBuffer};
use cvar_table::Cvars;
use mem_model::{Store, ZoneError};
use outside_io::Folder;
use res_table::ResTable;
use search_paths::Paths;
use std::alloc::AllocError;

/// What a session stood on, handed back.
#[derive(Drop)]
pub struct Parts<M: Store, F: Folder = Box<dyn Folder>> {
    /// The cvars and the aliases of the session are blocks of its zone still.
    pub store: M,
    pub paths: Paths<F>,
    pub table: ResTable,
}

/// The store, the path and the resources, and what a console keeps of its own.
#[derive(Drop)]
pub struct Console<M: Store, F: Folder> {
    store: M,
    paths: Paths<F>,
    table: ResTable,
    buffer: CmdBuffer,
    // The mark of the low hunk above which the next map frees.
    level: u32,
    cvars: Cvars,
    aliases: Aliases,
    // The name of the current wad.
    wad: Option<GameName>,
    // The name of the file of the current map.
    map: Option<GameName>,
    // Whether commands that the console doesn't know are handed over.
    hands: bool,
    // The one that was handed over, and not taken yet.
    handed: Option<HandedCommand>,
    // Whether the run has ended.
    pub ended: bool,
}

impl<M: Store, F: Folder> Console<M, F> {
    // A console over a store and a table that were just created.
    pub fn start(store: M, paths: Paths<F>, table: ResTable) -> Result<Console<M, F>, AllocError>
        requires new { IsNew (M.state store) }
        requires empty { table ≡ no_resources table.speed }
        ensures state { IfOk result (λ console.
            seen M.Store F.Folder console ≡ started (M.state store) (path_of F.Folder paths) table.speed) }
        ensures holds { IfOk result (λ console. Holds (seen M.Store F.Folder console)) }
        ensures paths { IfOk result (λ console. console.paths ≡ paths) }
        ensures going { IfOk result (λ console. console.ended ≡ false) }
        ensures memory { OnErr result (M.frugal ≡ false) }
    {
        let mut store = store;
        let level = store.low_mark();
        match Cvars::create(&mut store) {
            Ok(cvars) => Ok(Console {
                store,
                paths,
                table,
                buffer: CmdBuffer::create(),
                level,
                cvars,
                aliases: Aliases::create(),
                wad: None,
                map: None,
                hands: false,
                handed: None,
                ended: false,
            }),
            Err(ZoneError::Full { .. }) => unreachable!(),
            Err(ZoneError::OutOfMemory) => Err(AllocError),
        }
    }

    pub fn store(&self) -> &M
        ensures { result.now ≡ self.now.store }
    {
        &self.store
    }

    // The store, the path and the table.
    pub fn into_parts(self) -> Parts<M, F>
        ensures store { result.store ≡ self.store }
        ensures paths { result.paths ≡ self.paths }
        ensures table { result.table ≡ self.table }
    {
        Parts {
            store: self.store,
            paths: self.paths,
            table: self.table,
        }
    }

    // The folder of this number.
    pub fn take_folder(self, folder: u32) -> F
        requires { folder < length (counts_of F.folder_faults self.paths) }
        ensures { slice_get (self.paths.folders) folder ≡ Some result }
    {
        self.paths.take_folder(folder)
    }
}
