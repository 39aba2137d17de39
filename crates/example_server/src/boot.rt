// The start of the server.
ghost use Rattle.std.specs.Prelude.{◌≡◌, ◌++◌, IfOk, false};
ghost use Rattle.example_server.specs.Boots.{boot_text, IsStarted};

use crate::errors::ServerError;
use crate::game::game_folder;
use console_session::{Session, StepEnd, USERS};
use mem_model::PlainStore;
use outside_io::{MemFolder, MemSink};
use res_table::ResTable;
use search_paths::Paths;
use std::alloc::Global;

// The arena and the console's zone inside, in bytes.
const ARENA: u32 = 1_048_576;

const ZONE: u32 = 49_152;

// Samples of sound a second.
const SPEED: u32 = 11_025;

// A session over the game.
fn start(alloc: Global) -> Result<Session<PlainStore, MemFolder>, ServerError>
    ensures { IfOk result IsStarted }
{
    let store = PlainStore::create(alloc, ARENA, ZONE, USERS)?;
    let mut paths = Paths::create(alloc)?;
    paths.mount(alloc, game_folder(alloc)?)?;
    let table = ResTable::create(alloc, SPEED)?;
    Ok(Session::start(store, paths, table)?)
}

/// Starts a session over the game and executes its configuration: exactly the boot's text is put.
pub fn boot(alloc: Global, out: &mut MemSink) -> Result<Session<PlainStore, MemFolder>, ServerError>
    ensures text { IfOk result (λ _. out.new.got ≡ out.old.got ++ boot_text) }
    ensures going { IfOk result (λ session. session.ended ≡ false) }
{
    let mut session = start(alloc)?;
    match session.step(b"exec autoexec.cfg", out) {
        StepEnd::Went => Ok(session),
        end => Err(ServerError::Ended(end)),
    }
}
