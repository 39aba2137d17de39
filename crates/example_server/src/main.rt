//! A small game server: it mounts its game, boots, loads a level into the console's own arena, and shows what lies there.
//!
//! Copy it to begin with. `boot` and `load_level` have contracts that rest on the public clauses of the library alone.
#![tactic(auto)]

ghost use Rattle.std.specs.Prelude.{◌≡◌, IfOk, false};

mod boot;
mod errors;
mod game;
mod level;
mod rows;

use boot::boot;
use console_session::{Session, StepEnd};
use errors::ServerError;
use level::load_level;
use mem_model::Store;
use outside_io::{Folder, MemSink};
use std::io;

// The lines that the server runs behind its boot.
const LINES: [&[u8]; 2] = [b"volume", b"report"];

fn run_lines<M: Store, F: Folder>(
    session: &mut Session<M, F>,
    out: &mut MemSink,
) -> Result<(), ServerError>
    requires going { session.old.ended ≡ false }
    ensures going { IfOk result (λ _. session.new.ended ≡ false) }
{
    for line in LINES {
        match session.step(line, out) {
            StepEnd::Went => {}
            end => return Err(ServerError::Ended(end)),
        }
    }
    Ok(())
}

fn serve(rt: &HostRuntime) -> Result<(), ServerError> {
    let alloc = rt.alloc();
    let mut out = MemSink::create(alloc, 65_536, Vec::new(alloc))?;
    let mut session = boot(alloc, &mut out)?;
    let level = load_level(&mut session, b"e1m1", b"three rooms and a door", 7)?;
    run_lines(&mut session, &mut out)?;
    if let Ok(text) = str::from_utf8(out.got()) {
        print!(rt; "{text}")?;
    }
    println!(rt; "map {} score {}", level.map.0, level.score.0)?;
    rows::print_all(rt, session.store())?;
    Ok(())
}

fn main(rt: HostRuntime) -> io::Result<()> {
    if let Err(error) = serve(&rt) {
        println!(rt; "{error}")?;
    }
    Ok(())
}
