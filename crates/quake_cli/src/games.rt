// Games that are made from numbers, in folders of memory.
ghost use Rattle.std.specs.Prelude.{◌≡◌, [], IfOk};
ghost use Rattle.quake_cli.specs.Games.{game_files, number_asked};

use base_fields::decimal;
use outside_io::{MemFile, MemFolder};
use std::alloc::{AllocError, Global};
use world_gen::generate;

/// The number of the game that a word asks for: it is `gen:` and 1 to 9 decimal digits.
pub fn number_asked(word: &[u8]) -> Option<u32>
    ensures { result ≡ number_asked word.now }
{
    decimal(word.strip_prefix(b"gen:")?).ok()
}

/// A folder of the two files of a game. No call of it fails.
pub fn game_folder(alloc: Global, number: u32) -> Result<MemFolder, AllocError>
    ensures { IfOk result (λ folder. folder
        ≡ record { files = game_files number; failing = []; calls = 0; faults = 0 }) }
{
    let game = generate(alloc, number)?;
    let pack = MemFile {
        name: Vec::from_slice(alloc, b"pak0.pak")?,
        bytes: game.pack,
    };
    let script = MemFile {
        name: Vec::from_slice(alloc, b"gen.cfg")?,
        bytes: game.script,
    };
    let mut files = Vec::new(alloc);
    files.push(pack)?;
    files.push(script)?;
    Ok(MemFolder::create(files, Vec::new(alloc)))
}
