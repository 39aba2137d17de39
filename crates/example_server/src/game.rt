// The game: a folder in memory with a configuration and a pack.
ghost use Rattle.std.specs.Prelude.{◌≡◌, IfOk, length};
ghost use Rattle.example_server.specs.Boots.{game_files};

use outside_io::{MemFile, MemFolder};
use std::alloc::{AllocError, Global};

const CONFIG: &[u8] = b"echo hello\nexec maps/e1m1.cfg\n";

// A pack of one file of 11 bytes: its header, the file, and the directory with the file's name, offset and length.
const PACK: &[u8] = b"PACK\x17\0\0\0\x40\0\0\0\
    echo a map\n\
    maps/e1m1.cfg\0\0\0\0\0\0\0\0\0\0\0\0\0\0\0\0\0\0\0\0\0\0\0\0\0\0\0\0\0\0\0\0\0\0\0\0\0\0\0\0\0\0\0\
    \x0c\0\0\0\x0b\0\0\0";

fn file(alloc: Global, name: &[u8], bytes: &[u8]) -> Result<MemFile, AllocError>
    ensures name { IfOk result (λ file. file.name.items ≡ name.now) }
    ensures bytes { IfOk result (λ file. file.bytes.items ≡ bytes.now) }
{
    Ok(MemFile {
        name: Vec::from_slice(alloc, name)?,
        bytes: Vec::from_slice(alloc, bytes)?,
    })
}

pub fn game_folder(alloc: Global) -> Result<MemFolder, AllocError>
    ensures { IfOk result (λ folder. folder.files ≡ game_files) }
{
    let mut files = Vec::new(alloc);
    files.push(file(alloc, b"autoexec.cfg", CONFIG)?)?;
    files.push(file(alloc, b"pak0.pak", PACK)?)?;
    Ok(MemFolder::create(files, Vec::new(alloc)))
}
