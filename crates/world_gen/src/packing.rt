// The pack of a game.
ghost use Rattle.std.specs.Prelude.{◌≡◌, ◌++◌, ◌+◌, ◌^◌, ◌<◌, OnOk, IfOk, length};
ghost use Rattle.world_gen.specs.Packs.{behind_files, files_from, pack, pack_header, row};
ghost use Rattle.world_gen.specs.Resources.{file_name};

use crate::draws::Draws;
use crate::numbers::append_word;
use crate::resources::{RESOURCES, Resource};
use std::alloc::{AllocError, Global};

// How long the header is, and so where the first file stands.
const HEADER_BYTES: u32 = 12;

// How many bytes of a row of the directory are for the name.
const NAME_BYTES: usize = 56;

/// The pack of all files, from the draws at hand.
#[tactic(auto, using(crate::proofs::PackLaws::pack_laws))]
pub fn pack(alloc: Global, draws: &mut Draws) -> Result<Vec<u8>, AllocError>
    ensures bytes { IfOk result (λ bytes. bytes.items ≡ pack (files_from 34 0 draws.old.state)) }
    ensures state { OnOk result (draws.new.state ≡ behind_files 34 0 draws.old.state) }
{
    let mut contents = Vec::new(alloc);
    let mut directory = Vec::new(alloc);
    for number in 0..RESOURCES {
        let resource = Resource::numbered(number);
        let before = contents.len();
        resource.append_file(&mut contents, draws)?;
        append_row(
            &mut directory,
            resource,
            HEADER_BYTES + before as u32,
            (contents.len() - before) as u32,
        )?;
    }
    joined(alloc, &contents, &directory)
}

// The header of a pack, and its two parts.
fn joined(alloc: Global, contents: &[u8], directory: &[u8]) -> Result<Vec<u8>, AllocError>
    requires contents { length contents.now < 2 ^ 31 }
    requires directory { length directory.now < 2 ^ 31 }
    ensures { IfOk result (λ bytes. bytes.items
        ≡ pack_header (12 + length contents.now) (length directory.now) ++ contents.now ++ directory.now) }
{
    let mut pack = Vec::with_capacity(
        alloc,
        HEADER_BYTES as usize + contents.len() + directory.len(),
    )?;
    append_header(
        &mut pack,
        HEADER_BYTES + contents.len() as u32,
        directory.len() as u32,
    )?;
    pack.extend_from_slice(contents)?;
    pack.extend_from_slice(directory)?;
    Ok(pack)
}

#[tactic(auto, unfolding(crate::specs::Packs::pack_header))]
fn append_header(pack: &mut Vec<u8>, at: u32, size: u32) -> Result<(), AllocError>
    ensures { OnOk result (pack.new.items ≡ pack.old.items ++ pack_header at size) }
{
    pack.extend_from_slice(b"PACK")?;
    append_word(pack, at)?;
    append_word(pack, size)?;
    Ok(())
}

#[tactic(auto, unfolding(crate::specs::Packs::row))]
fn append_row(
    directory: &mut Vec<u8>,
    resource: Resource,
    at: u32,
    size: u32,
) -> Result<(), AllocError>
    ensures { OnOk result (directory.new.items ≡ directory.old.items ++ row (file_name resource) at size) }
{
    let start = directory.len();
    resource.append_name(directory)?;
    directory.resize(start + NAME_BYTES, 0)?;
    append_word(directory, at)?;
    append_word(directory, size)?;
    Ok(())
}
