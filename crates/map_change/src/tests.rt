//! What no clause says: that maps are changed over a store of vectors.

ghost use Rattle.mem_model.specs.Laid.{Laid};
ghost use Rattle.search_paths.specs.Path.{told_mounts};
ghost use Rattle.res_table.specs.Held.{AreHeld};
ghost use Rattle.map_change.specs.Marks.{IsLowMark};

use super::*;
use base_fields::game_name;
use mem_model::{Place, PlainStore, RoomError, Store};
use outside_io::{Folder, MemFile, MemFolder};
use res_table::{AcquireError, Res, ResTable, Table};
use search_paths::{MountError, Paths};
use std::alloc::{AllocError, Global};
use std::test::Fail;

const ZONE: u32 = 49_152;

// A sprite of one picture of 3 x 2, whose block takes 96 bytes.
const SPRITE: &[u8] = b"IDSP\x01\0\0\0\x02\0\0\0\0\0\0\0\0\0\0\0\0\0\0\0\x01\0\0\0\0\0\0\0\0\0\0\0\
    \0\0\0\0\0\0\0\0\0\0\0\0\x03\0\0\0\x02\0\0\0pixels";

// A wad without a lump, whose block takes 32 bytes.
const WAD: &[u8] = b"WAD2\0\0\0\0\x0c\0\0\0";

// The path of a folder with both, none of whose calls fails.
fn path(alloc: Global) -> Result<Result<Paths<MemFolder>, MountError>, AllocError> {
    let files: [(&[u8], &[u8]); 2] = [(b"p.spr", SPRITE), (b"w.wad", WAD)];
    let mut held = Vec::new(alloc);
    for (name, bytes) in files {
        if bytes.len() > 1 << 26 {
            return Err(AllocError);
        }
        held.push(MemFile {
            name: Vec::from_slice(alloc, name)?,
            bytes: Vec::from_slice(alloc, bytes)?,
        })?;
    }
    let folder = MemFolder::create(held, Vec::from_slice(alloc, &[99])?);
    let mut paths = Paths::create(alloc)?;
    match paths.mount(alloc, folder) {
        Ok(()) => Ok(Ok(paths)),
        Err(error) => Ok(Err(error)),
    }
}

// What is done over a level.
#[derive(Clone, Copy)]
enum Step {
    // A model is acquired.
    Model(&'static [u8]),
    // A low block of 100 bytes is asked for.
    Reserve,
    // The map is changed to this model.
    Change(&'static [u8]),
}

// The place of a resource, and whether it was loaded now.
fn told(answer: Result<Res, AcquireError>) -> Option<(u32, bool)> {
    let res = answer.ok()?;
    Some((res.place, res.loaded))
}

// The place of a new block.
fn told_block(answer: Result<Place, RoomError>) -> Option<(u32, bool)> {
    let place = answer.ok()?;
    Some((place.0, true))
}

// The place that a step answers, and whether something was made there.
fn answer<M: Store, F: Folder>(
    store: &mut M,
    table: &mut ResTable,
    paths: &mut Paths<F>,
    level: u32,
    step: Step,
) -> Option<(u32, bool)>
    requires laid { Laid (M.state store.old) }
    requires held { AreHeld (told_mounts F.files paths.old) table.old (M.state store.old) }
    requires level { IsLowMark (M.state store.old).low level }
    ensures laid { Laid (M.state store.new) }
    ensures held { AreHeld (told_mounts F.files paths.new) table.new (M.state store.new) }
    ensures level { IsLowMark (M.state store.new).low level }
{
    match step {
        Step::Model(word) => {
            let name = game_name(word).ok()?;
            told(table.acquire(store, paths, Table::Models, &name))
        }
        Step::Reserve => told_block(store.low_alloc(100, b"x")),
        Step::Change(word) => {
            let name = game_name(word).ok()?;
            told(change_map(store, table, paths, level, &name))
        }
    }
}

// The number of the first of these steps that is answered otherwise.
fn first_wrong<M: Store, F: Folder>(
    store: &mut M,
    table: &mut ResTable,
    paths: &mut Paths<F>,
    level: u32,
    cases: &[(Step, Option<(u32, bool)>)],
) -> Option<usize>
    requires laid { Laid (M.state store.old) }
    requires held { AreHeld (told_mounts F.files paths.old) table.old (M.state store.old) }
    requires level { IsLowMark (M.state store.old).low level }
    ensures laid { Laid (M.state store.new) }
    ensures held { AreHeld (told_mounts F.files paths.new) table.new (M.state store.new) }
{
    for number in 0..cases.len() {
        let (step, told) = cases[number];
        if answer(store, table, paths, level, step) != told {
            return Some(number);
        }
    }
    None
}

// A sprite lies below the level. What is reserved and what is loaded behind the level goes at each change, also at one that is
// refused.
#[test]
fn what_lies_behind_the_level_goes(rt: HostRuntime) -> Result<(), Fail> {
    let alloc = rt.alloc();
    let mut store = PlainStore::create(alloc, 1_048_576, ZONE, 768)?;
    let mut table = ResTable::create(alloc, 11_025)?;
    let mut paths = path(alloc)??;
    let sprite = [(Step::Model(b"p.spr"), Some((49_184, true)))];
    let steps = [
        (Step::Reserve, Some((49_280, true))),
        (Step::Change(b"p.spr"), Some((49_184, false))),
        (Step::Reserve, Some((49_280, true))),
        (Step::Change(b"w.wad"), Some((49_280, true))),
        (Step::Change(b"w.wad"), Some((49_280, true))),
        (Step::Change(b"none.bsp"), None),
        (Step::Model(b"p.spr"), Some((49_184, false))),
        (Step::Model(b"w.wad"), Some((49_280, true))),
        (Step::Model(b"w.wad"), Some((49_280, false))),
        (Step::Change(b"p.spr"), Some((49_184, false))),
    ];
    let start = set_level(&store);
    assert_eq!(rt;
        first_wrong(&mut store, &mut table, &mut paths, start, &sprite),
        None
    );
    let level = set_level(&store);
    assert_eq!(rt; level, 49_264);
    assert_eq!(rt;
        first_wrong(&mut store, &mut table, &mut paths, level, &steps),
        None
    );
    Ok(())
}
