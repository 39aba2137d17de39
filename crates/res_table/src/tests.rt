//! What no clause says: that sounds and models are loaded, and numbers from outside.

ghost use Rattle.std.specs.Prelude.{◌≤◌, ◌^◌};
ghost use Rattle.mem_model.specs.Laid.{IsMultiple};
ghost use Rattle.search_paths.specs.Path.{told_mounts};
ghost use Rattle.res_table.specs.Held.{AreHeld, AreThere};

use super::*;
use base_fields::game_name;
use bsp29_tables::BspFault;
use mem_model::{PlainStore, Store};
use outside_io::{Folder, MemFile, MemFolder};
use search_paths::{MountError, Paths};
use std::alloc::{AllocError, Global};
use std::test::Fail;
use wad2_lumps::WadFault;
use wav_load::WavFault;

const ZONE: u32 = 49_152;

const HEADER: &[u8] =
    b"RIFF\0\0\0\0WAVEfmt \x10\0\0\0\x01\0\x01\0\x11\x2b\0\0\x11\x2b\0\0\x01\0\x08\0data\xff\xff\xff\x7f";

// A pack of one entry, which ends past it.
fn pack(alloc: Global) -> Result<Vec<u8>, AllocError> {
    let mut bytes = Vec::from_slice(alloc, b"PACK\x0c\0\0\0\x40\0\0\0sound/past.wav")?;
    bytes.extend_from_slice(&[0; 42])?;
    bytes.extend_from_slice(b"\x46\0\0\0\x0a\0\0\0")?;
    Ok(bytes)
}

// A sprite of one picture of 3 x 2.
const SPRITE: &[u8] = b"IDSP\x01\0\0\0\x02\0\0\0\0\0\0\0\0\0\0\0\0\0\0\0\x01\0\0\0\0\0\0\0\0\0\0\0\
    \0\0\0\0\0\0\0\0\0\0\0\0\x03\0\0\0\x02\0\0\0pixels";

// An alias model of a skin of 4 x 1, a vertex, a triangle and a pose: 152 bytes, and 188 of its image.
fn alias(alloc: Global) -> Result<Vec<u8>, AllocError> {
    let mut bytes = Vec::from_slice(alloc, b"IDPO\x06\0\0\0")?;
    bytes.extend_from_slice(&[0; 40])?;
    bytes.extend_from_slice(b"\x01\0\0\0\x04\0\0\0\x01\0\0\0\x01\0\0\0\x01\0\0\0\x01\0\0\0")?;
    bytes.extend_from_slice(&[0; 80])?;
    Ok(bytes)
}

// A map of one model and nothing else: 188 bytes, and 196 of its image.
fn map(alloc: Global) -> Result<Vec<u8>, AllocError> {
    let mut bytes = Vec::from_slice(alloc, &[29])?;
    bytes.extend_from_slice(&[0; 115])?;
    bytes.extend_from_slice(b"\x7c\0\0\0\x40\0\0\0")?;
    bytes.extend_from_slice(&[0; 64])?;
    Ok(bytes)
}

// A model, where the name is that of one.
fn model(alloc: Global, name: &[u8]) -> Result<Option<Vec<u8>>, AllocError> {
    if name == b"g.mdl".as_slice() {
        return Ok(Some(alias(alloc)?));
    }
    if name == b"m.bsp".as_slice() {
        return Ok(Some(map(alloc)?));
    }
    let text: &[u8] = if name == b"p.spr".as_slice() {
        SPRITE
    } else if name == b"w.wad".as_slice() {
        b"WAD2\0\0\0\0\x0c\0\0\0"
    } else if name == b"v.wad".as_slice() {
        b"WAD2"
    } else if name == b"x.bsp".as_slice() {
        b"WAD"
    } else {
        return Ok(None);
    };
    Ok(Some(Vec::from_slice(alloc, text)?))
}

// That model, a file of so many samples of 8 bits, one that is no sound, or that pack.
fn file(alloc: Global, name: &[u8], samples: usize) -> Result<Vec<u8>, AllocError> {
    if name == b"sound/bad.wav".as_slice() {
        return Vec::from_slice(alloc, b"RIFX");
    }
    if name == b"pak0.pak".as_slice() {
        return pack(alloc);
    }
    if let Some(bytes) = model(alloc, name)? {
        return Ok(bytes);
    }
    let mut bytes = Vec::from_slice(alloc, HEADER)?;
    bytes.extend_from_slice(&vec![in alloc; 128; samples]?)?;
    Ok(bytes)
}

// A folder of six sounds, those two and six models, whose call of this number fails.
fn folder(alloc: Global, samples: usize, fails: u64) -> Result<MemFolder, AllocError> {
    let names: [&[u8]; 14] = [
        b"sound/s0.wav",
        b"sound/s1.wav",
        b"sound/s2.wav",
        b"sound/s3.wav",
        b"sound/s4.wav",
        b"sound/s5.wav",
        b"sound/bad.wav",
        b"pak0.pak",
        b"g.mdl",
        b"p.spr",
        b"w.wad",
        b"v.wad",
        b"m.bsp",
        b"x.bsp",
    ];
    let mut held = Vec::new(alloc);
    for name in names {
        let bytes = file(alloc, name, samples)?;
        if bytes.len() > 1 << 26 {
            return Err(AllocError);
        }
        held.push(MemFile {
            name: Vec::from_slice(alloc, name)?,
            bytes,
        })?;
    }
    Ok(MemFolder::create(held, Vec::from_slice(alloc, &[fails])?))
}

// The path of a folder.
fn path(
    alloc: Global,
    folder: MemFolder,
) -> Result<Result<Paths<MemFolder>, MountError>, AllocError> {
    let mut paths = Paths::create(alloc)?;
    match paths.mount(alloc, folder) {
        Ok(()) => Ok(Ok(paths)),
        Err(error) => Ok(Err(error)),
    }
}

// What is answered for this word of a table.
fn ask<M: Store, F: Folder>(
    table: &mut ResTable,
    store: &mut M,
    paths: &mut Paths<F>,
    of: Table,
    word: &[u8],
) -> Result<Res, AcquireError>
    requires { AreHeld (told_mounts F.files paths.old) table.old (M.state store.old) }
    ensures { AreHeld (told_mounts F.files paths.new) table.new (M.state store.new) }
{
    let Ok(name) = game_name(word) else {
        return Err(AcquireError::NotFound);
    };
    if !of.has_file(&name) {
        return Err(AcquireError::NotFound);
    }
    let _ = store.size();
    table.acquire(store, paths, of, &name)
}

// The number of the first of these words that is answered otherwise.
fn first_wrong<M: Store, F: Folder>(
    table: &mut ResTable,
    store: &mut M,
    paths: &mut Paths<F>,
    of: Table,
    cases: &[(&[u8], Result<Res, AcquireError>)],
) -> Option<usize>
    requires { AreHeld (told_mounts F.files paths.old) table.old (M.state store.old) }
{
    for number in 0..cases.len() {
        let (word, answer) = cases[number];
        if ask(table, store, paths, of, word) != answer {
            return Some(number);
        }
    }
    None
}

// The same in a new store of so many bytes, over that folder.
fn first_wrong_in(
    alloc: Global,
    size: u32,
    samples: usize,
    fails: u64,
    of: Table,
    cases: &[(&[u8], Result<Res, AcquireError>)],
) -> Result<Option<usize>, Fail>
    requires { (IsMultiple 16 size) × (size ≤ 2 ^ 26) }
{
    let mut store = PlainStore::create(alloc, size, ZONE, 768)?;
    let mut table = ResTable::create(alloc, 11_025)?;
    let mut paths = path(alloc, folder(alloc, samples, fails)?)??;
    Ok(first_wrong(&mut table, &mut store, &mut paths, of, cases))
}

fn at(place: u32, size: u32, loaded: bool) -> Result<Res, AcquireError> {
    there(Kind::Sound, place, size, loaded)
}

fn there(kind: Kind, place: u32, size: u32, loaded: bool) -> Result<Res, AcquireError> {
    Ok(Res {
        kind,
        size,
        place,
        loaded,
    })
}

#[test]
fn the_least_recently_used_leave(rt: HostRuntime) -> Result<(), Fail> {
    let alloc = rt.alloc();
    let cases: [(&[u8], Result<Res, AcquireError>); 8] = [
        (b"s0.wav", at(49_208, 150_020, true)),
        (b"s1.wav", at(199_272, 150_020, true)),
        (b"s2.wav", at(349_336, 150_020, true)),
        (b"s3.wav", at(499_400, 150_020, true)),
        (b"s4.wav", at(649_464, 150_020, true)),
        (b"s0.wav", at(49_208, 150_020, false)),
        (b"s5.wav", at(199_272, 150_020, true)),
        (b"s1.wav", at(349_336, 150_020, true)),
    ];
    assert_eq!(rt;
        first_wrong_in(alloc, 1_048_576, 150_000, 99, Table::Sounds, &cases)?,
        None
    );
    Ok(())
}

#[test]
fn each_refusal_is_told(rt: HostRuntime) -> Result<(), Fail> {
    let alloc = rt.alloc();
    let cases: [(&[u8], Result<Res, AcquireError>); 7] = [
        (b"none.wav", Err(AcquireError::NotFound)),
        (
            b"bad.wav",
            Err(AcquireError::Bad(Fault::Sound(WavFault::NotRiff))),
        ),
        (
            b"past.wav",
            Err(AcquireError::BeyondPack {
                end: 80,
                length: 76,
            }),
        ),
        (b"s0.wav", at(49_208, 64, true)),
        (b"s0.wav", at(49_208, 64, false)),
        (b"s0.wav", at(49_208, 64, false)),
        (b"s1.wav", Err(AcquireError::FolderFault { folder: 0 })),
    ];
    assert_eq!(rt;
        first_wrong_in(alloc, 49_456, 44, 10, Table::Sounds, &cases)?,
        None
    );
    Ok(())
}

#[test]
fn a_sound_needs_room_beside_its_file(rt: HostRuntime) -> Result<(), Fail> {
    let alloc = rt.alloc();
    let none = AcquireError::NoRoom {
        asked: 112,
        room: 96,
    };
    let cases: [(&[u8], Result<Res, AcquireError>); 2] = [
        (b"s0.wav", Err(none)),
        (b"s0.wav", Err(none)),
    ];
    assert_eq!(rt;
        first_wrong_in(alloc, 49_376, 44, 99, Table::Sounds, &cases)?,
        None
    );
    Ok(())
}

// The image of the alias is built in a low block of 208 bytes, its block in the cache stands behind that, and then the low
// block is free again. The low block of the map needs that place, so that the alias moves behind itself.
#[test]
fn a_model_goes_where_its_kind_belongs(rt: HostRuntime) -> Result<(), Fail> {
    let alloc = rt.alloc();
    let cases: [(&[u8], Result<Res, AcquireError>); 11] = [
        (b"g.mdl", there(Kind::Alias, 49_416, 188, true)),
        (b"p.spr", there(Kind::Sprite, 49_184, 78, true)),
        (b"w.wad", there(Kind::Wad, 49_280, 12, true)),
        (
            b"v.wad",
            Err(AcquireError::Bad(Fault::Wad(WadFault::NotWad))),
        ),
        (b"m.bsp", there(Kind::Brush, 49_312, 196, true)),
        (
            b"x.bsp",
            Err(AcquireError::Bad(Fault::Brush(BspFault::Short))),
        ),
        (b"none.mdl", Err(AcquireError::NotFound)),
        (b"g.mdl", there(Kind::Alias, 49_656, 188, false)),
        (b"p.spr", there(Kind::Sprite, 49_184, 78, false)),
        (b"w.wad", there(Kind::Wad, 49_280, 12, false)),
        (b"m.bsp", there(Kind::Brush, 49_312, 196, false)),
    ];
    assert_eq!(rt;
        first_wrong_in(alloc, 1_048_576, 0, 99, Table::Models, &cases)?,
        None
    );
    Ok(())
}

// Behind the file of the alias, 176 bytes, there are 432: enough for its low block, and not for that of the cache, too.
#[test]
fn a_low_block_is_freed_where_the_cache_has_no_room(rt: HostRuntime) -> Result<(), Fail> {
    let alloc = rt.alloc();
    let none = AcquireError::NoRoom {
        asked: 240,
        room: 224,
    };
    let cases: [(&[u8], Result<Res, AcquireError>); 3] = [
        (b"g.mdl", Err(none)),
        (b"g.mdl", Err(none)),
        (b"p.spr", there(Kind::Sprite, 49_184, 78, true)),
    ];
    assert_eq!(rt;
        first_wrong_in(alloc, 49_776, 0, 99, Table::Models, &cases)?,
        None
    );
    Ok(())
}

// The kind of the sound of this word, the length of its image and the first byte, as they are seen.
fn shown<M: Store>(table: &ResTable, store: &M, word: &[u8]) -> Option<(Kind, usize, Option<u8>)>
    requires { AreThere table.now (M.state store.now) }
{
    let Ok(name) = game_name(word) else {
        return None;
    };
    let _ = store.size();
    let (kind, image) = table.look(store, Table::Sounds, &name)?;
    Some((kind, image.len(), image.first().copied()))
}

// The number of the first of these words that are acquired behind which one of two sounds is seen otherwise.
fn first_unlike<M: Store, F: Folder>(
    table: &mut ResTable,
    store: &mut M,
    paths: &mut Paths<F>,
    cases: &[(&[u8], bool, bool)],
) -> Option<usize>
    requires { AreHeld (told_mounts F.files paths.old) table.old (M.state store.old) }
{
    let image = Some((Kind::Sound, 64, Some(44)));
    for number in 0..cases.len() {
        let (word, first, second) = cases[number];
        let _ = ask(table, store, paths, Table::Sounds, word);
        if shown(table, store, b"s0.wav") != image.filter(|_| first) {
            return Some(number);
        }
        if shown(table, store, b"s1.wav") != image.filter(|_| second) {
            return Some(number);
        }
    }
    None
}

#[test]
fn what_is_there_is_seen(rt: HostRuntime) -> Result<(), Fail> {
    let alloc = rt.alloc();
    let cases: [(&[u8], bool, bool); 4] = [
        (b"none.wav", false, false),
        (b"s0.wav", true, false),
        (b"s0.wav", true, false),
        (b"s1.wav", false, true),
    ];
    let mut store = PlainStore::create(alloc, 49_456, ZONE, 768)?;
    let mut table = ResTable::create(alloc, 11_025)?;
    let mut paths = path(alloc, folder(alloc, 44, 99)?)??;
    assert_eq!(rt;
        first_unlike(&mut table, &mut store, &mut paths, &cases),
        None
    );
    Ok(())
}

// Acquires a sprite and then a wad, and after the low hunk was freed to where the sprite ends, both again.
fn freed_between<M: Store, F: Folder>(
    table: &mut ResTable,
    store: &mut M,
    paths: &mut Paths<F>,
) -> [Result<Res, AcquireError>; 4]
    requires { AreHeld (told_mounts F.files paths.old) table.old (M.state store.old) }
{
    let sprite = ask(table, store, paths, Table::Models, b"p.spr");
    let level = store.low_mark();
    let wad = ask(table, store, paths, Table::Models, b"w.wad");
    let _ = store.size();
    let _ = store.low_free(level);
    table.forget_low(level);
    [
        sprite,
        wad,
        ask(table, store, paths, Table::Models, b"p.spr"),
        ask(table, store, paths, Table::Models, b"w.wad"),
    ]
}

#[test]
fn what_lay_above_a_level_is_loaded_again(rt: HostRuntime) -> Result<(), Fail> {
    let alloc = rt.alloc();
    let mut store = PlainStore::create(alloc, 1_048_576, ZONE, 768)?;
    let mut table = ResTable::create(alloc, 11_025)?;
    let mut paths = path(alloc, folder(alloc, 0, 99)?)??;
    let answers = [
        there(Kind::Sprite, 49_184, 78, true),
        there(Kind::Wad, 49_280, 12, true),
        there(Kind::Sprite, 49_184, 78, false),
        there(Kind::Wad, 49_280, 12, true),
    ];
    assert_eq!(rt; freed_between(&mut table, &mut store, &mut paths), answers);
    Ok(())
}

// A word for each number up to 999.
fn numbered(number: usize) -> [u8; 8] {
    let digit = |unit: usize| b'0' + (number / unit % 10) as u8;
    [
        b's',
        digit(100),
        digit(10),
        digit(1),
        b'.',
        b'w',
        b'a',
        b'v',
    ]
}

// A folder of 513 sounds, or of as many sprites.
fn many(alloc: Global, of: Table) -> Result<MemFolder, AllocError> {
    let (front, file): (&[u8], &[u8]) = match of {
        Table::Models => (b"", SPRITE),
        Table::Sounds => (
            b"sound/",
            b"RIFF\0\0\0\0WAVEfmt \x10\0\0\0\x01\0\x01\0\x11\x2b\0\0\x11\x2b\0\0\x01\0\x08\0data\0\0\0\0",
        ),
    };
    let mut held = Vec::new(alloc);
    for number in 0..513 {
        let mut name = Vec::from_slice(alloc, front)?;
        name.extend_from_slice(&numbered(number))?;
        let bytes = Vec::from_slice(alloc, file)?;
        held.push(MemFile { name, bytes })?;
    }
    Ok(MemFolder::create(held, Vec::from_slice(alloc, &[9_999])?))
}

// The first of them that is refused, and why.
fn first_refused<M: Store, F: Folder>(
    table: &mut ResTable,
    store: &mut M,
    paths: &mut Paths<F>,
    of: Table,
) -> Option<(usize, AcquireError)>
    requires { AreHeld (told_mounts F.files paths.old) table.old (M.state store.old) }
{
    for number in 0..513 {
        if let Err(error) = ask(table, store, paths, of, &numbered(number)) {
            return Some((number, error));
        }
    }
    None
}

#[test]
fn a_table_has_its_names(rt: HostRuntime) -> Result<(), Fail> {
    let alloc = rt.alloc();
    for (of, most) in [(Table::Models, 256), (Table::Sounds, 512)] {
        let mut store = PlainStore::create(alloc, 131_072, ZONE, 768)?;
        let mut table = ResTable::create(alloc, 11_025)?;
        let mut paths = path(alloc, many(alloc, of)?)??;
        assert_eq!(rt;
            first_refused(&mut table, &mut store, &mut paths, of),
            Some((most, AcquireError::TableFull))
        );
    }
    Ok(())
}
