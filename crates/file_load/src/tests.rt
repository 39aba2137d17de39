//! What no clause says: that loads succeed, and numbers from outside.

use super::*;
use base_fields::game_name;
use mem_model::{Place, PlainStore, Store};
use outside_io::{MemFile, MemFolder};
use search_paths::{MountError, Paths};
use std::alloc::{AllocError, Global};
use std::test::Fail;

const ZONE: u32 = 49_152;

// A pack of these rows: names, places and lengths.
fn pack(alloc: Global, rows: &[(&[u8], u32, u32)]) -> Result<Vec<u8>, AllocError> {
    let mut bytes = Vec::from_slice(alloc, b"PACK\x0c\0\0\0")?;
    bytes.extend_from_slice(&[64 * rows.len().min(2) as u8, 0, 0, 0])?;
    for (name, offset, length) in rows {
        let mut padded = [0; 56];
        let given = name.len().min(56);
        padded[..given].copy_from_slice(&name[..given]);
        bytes.extend_from_slice(&padded)?;
        bytes.extend_from_slice(&offset.to_le_bytes())?;
        bytes.extend_from_slice(&length.to_le_bytes())?;
    }
    Ok(bytes)
}

// A folder of three files and two packs, whose call of this number fails. An entry of the first pack ends past it, and one
// of the second ends where the pack does.
fn folder(alloc: Global, fails: u64) -> Result<MemFolder, AllocError> {
    let past = pack(alloc, &[(b"x.txt", 70, 10)])?;
    let last = pack(alloc, &[(b"c.txt", 0, 4), (b"sub/end.v1.txt", 134, 6)])?;
    let files: [(&[u8], &[u8]); 5] = [
        (b"a.txt", b"hello"),
        (b"empty", b""),
        (b"big", &[7; 48]),
        (b"pak0.pak", &past),
        (b"pak1.pak", &last),
    ];
    let mut held = Vec::new(alloc);
    for (name, bytes) in files {
        if bytes.len() > 4096 {
            return Err(AllocError);
        }
        held.push(MemFile {
            name: Vec::from_slice(alloc, name)?,
            bytes: Vec::from_slice(alloc, bytes)?,
        })?;
    }
    Ok(MemFolder::create(held, Vec::from_slice(alloc, &[fails])?))
}

// The path of that folder.
fn path(alloc: Global, fails: u64) -> Result<Result<Paths<MemFolder>, MountError>, AllocError> {
    let mut paths = Paths::create(alloc)?;
    match paths.mount(alloc, folder(alloc, fails)?) {
        Ok(()) => Ok(Ok(paths)),
        Err(error) => Ok(Err(error)),
    }
}

// The front of a block's bytes.
fn front(bytes: &[u8]) -> [u8; 8] {
    let mut shown = [0xff; 8];
    let count = bytes.len().min(8);
    shown[..count].copy_from_slice(&bytes[..count]);
    shown
}

// The place and the length that the load of this word answers, and the front of its block.
fn low(
    store: &mut PlainStore,
    paths: &mut Paths<MemFolder>,
    word: &[u8],
) -> Result<(Place, u64, [u8; 8]), LoadError> {
    let Ok(name) = game_name(word) else {
        return Err(LoadError::NotFound);
    };
    let (place, length) = load_low(store, paths, &name)?;
    Ok((place, length, front(store.low_bytes(place))))
}

#[test]
fn files_are_loaded_into_low_blocks(rt: HostRuntime) -> Result<(), Fail> {
    let alloc = rt.alloc();
    let mut store = PlainStore::create(alloc, ZONE + 16 + 128, ZONE, 8)?;
    let mut paths = path(alloc, 99)??;
    let cases: [(&[u8], Result<(Place, u64, [u8; 8]), LoadError>, u32); 8] = [
        (b"a.txt", Ok((Place(49_184), 5, *b"hello\0\0\0")), 49_200),
        (b"c.txt", Ok((Place(49_216), 4, *b"PACK\0\0\0\0")), 49_232),
        (
            b"x.txt",
            Err(LoadError::BeyondPack {
                end: 80,
                length: 76,
            }),
            49_232,
        ),
        (b"none", Err(LoadError::NotFound), 49_232),
        (b"A.txt", Err(LoadError::NotFound), 49_232),
        (
            b"sub/end.v1.txt",
            Ok((Place(49_248), 6, *b"\0\0\x06\0\0\0\0\0")),
            49_264,
        ),
        (
            b"big",
            Err(LoadError::NoRoom {
                asked: 80,
                room: 32,
            }),
            49_264,
        ),
        (b"empty", Ok((Place(49_280), 0, [0; 8])), 49_296),
    ];
    for (word, answer, mark) in cases {
        assert_eq!(rt; low(&mut store, &mut paths, word), answer, "{word:?}");
        assert_eq!(rt; store.low_mark(), mark, "{word:?}");
    }
    let name = store.low_row(3).map(|row| row.name);
    assert_eq!(rt; name, Some(*b"end\0\0\0\0\0\0\0\0\0\0\0\0\0"));
    Ok(())
}

// What the load of this word answers, and the front of the temporary block then.
fn temp(
    store: &mut PlainStore,
    paths: &mut Paths<MemFolder>,
    word: &[u8],
) -> (Result<u64, LoadError>, Option<[u8; 8]>) {
    let answer = match game_name(word) {
        Ok(name) => load_temp(store, paths, &name),
        Err(_) => Err(LoadError::NotFound),
    };
    (answer, store.temp_bytes().map(front))
}

#[test]
fn files_are_loaded_into_the_temporary_block(rt: HostRuntime) -> Result<(), Fail> {
    let alloc = rt.alloc();
    let mut store = PlainStore::create(alloc, ZONE + 16 + 64, ZONE, 8)?;
    let mut paths = path(alloc, 99)??;
    let hello = Some(*b"hello\0\0\0");
    let cases: [(&[u8], Result<u64, LoadError>, Option<[u8; 8]>); 6] = [
        (b"a.txt", Ok(5), hello),
        (b"none", Err(LoadError::NotFound), hello),
        (
            b"x.txt",
            Err(LoadError::BeyondPack {
                end: 80,
                length: 76,
            }),
            hello,
        ),
        (b"c.txt", Ok(4), Some(*b"PACK\0\0\0\0")),
        (
            b"big",
            Err(LoadError::NoRoom {
                asked: 80,
                room: 64,
            }),
            None,
        ),
        (b"empty", Ok(0), Some([0; 8])),
    ];
    for (word, answer, bytes) in cases {
        assert_eq!(rt;
            temp(&mut store, &mut paths, word),
            (answer, bytes),
            "{word:?}"
        );
    }
    Ok(())
}

// How a load ends whose folder's call of this number fails, and where the low hunk ends then: `m` at the mounting, `f` at
// the search, `r` at the reading, `o` not at all.
fn end_of(alloc: Global, fails: u64) -> Result<(u8, u32), Fail> {
    let mut store = PlainStore::create(alloc, ZONE + 16 + 64, ZONE, 8)?;
    let end = match path(alloc, fails)? {
        Ok(mut paths) => match low(&mut store, &mut paths, b"a.txt") {
            Ok(_) => b'o',
            Err(
                LoadError::FolderFault {
                    folder: 0,
                    stage: Stage::Find,
                },
            ) => b'f',
            Err(
                LoadError::FolderFault {
                    folder: 0,
                    stage: Stage::Read,
                },
            ) => b'r',
            Err(_) => b'?',
        },
        Err(_) => b'm',
    };
    Ok((end, store.low_mark()))
}

#[test]
fn a_fault_of_the_folder_has_its_stage(rt: HostRuntime) -> Result<(), Fail> {
    let alloc = rt.alloc();
    let mut seen = Vec::new(alloc);
    for fails in 0..16 {
        let end = end_of(alloc, fails)?;
        if seen.last() != Some(&end) {
            seen.push(end)?;
        }
    }
    let want = [
        (b'm', 49_168),
        (b'f', 49_168),
        (b'r', 49_200),
        (b'o', 49_200),
    ];
    assert_eq!(rt; seen.as_slice(), want.as_slice());
    Ok(())
}
