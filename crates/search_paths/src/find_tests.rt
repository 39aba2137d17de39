// Tests of finding and reading.
use super::*;
use base_fields::game_name;
use outside_io::{Folder, MemFile, MemFolder};
use std::alloc::{AllocError, Global};
use std::test::Fail;

// The bytes of a pack whose directory has this size and these rows.
fn pack(alloc: Global, size: u32, rows: &[(&[u8], u32, u32)]) -> Result<Vec<u8>, AllocError> {
    let mut bytes = Vec::from_slice(alloc, b"PACK\x0c\0\0\0")?;
    bytes.extend_from_slice(&size.to_le_bytes())?;
    for (name, offset, length) in rows {
        let mut padded = [0; 56];
        let given = name.len().min(56);
        padded[..given].copy_from_slice(&name[..given]);
        bytes.extend_from_slice(&padded)?;
        bytes.extend_from_slice(&offset.to_le_bytes())?;
        bytes.extend_from_slice(&length.to_le_bytes())?;
    }
    Ok(bytes)
}

// A folder of these files, none of which is long, whose call of this number fails.
fn folder(alloc: Global, files: &[(&[u8], &[u8])], fails: u64) -> Result<MemFolder, AllocError> {
    let mut held = Vec::new(alloc);
    for (name, bytes) in files {
        if bytes.len() > 4096 {
            return Err(AllocError);
        }
        held.push(MemFile {
            name: Vec::from_slice(alloc, name)?,
            bytes: Vec::from_slice(alloc, bytes)?,
        })?;
    }
    Ok(MemFolder::create(held, Vec::from_slice(alloc, &[fails])?))
}

// Mounts two folders, the second in front of the first.
fn path_of(alloc: Global, first: MemFolder, second: MemFolder) -> Result<Paths<MemFolder>, Fail> {
    let mut paths = Paths::create(alloc)?;
    if let Err(error) = paths.mount(alloc, first) {
        return Err(Fail::from(error));
    }
    if let Err(error) = paths.mount(alloc, second) {
        return Err(Fail::from(error));
    }
    Ok(paths)
}

// What `find` answers for this word.
fn find(paths: &mut Paths<MemFolder>, word: &[u8]) -> Result<Option<FileRef>, FolderFault> {
    match game_name(word) {
        Ok(name) => paths.find(&name),
        Err(_) => Ok(None),
    }
}

// Up to 4 bytes from `at` on of the file of this name, where it is found and they lie in it and it in its pack.
fn part(
    paths: &mut Paths<MemFolder>,
    word: &[u8],
    at: u64,
    count: usize,
) -> Result<Option<[u8; 4]>, FolderFault> {
    let Ok(name) = game_name(word) else {
        return Ok(None);
    };
    let Some(file) = paths.find(&name)? else {
        return Ok(None);
    };
    let count = count.min(4);
    let mut into = [0; 4];
    if file.whole < file.offset + file.length
        || file.length < at
        || file.length - at < count as u64
    {
        return Ok(None);
    }
    paths.read(&file, &name, at, &mut into[..count])?;
    Ok(Some(into))
}

#[test]
fn the_first_mount_with_the_name_counts(rt: HostRuntime) -> Result<(), Fail> {
    let alloc = rt.alloc();
    let packed = pack(
        alloc,
        192,
        &[(b"p.txt", 0, 4), (b"x.txt", 70, 200), (b"p.txt", 1, 1)],
    )?;
    let first = folder(
        alloc,
        &[
            (b"c.txt", b"d"),
            (b"p.txt", b"dd"),
            (b"d.txt", b"ddd"),
            (b"pak0.pak", &packed),
        ],
        99,
    )?;
    let second = folder(alloc, &[(b"c.txt", b"ee")], 99)?;
    let mut paths = path_of(alloc, first, second)?;
    let at = |mount, offset, length, whole| {
        Ok(Some(FileRef {
            mount,
            offset,
            length,
            whole,
        }))
    };
    let cases: [(&[u8], Result<Option<FileRef>, FolderFault>); 6] = [
        (b"c.txt", at(0, 0, 2, 2)),
        (b"p.txt", at(1, 0, 4, 204)),
        (b"x.txt", at(1, 70, 200, 204)),
        (b"d.txt", at(2, 0, 3, 3)),
        (b"C.TXT", Ok(None)),
        (b"none", Ok(None)),
    ];
    for (word, want) in cases {
        assert_eq!(rt; find(&mut paths, word), want, "{word:?}");
    }
    let parts: [(&[u8], u64, usize, Option<[u8; 4]>); 5] = [
        (b"c.txt", 0, 2, Some(*b"ee\0\0")),
        (b"p.txt", 1, 3, Some(*b"ACK\0")),
        (b"d.txt", 2, 1, Some(*b"d\0\0\0")),
        (b"d.txt", 3, 0, Some(*b"\0\0\0\0")),
        (b"x.txt", 0, 1, None),
    ];
    for (word, at, count, want) in parts {
        assert_eq!(rt;
            part(&mut paths, word, at, count),
            Ok(want),
            "{word:?} at {at}"
        );
    }
    Ok(())
}

#[test]
fn a_fault_is_of_the_folder_that_failed(rt: HostRuntime) -> Result<(), Fail> {
    let alloc = rt.alloc();
    let first = folder(alloc, &[(b"a.txt", b"a")], 2)?;
    let second = folder(alloc, &[(b"b.txt", b"b")], 1)?;
    let mut paths = path_of(alloc, first, second)?;
    assert_eq!(rt; find(&mut paths, b"a.txt"), Err(FolderFault { folder: 1 }));
    let found = Ok(Some(FileRef {
        mount: 1,
        offset: 0,
        length: 1,
        whole: 1,
    }));
    assert_eq!(rt; find(&mut paths, b"a.txt"), found);
    assert_eq!(rt;
        part(&mut paths, b"a.txt", 0, 1),
        Err(FolderFault { folder: 0 })
    );
    assert_eq!(rt; part(&mut paths, b"a.txt", 0, 1), Ok(Some(*b"a\0\0\0")));
    Ok(())
}

#[test]
fn a_folder_that_failed_is_handed_back(rt: HostRuntime) -> Result<(), Fail> {
    let alloc = rt.alloc();
    let mut paths = Paths::create(alloc)?;
    let answer = paths.mount(alloc, folder(alloc, &[], 0)?);
    assert_eq!(rt; answer, Err(MountError::FolderFault { folder: 0 }));
    assert_eq!(rt; paths.row(0), None);
    if let Err(MountError::FolderFault { .. }) = answer {
        let folder = paths.take_folder(0);
        assert_eq!(rt; (folder.calls_seen(), folder.faults_seen()), (1, 1));
    }
    Ok(())
}
