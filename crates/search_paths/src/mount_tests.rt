// Tests of mounting.
ghost use Rattle.std.specs.Prelude.{◌<◌, ◌^◌, vec_len, IfOk};

use super::*;
use outside_io::{Folder, MemFile, MemFolder};
use pack_files::PackFault;
use std::alloc::{AllocError, Global};
use std::test::Fail;

// The count of entries of a pack that ends within its header.
const CUT: u8 = 99;

// A pack of this number with so many entries, which have no names.
fn pack(alloc: Global, number: u8, count: u8) -> Result<MemFile, AllocError>
    ensures { IfOk result (λ file. vec_len file.bytes < 2 ^ 62) }
{
    let size = 64 * u32::from(count);
    let mut bytes = Vec::from_slice(alloc, b"PACK\x0c\0\0\0")?;
    if count < CUT {
        bytes.extend_from_slice(&size.to_le_bytes())?;
        bytes.extend_from_slice(&vec![in alloc; 0u8; size as usize]?)?;
    }
    Ok(MemFile {
        name: format!(in alloc; "pak{number}.pak")?.into_bytes(),
        bytes,
    })
}

// A folder of packs by their numbers and counts, whose call of this number fails.
fn folder(alloc: Global, packs: &[(u8, u8)], fails: u64) -> Result<MemFolder, AllocError> {
    let mut files = Vec::new(alloc);
    for (number, count) in packs {
        files.push(pack(alloc, *number, *count)?)?;
    }
    Ok(MemFolder::create(files, Vec::from_slice(alloc, &[fails])?))
}

const fn plain(folder: u32) -> Option<MountRow> {
    Some(MountRow::Folder { folder })
}

const fn packed(folder: u32, pack: u32, count: u32) -> Option<MountRow> {
    Some(MountRow::Pack {
        folder,
        pack,
        count,
    })
}

// What came of mounting a folder: the answer, the rows then, and how many calls of the folder had failed.
#[derive(Drop)]
struct Mounting {
    answer: Result<(), MountError>,
    rows: [Option<MountRow>; 6],
    faults: u64,
}

// Mounts this folder after one with two packs.
fn mount_second(alloc: Global, second: MemFolder) -> Result<Mounting, Fail> {
    let mut paths = Paths::create(alloc)?;
    let first = folder(alloc, &[(1, 1), (0, 2)], 9)?;
    if let Err(error) = paths.mount(alloc, first) {
        return Err(Fail::from(error));
    }
    let answer = paths.mount(alloc, second);
    if let Err(MountError::OutOfMemory) = answer {
        return Err(Fail::from(AllocError));
    }
    let rows = [
        paths.row(0),
        paths.row(1),
        paths.row(2),
        paths.row(3),
        paths.row(4),
        paths.row(5),
    ];
    let faults = paths.take_folder(1).faults_seen();
    Ok(Mounting {
        answer,
        rows,
        faults,
    })
}

#[test]
fn the_packs_of_a_folder_stand_in_front_of_it(rt: HostRuntime) -> Result<(), Fail> {
    let alloc = rt.alloc();
    let [one, two, three] = [packed(0, 1, 1), packed(0, 0, 2), plain(0)];
    let none = [plain(1), one, two, three, None, None];
    let bad = Err(MountError::BadPack {
        folder: 1,
        pack: 1,
        fault: PackFault::NotPack,
    });
    let cases: [(&[(u8, u8)], Result<(), MountError>, [Option<MountRow>; 6]); 6] = [
        (&[], Ok(()), none),
        (&[(1, 3)], Ok(()), none),
        (
            &[(0, 0)],
            Ok(()),
            [packed(1, 0, 0), plain(1), one, two, three, None],
        ),
        (
            &[(0, 3), (1, 4)],
            Ok(()),
            [packed(1, 1, 4), packed(1, 0, 3), plain(1), one, two, three],
        ),
        (
            &[(0, 3), (2, CUT), (0, CUT)],
            Ok(()),
            [packed(1, 0, 3), plain(1), one, two, three, None],
        ),
        (
            &[(0, 3), (1, CUT), (2, CUT)],
            bad,
            [one, two, three, None, None, None],
        ),
    ];
    for (packs, answer, rows) in cases {
        let mounted = mount_second(alloc, folder(alloc, packs, 9)?)?;
        assert_eq!(rt; mounted.answer, answer, "{packs:?}");
        assert_eq!(rt; mounted.rows, rows, "{packs:?}");
        assert_eq!(rt; mounted.faults, 0, "{packs:?}");
    }
    Ok(())
}

#[test]
fn a_fault_leaves_the_path(rt: HostRuntime) -> Result<(), Fail> {
    let alloc = rt.alloc();
    let [one, two, three] = [packed(0, 1, 1), packed(0, 0, 2), plain(0)];
    let fault = Err(MountError::FolderFault { folder: 1 });
    let rows = [one, two, three, None, None, None];
    for fails in 0..7 {
        let mounted = mount_second(alloc, folder(alloc, &[(0, 3), (1, 4)], fails)?)?;
        assert_eq!(rt; mounted.answer, fault, "{fails}");
        assert_eq!(rt; mounted.rows, rows, "{fails}");
        assert_eq!(rt; mounted.faults, 1, "{fails}");
    }
    Ok(())
}

#[test]
fn no_more_than_32_packs_are_mounted(rt: HostRuntime) -> Result<(), Fail> {
    let alloc = rt.alloc();
    let mut packs = [(0, 0); 33];
    for number in 0..33 {
        packs[usize::from(number)].0 = number;
    }
    let mut paths = Paths::create(alloc)?;
    if let Err(error) = paths.mount(alloc, folder(alloc, &packs, 999)?) {
        return Err(Fail::from(error));
    }
    for number in 0..32 {
        assert_eq!(rt; paths.row(number), packed(0, 31 - number, 0), "{number}");
    }
    assert_eq!(rt; paths.row(32), plain(0));
    assert_eq!(rt; paths.row(33), None);
    Ok(())
}
