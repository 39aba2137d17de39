use super::*;
use outside_io::{Folder, MemFile, MemFolder};
use std::alloc::{AllocError, Global};
use std::test::Fail;

const NAME: &[u8] = b"pak0.pak";

// The pack of this header and these rows.
fn pack(
    alloc: Global,
    at: u32,
    size: u32,
    rows: &[(&[u8], u32, u32)],
) -> Result<Vec<u8>, AllocError> {
    let mut bytes = Vec::from_slice(alloc, b"PACK")?;
    bytes.extend_from_slice(&at.to_le_bytes())?;
    bytes.extend_from_slice(&size.to_le_bytes())?;
    for (name, offset, length) in rows {
        let mut padded = [0; 56];
        let given = name.len().min(56);
        padded[..given].copy_from_slice(&name[..given]);
        bytes.extend_from_slice(&padded)?;
        bytes.extend_from_slice(&offset.to_le_bytes())?;
        bytes.extend_from_slice(&length.to_le_bytes())?;
    }
    Ok(bytes)
}

// Reads the pack of these bytes from a folder whose call of this number fails. Call 0 asks for the length.
fn read(alloc: Global, bytes: &[u8], fails: u64) -> Result<Result<Pack, PackError>, AllocError> {
    if bytes.len() > 4096 {
        return Err(AllocError);
    }
    let mut files = Vec::new(alloc);
    files.push(MemFile {
        name: Vec::from_slice(alloc, NAME)?,
        bytes: Vec::from_slice(alloc, bytes)?,
    })?;
    let mut folder = MemFolder::create(files, Vec::from_slice(alloc, &[fails])?);
    match folder.len_of(NAME) {
        Ok(Some(length)) => Ok(read_pack(alloc, &mut folder, NAME, length)),
        _ => Ok(Err(PackError::FolderFault)),
    }
}

#[test]
fn faults_come_in_their_order(rt: HostRuntime) -> Result<(), Fail> {
    let alloc = rt.alloc();
    let row: &[(&[u8], u32, u32)] = &[(b"x.txt", 70, 10)];
    let not_pack = Err(PackError::Bad(PackFault::NotPack));
    let outside = Err(PackError::Bad(PackFault::DirOutside));
    let cases: [(u32, u32, &[(&[u8], u32, u32)], Result<u32, PackError>); 9] = [
        (12, 0, &[], Ok(0)),
        (12, 63, &[], Ok(0)),
        (13, 0, &[], outside),
        (12, 64, row, Ok(1)),
        (13, 64, row, outside),
        (12, 128, row, outside),
        (u32::MAX, 64, row, outside),
        (12, 131135, &[], outside),
        (
            12,
            131136,
            &[],
            Err(PackError::Bad(PackFault::TooMany { count: 2049 })),
        ),
    ];
    for (at, size, rows, want) in cases {
        let bytes = pack(alloc, at, size, rows)?;
        let got = read(alloc, &bytes, 9)?.map(|pack| pack.count());
        assert_eq!(rt; got, want, "{size} at {at}");
    }
    let files: [&[u8]; 4] = [
        b"",
        b"PACK",
        b"PACK\x0c\0\0\0\0\0\0",
        b"PACk\x0c\0\0\0\0\0\0\0",
    ];
    for bytes in files {
        let got = read(alloc, bytes, 9)?.map(|pack| pack.count());
        assert_eq!(rt; got, not_pack, "{bytes:?}");
    }
    Ok(())
}

#[test]
fn the_first_entry_of_a_name_counts(rt: HostRuntime) -> Result<(), Fail> {
    let alloc = rt.alloc();
    let bytes = pack(
        alloc,
        12,
        256,
        &[
            (b"c.txt\0old", 2, 3),
            (b"", 4, 5),
            (b"c.txt", 6, 7),
            (&[b'n'; 56], 8, 9),
        ],
    )?;
    match read(alloc, &bytes, 9)? {
        Ok(pack) => {
            let entry = |offset, length| Some(Entry { offset, length });
            assert_eq!(rt; pack.count(), 4);
            assert_eq!(rt; pack.whole(), 268);
            assert_eq!(rt; pack.entry(b"c.txt"), entry(2, 3));
            assert_eq!(rt; pack.entry(b""), entry(4, 5));
            assert_eq!(rt; pack.entry(&[b'n'; 56]), entry(8, 9));
            assert_eq!(rt; pack.entry(&[b'n'; 57]), None);
            assert_eq!(rt; pack.entry(b"c.txt\0old"), None);
            assert_eq!(rt; pack.entry(b"C.TXT"), None);
        }
        Err(error) => assert!(rt; false, "{error}"),
    }
    Ok(())
}

#[test]
fn a_failed_read_is_a_fault_of_the_folder(rt: HostRuntime) -> Result<(), Fail> {
    let alloc = rt.alloc();
    let bytes = pack(alloc, 12, 64, &[(b"x.txt", 70, 10)])?;
    for fails in 0..3 {
        let got = read(alloc, &bytes, fails)?.map(|pack| pack.count());
        assert_eq!(rt; got, Err(PackError::FolderFault), "{fails}");
    }
    assert_eq!(rt; read(alloc, &bytes, 3)?.map(|pack| pack.count()), Ok(1));
    Ok(())
}
