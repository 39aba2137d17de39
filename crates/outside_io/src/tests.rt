ghost use Rattle.std.specs.Prelude.{◌≡◌, IfOk};

use crate::{Folder, FolderFailed, MemFile, MemFolder, MemSink, MemSource, Sink, Source};
use std::alloc::{AllocError, Global};
use std::test::Fail;

fn mem_file(alloc: Global, name: &[u8], bytes: &[u8]) -> Result<MemFile, AllocError>
    ensures { IfOk result (λ file. file.bytes.items ≡ bytes.now) }
{
    Ok(MemFile {
        name: Vec::from_slice(alloc, name)?,
        bytes: Vec::from_slice(alloc, bytes)?,
    })
}

// A box of a folder of two files of one name, whose call of this number fails.
fn two_of_a_name(alloc: Global, fails: u64) -> Result<Box<dyn Folder>, AllocError> {
    let mut files = Vec::new(alloc);
    files.push(mem_file(alloc, b"a", b"hello")?)?;
    files.push(mem_file(alloc, b"a", b"the other")?)?;
    let folder = MemFolder::create(files, Vec::from_slice(alloc, &[fails])?);
    Ok(Box::new(alloc, folder)?)
}

// Fills `into` from the file, where it has so many bytes from `at` on.
fn read_part<F: Folder>(
    folder: &mut F,
    name: &[u8],
    at: u64,
    into: &mut [u8],
) -> Result<bool, FolderFailed> {
    let size = into.len() as u64;
    match folder.len_of(name)? {
        Some(len) if size <= len && at <= len - size => {
            folder.read_at(name, at, into)?;
            Ok(true)
        }
        _ => Ok(false),
    }
}

#[test]
fn a_boxed_folder_answers_and_fails_by_number(rt: HostRuntime) -> Result<(), Fail> {
    let alloc = rt.alloc();
    let cases: [(u64, &[u8], u64, Result<bool, FolderFailed>, &[u8], u64, u64); 6] = [
        (9, b"a", 1, Ok(true), b"ell", 2, 0),
        (9, b"a", 2, Ok(true), b"llo", 2, 0),
        (9, b"a", 3, Ok(false), b"...", 1, 0),
        (9, b"b", 0, Ok(false), b"...", 1, 0),
        (0, b"a", 1, Err(FolderFailed), b"...", 1, 1),
        (1, b"a", 1, Err(FolderFailed), b"...", 2, 1),
    ];
    for (fails, name, at, answer, want, calls, faults) in cases {
        let mut folder = two_of_a_name(alloc, fails)?;
        let mut into = *b"...";
        assert_eq!(rt;
            read_part(&mut folder, name, at, &mut into),
            answer,
            "{fails} at {at}"
        );
        assert_eq!(rt; into.as_slice(), want, "{fails} at {at}");
        assert_eq!(rt; folder.calls_seen(), calls, "{fails} at {at}");
        assert_eq!(rt; folder.faults_seen(), faults, "{fails} at {at}");
    }
    Ok(())
}

#[test]
fn a_source_gives_pieces_and_fails_by_number(rt: HostRuntime) -> Result<(), Fail> {
    let alloc = rt.alloc();
    let bytes = Vec::from_slice(alloc, b"abcdefg")?;
    let mut source = MemSource::create(bytes, 3, Vec::from_slice(alloc, &[0, 2, 5])?);
    let reads: [(usize, Option<&[u8]>); 8] = [
        (5, None),
        (5, Some(b"abc")),
        (5, None),
        (2, Some(b"de")),
        (5, Some(b"fg")),
        (5, None),
        (5, Some(b"")),
        (1, Some(b"")),
    ];
    for (room, want) in reads {
        assert!(rt; 0 < room && room <= 5);
        let mut into = [0; 5];
        match source.read(&mut into[..room]) {
            Ok(n) => assert_eq!(rt; Some(&into[..n]), want),
            Err(_) => assert_eq!(rt; None, want),
        }
    }
    Ok(())
}

#[test]
fn a_sink_cuts_at_its_capacity_and_fails_by_number(rt: HostRuntime) -> Result<(), Fail> {
    let alloc = rt.alloc();
    let mut sink = MemSink::create(alloc, 8, Vec::from_slice(alloc, &[0, 2, 5])?)?;
    let puts: [(&[u8], bool, &[u8]); 8] = [
        (b"x", false, b""),
        (b"hello", true, b"hello"),
        (b"y", false, b"hello"),
        (b"", true, b"hello"),
        (b"ab", true, b"helloab"),
        (b"cde", false, b"helloab"),
        (b"cde", false, b"helloabc"),
        (b"z", false, b"helloabc"),
    ];
    for (piece, taken, got) in puts {
        assert_eq!(rt; sink.put(piece).is_ok(), taken);
        assert_eq!(rt; sink.got(), got);
    }
    Ok(())
}
