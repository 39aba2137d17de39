use crate::folder::{DirFolder, fill};
use crate::print_line;
use crate::streams::{StdinSource, StdoutSink, put_whole};
use console_core::Status;
use outside_io::{Folder, FolderFailed, Sink, Source};
use std::io::{ErrorKind, Read};
use std::os::unix::fs::symlink;
use std::test::Fail;
use std::{env, fs};

const LONG: &str = "a234567890123456789012345678901234567890123456789012345678901.t";

// Makes `folder`, beside a file that isn't in it, and enters the place where both stand.
fn enter(rt: &HostRuntime, place: &str) -> Result<(), Fail> {
    fs::create_dir(rt, place)?;
    env::set_current_dir(rt, place)?;
    fs::create_dir(rt, "folder")?;
    fs::create_dir(rt, "folder/sub")?;
    fs::write(rt, "folder/a.txt", "hello")?;
    fs::write(rt, "folder/sub/b.txt", "")?;
    fs::write(rt, format!(in rt.alloc(); "folder/{LONG}")?, "long")?;
    fs::write(rt, format!(in rt.alloc(); "folder/{LONG}x")?, "too long")?;
    fs::write(rt, "outside.txt", "outside")?;
    symlink(rt, "a.txt", "folder/link")?;
    symlink(rt, "loop", "folder/loop")?;
    symlink(rt, "/dev/zero", "folder/device")?;
    Ok(())
}

fn leave(rt: &HostRuntime, place: &str) -> Result<(), Fail> {
    env::set_current_dir(rt, "..")?;
    fs::remove_dir_all(rt, place)?;
    Ok(())
}

/// Lengths: links are followed, and whatever is no regular file inside the folder is missing. A loop of links is a fault.
#[test]
fn a_folder_answers(rt: HostRuntime) -> Result<(), Fail> {
    enter(&rt, "test_lengths")?;
    let mut folder = DirFolder::create(rt.alloc(), rt, "folder")?;
    let too_long = format!(in rt.alloc(); "{LONG}x")?;
    let cases: [(&[u8], Option<u64>); 17] = [
        (b"a.txt", Some(5)),
        (b"link", Some(5)),
        (b"sub/b.txt", Some(0)),
        (LONG.as_bytes(), Some(4)),
        (too_long.as_bytes(), None),
        (b"c.txt", None),
        (b"A.TXT", None),
        (b"sub", None),
        (b"device", None),
        (b"a.txt/x", None),
        (b"\xff", None),
        (b"", None),
        (b"a.txt\0", None),
        (b"../outside.txt", None),
        (b"sub/../a.txt", None),
        (b"/etc/passwd", None),
        (b"none/c.txt", None),
    ];
    for (name, len) in cases {
        assert_eq!(rt; folder.len_of(name), Ok(len), "{name:?}");
    }
    assert_eq!(rt; folder.faults_seen(), 0);
    assert_eq!(rt; folder.len_of(b"loop"), Err(FolderFailed));
    assert_eq!(rt; folder.faults_seen(), 1);
    assert_eq!(rt; folder.calls_seen(), 18);
    leave(&rt, "test_lengths")
}

/// Reads: bytes from an offset, and what is a fault, above all an early end.
#[test]
fn a_folder_reads(rt: HostRuntime) -> Result<(), Fail> {
    enter(&rt, "test_reads")?;
    let mut folder = DirFolder::create(rt.alloc(), rt, "folder")?;
    let mut part = [0u8; 3];
    assert_eq!(rt; folder.read_at(b"a.txt", 1, &mut part), Ok(()));
    assert_eq!(rt; &part, b"ell");
    let faulty: [(&[u8], u64); 7] = [
        (b"a.txt", 3),
        (b"a.txt", 6),
        (b"a.txt", u64::MAX),
        (b"c.txt", 0),
        (b"sub", 0),
        (b"device", 0),
        (b"../outside.txt", 0),
    ];
    for (name, at) in faulty {
        assert_eq!(rt;
            folder.read_at(name, at, &mut part),
            Err(FolderFailed),
            "{name:?}"
        );
    }
    assert_eq!(rt; folder.faults_seen(), 7);
    assert_eq!(rt; folder.calls_seen(), 8);
    leave(&rt, "test_reads")
}

/// A file of which a part was read stays the one that it was; one that is read whole is looked for at each read.
#[test]
fn a_file_is_kept_open(rt: HostRuntime) -> Result<(), Fail> {
    enter(&rt, "test_open")?;
    fs::write(&rt, "folder/whole.txt", "hello")?;
    let mut folder = DirFolder::create(rt.alloc(), rt, "folder")?;
    let mut part = [0u8; 3];
    let mut whole = [0u8; 5];
    assert_eq!(rt; folder.read_at(b"a.txt", 0, &mut part), Ok(()));
    assert_eq!(rt; folder.read_at(b"whole.txt", 0, &mut whole), Ok(()));
    for name in ["a.txt", "whole.txt"] {
        fs::remove_file(&rt, format!(in rt.alloc(); "folder/{name}")?)?;
    }
    assert_eq!(rt; folder.read_at(b"a.txt", 2, &mut part), Ok(()));
    assert_eq!(rt; &part, b"llo");
    assert_eq!(rt;
        folder.read_at(b"whole.txt", 0, &mut whole),
        Err(FolderFailed)
    );
    assert_eq!(rt; folder.len_of(b"a.txt"), Ok(None));
    leave(&rt, "test_open")
}

/// Where a word names no folder every file is missing. A path that is too long for the host is a fault.
#[test]
fn no_folder_is_empty(rt: HostRuntime) -> Result<(), Fail> {
    fs::write(&rt, "test_file", "file")?;
    for root in ["nothing", "test_file", ""] {
        let mut folder = DirFolder::create(rt.alloc(), rt, root)?;
        assert_eq!(rt; folder.len_of(b"etc/passwd"), Ok(None), "{root}");
        assert_eq!(rt; folder.faults_seen(), 0);
    }
    let long = [b'x'; 300];
    let mut folder = DirFolder::create(rt.alloc(), rt, str::from_utf8(&long)?)?;
    assert_eq!(rt; folder.len_of(b"a.txt"), Err(FolderFailed));
    fs::remove_file(&rt, "test_file")?;
    Ok(())
}

#[test]
fn a_source_reads(rt: HostRuntime) {
    let mut source = StdinSource::new(rt.stdin());
    let mut piece = [0u8; 4];
    // A test has no input.
    assert_eq!(rt; source.read(&mut piece), Ok(0));
}

#[test]
fn a_sink_takes_a_piece(rt: HostRuntime) {
    let mut sink = StdoutSink::new(rt.stdout());
    assert_eq!(rt; sink.put(b"a piece\n"), Ok(()));
    assert_eq!(rt; sink.put(b""), Ok(()));
    sink.flush();
    assert!(rt; !sink.has_failed());
}

/// The loops of the adapters, over readers and writers that give and take less than they are asked.
#[test]
fn short_steps_add_up(rt: HostRuntime) {
    let mut from = b"ab".as_slice().chain(b"cde".as_slice());
    let mut into = [0u8; 4];
    assert!(rt; fill(&mut from, &mut into).is_ok());
    assert_eq!(rt; &into, b"abcd");
    let early = fill(&mut from, &mut into).map_err(|error| error.kind());
    assert_eq!(rt; early, Err(ErrorKind::UnexpectedEof));
    let mut room = [0u8; 3];
    let mut to = room.as_mut_slice();
    let full = put_whole(&mut to, b"hello").map_err(|error| error.kind());
    assert_eq!(rt; full, Err(ErrorKind::WriteZero));
    assert_eq!(rt; &room, b"hel");
}

#[test]
fn a_bad_end_has_a_line(rt: HostRuntime) {
    let mut room = [0u8; 14];
    assert!(rt; print_line(&mut room.as_mut_slice(), &Status::OutOfMemory).is_ok());
    assert_eq!(rt; &room, b"out of memory\n");
}
