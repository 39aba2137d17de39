// Folders and packs on one path.
use super::{bytes_read, check_end, sink, source};
use crate::{Status, quake_main};
use outside_io::{Folder, MemFile, MemFolder, MemSink, MemSource, Sink};
use std::alloc::{AllocError, Global};
use std::process::Abort;
use std::test::Fail;

// The files of a folder by their names, and the number of its call that fails.
type Given<'a, 'b> = (&'a [(&'static str, &'b [u8])], u64);

// The number of a call that never comes.
const NEVER: u64 = 99;

// A pack of these entries, by the name, the place and the length of each, and of the bytes behind its directory.
pub(super) fn pack(
    rt: &impl Abort,
    alloc: Global,
    entries: &[(&str, u32, u32)],
    tail: &[u8],
) -> Result<Vec<u8>, AllocError> {
    assert!(rt; entries.len() < 100);
    let mut bytes = Vec::from_slice(alloc, b"PACK\x0c\0\0\0")?;
    bytes.extend_from_slice(&(64 * entries.len() as u32).to_le_bytes())?;
    for (name, offset, length) in entries {
        let mut field = [0; 56];
        assert!(rt; name.len() <= 56);
        field[..name.len()].copy_from_slice(name.as_bytes());
        bytes.extend_from_slice(&field)?;
        bytes.extend_from_slice(&offset.to_le_bytes())?;
        bytes.extend_from_slice(&length.to_le_bytes())?;
    }
    bytes.extend_from_slice(tail)?;
    Ok(bytes)
}

fn folder(
    rt: &impl Abort,
    alloc: Global,
    given: Given<'_, '_>,
) -> Result<Box<dyn Folder>, AllocError> {
    let (files, fails) = given;
    let mut held = Vec::new(alloc);
    for (name, bytes) in files {
        assert!(rt; bytes.len() < 10_000);
        held.push(MemFile {
            name: Vec::from_slice(alloc, name.as_bytes())?,
            bytes: Vec::from_slice(alloc, bytes)?,
        })?;
    }
    let folder = MemFolder::create(held, Vec::from_slice(alloc, &[fails])?);
    Ok(Box::new(alloc, folder)?)
}

// Runs a script on folders behind these options, whose own folders fail at once.
fn run(
    rt: &impl Abort,
    alloc: Global,
    options: &[&str],
    given: &[Given<'_, '_>],
    script: &mut MemSource,
    out: &mut MemSink,
) -> Result<Status, AllocError> {
    let mut words = Vec::new(alloc);
    let mut folders: Vec<Box<dyn Folder>> = Vec::new(alloc);
    for option in options {
        words.push(String::from_str(alloc, option)?)?;
        folders.push(folder(rt, alloc, (&[], 0))?)?;
    }
    for given in given {
        words.push(String::from_str(alloc, "d")?)?;
        folders.push(folder(rt, alloc, *given)?)?;
    }
    assert!(rt; words.len() < 100);
    assert_eq!(rt; folders.len(), words.len());
    Ok(quake_main(alloc, &words, folders, script, out))
}

const OPTIONS: [&str; 2] = ["-heapsize", "1024"];

const EMPTY: Given<'static, 'static> = (&[], NEVER);

// Compares what a script prints over these folders.
fn check_puts(
    rt: &impl Abort,
    alloc: Global,
    given: &[Given<'_, '_>],
    text: &str,
    put: &str,
) -> Result<(), AllocError> {
    let mut script = source(alloc, text.as_bytes())?;
    let mut out = sink(alloc)?;
    let status = run(rt, alloc, &OPTIONS, given, &mut script, &mut out)?;
    check_end(rt, &status, &out, 0, "", put);
    Ok(())
}

#[test]
fn the_last_pack_comes_first(rt: HostRuntime) -> Result<(), Fail> {
    let alloc = rt.alloc();
    let pak0 = pack(&rt, alloc, &[("c.txt", 76, 1)], b"x")?;
    let pak1 = pack(
        &rt,
        alloc,
        &[("c.txt", 140, 2), ("c.txt", 142, 4)],
        b"xxyyyy",
    )?;
    let given: [Given; 1] = [(
        &[
            ("c.txt", b"abc"),
            ("pak0.pak", &pak0),
            ("pak1.pak", &pak1),
            ("pak3.pak", b""),
        ],
        NEVER,
    )];
    check_puts(&rt, alloc, &given, "file c.txt", "file c.txt 2 at 49184\n")?;
    let listed = "pack 0 pak1.pak 2 files\npack 0 pak0.pak 1 files\nfolder 0\n";
    check_puts(&rt, alloc, &given, "path", listed)?;
    Ok(())
}

#[test]
fn an_entry_is_used_where_it_lies_in_its_pack(rt: HostRuntime) -> Result<(), Fail> {
    let alloc = rt.alloc();
    let cut = pack(&rt, alloc, &[("x.txt", 70, 10)], b"")?;
    let full = pack(&rt, alloc, &[("x.txt", 70, 6)], b"")?;
    let config = pack(&rt, alloc, &[("a.cfg", 76, 6)], b"echo b")?;
    for (pak0, text, put) in [
        (
            &cut,
            "file x.txt;path",
            "beyond pack: x.txt ends at 80 of 76\npack 0 pak0.pak 1 files\nfolder 0\n",
        ),
        (
            &cut,
            "exec x.txt;file y.txt",
            "beyond pack: x.txt ends at 80 of 76\nnot found: y.txt\n",
        ),
        (&full, "file x.txt", "file x.txt 6 at 49184\n"),
        (&config, "exec a.cfg", "execing a.cfg\nb \n"),
    ] {
        let given: [Given; 1] = [(&[("a.cfg", b"echo a"), ("pak0.pak", pak0)], NEVER)];
        check_puts(&rt, alloc, &given, text, put)?;
    }
    Ok(())
}

#[test]
fn the_last_folder_comes_first(rt: HostRuntime) -> Result<(), Fail> {
    let alloc = rt.alloc();
    let one: Given = (&[("c.txt", b"a")], NEVER);
    let two: Given = (&[("c.txt", b"ab"), ("C.txt", b"abcd")], NEVER);
    let cases: [(&[Given], &str, &str); 3] = [
        (
            &[one, two],
            "file c.txt;path",
            "file c.txt 2 at 49184\nfolder 1\nfolder 0\n",
        ),
        (
            &[two, one, EMPTY],
            "file c.txt;file C.txt",
            "file c.txt 1 at 49184\nfile C.txt 4 at 49216\n",
        ),
        (
            &[EMPTY; 8],
            "PATH x;file c.txt",
            "folder 7\nfolder 6\nfolder 5\nfolder 4\nfolder 3\nfolder 2\nfolder 1\nfolder 0\nnot found: c.txt\n",
        ),
    ];
    for (given, text, put) in cases {
        check_puts(&rt, alloc, given, text, put)?;
    }
    Ok(())
}

// A source and a sink of which the first call fails.
fn untouched(alloc: Global) -> Result<(MemSource, MemSink), AllocError> {
    let bytes = Vec::from_slice(alloc, b"echo a\n")?;
    let script = MemSource::create(bytes, 99, Vec::from_slice(alloc, &[0])?);
    Ok((
        script,
        MemSink::create(alloc, 99, Vec::from_slice(alloc, &[0])?)?,
    ))
}

// The first read and the first put are still to come.
fn check_untouched(rt: &impl Abort, script: &mut MemSource, out: &mut MemSink, line: &str) {
    assert_eq!(rt; bytes_read(script), None, "{line}");
    assert_eq!(rt; bytes_read(script), Some(7), "{line}");
    assert!(rt; out.put(b"x").is_err(), "{line}");
}

#[test]
fn the_first_bad_pack_is_told(rt: HostRuntime) -> Result<(), Fail> {
    let alloc = rt.alloc();
    let good = pack(&rt, alloc, &[("c.txt", 76, 1)], b"x")?;
    let many: Given = (&[("pak0.pak", b"PACK\x0c\0\0\0\x40\0\x02\0")], NEVER);
    let outside: Given = (&[("pak0.pak", b"PACK\x0d\0\0\0\0\0\0\0")], NEVER);
    let second: Given = (&[("pak0.pak", &good), ("pak1.pak", b"PACK")], NEVER);
    let cases: [(&[Given], u32, u32, &str); 4] = [
        (&[many], 0, 0, "bad pack 0 0: 2049 entries"),
        (&[EMPTY, second, many], 1, 1, "bad pack 1 1: not a pack"),
        (&[outside, many], 0, 0, "bad pack 0 0: directory outside"),
        (&[EMPTY, EMPTY, many], 2, 0, "bad pack 2 0: 2049 entries"),
    ];
    for (given, folder_is, pack_is, line) in cases {
        let (mut script, mut out) = untouched(alloc)?;
        let status = run(&rt, alloc, &OPTIONS, given, &mut script, &mut out)?;
        check_end(&rt, &status, &out, 4, line, "");
        match status {
            Status::BadPack { folder, pack, .. } => {
                assert_eq!(rt; (folder, pack), (folder_is, pack_is), "{line}");
            }
            _ => assert!(rt; false, "{line}"),
        }
        check_untouched(&rt, &mut script, &mut out, line);
    }
    Ok(())
}

#[test]
fn a_fault_while_mounting_leaves_all_untouched(rt: HostRuntime) -> Result<(), Fail> {
    let alloc = rt.alloc();
    let good = pack(&rt, alloc, &[("c.txt", 76, 1)], b"x")?;
    for (second, fails, word_is) in [
        (false, 0, 2),
        (false, 1, 2),
        (false, 3, 2),
        (true, 0, 3),
        (true, 2, 3),
    ] {
        let failing: Given = (&[("pak0.pak", &good)], fails);
        let given = if second {
            [EMPTY, failing]
        } else {
            [failing, EMPTY]
        };
        let (mut script, mut out) = untouched(alloc)?;
        let status = run(&rt, alloc, &OPTIONS, &given, &mut script, &mut out)?;
        check_end(&rt, &status, &out, 6, "folder read fault", "");
        match status {
            Status::FolderFault { word, folder } => {
                assert_eq!(rt; word, word_is, "at {fails}");
                assert_eq!(rt; folder.calls_seen(), fails + 1, "at {fails}");
            }
            _ => assert!(rt; false, "at {fails}"),
        }
        check_untouched(&rt, &mut script, &mut out, "a fault");
    }
    Ok(())
}

#[test]
fn a_fault_names_the_word_of_its_folder(rt: HostRuntime) -> Result<(), Fail> {
    let alloc = rt.alloc();
    // Call 0 is the question for `pak0.pak`.
    for (first, second, word_is) in [(NEVER, 1, 1), (1, NEVER, 0), (1, 1, 1)] {
        let given: [Given; 2] = [(&[], first), (&[("a.txt", b"a")], second)];
        let mut script = source(alloc, b"echo a\nfile b.txt;file a.txt")?;
        let mut out = sink(alloc)?;
        let status = run(&rt, alloc, &[], &given, &mut script, &mut out)?;
        check_end(&rt, &status, &out, 6, "folder read fault", "a \n");
        match status {
            Status::FolderFault { word, folder } => {
                assert_eq!(rt; word, word_is);
                assert_eq!(rt; folder.faults_seen(), 1, "for {word}");
            }
            _ => assert!(rt; false, "for {word_is}"),
        }
    }
    Ok(())
}
