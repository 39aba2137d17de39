// What the tests share.
ghost use Rattle.std.specs.Prelude.{◌≡◌, IfOk, length, vec_len};

use crate::{Status, exit_code, quake_main, status_line};
use outside_io::{Folder, MemFile, MemFolder, MemSink, MemSource, Source};
use std::alloc::{AllocError, Global};
use std::process::Abort;

mod commands;
mod endings;
mod games;
mod maps;
mod models;
mod mounts;
mod sounds;

const WORDS: [&str; 3] = ["-heapsize", "1024", "d"];

// What the folder of the last word has as `a.cfg`, and which of its calls fail.
#[derive(Clone, Copy)]
struct Disk<'a> {
    config: &'a [u8],
    fails: &'a [u64],
}

const PLAIN: Disk<'static> = Disk {
    config: b"",
    fails: &[],
};

fn file(alloc: Global, name: &[u8], bytes: &[u8]) -> Result<MemFile, AllocError>
    ensures { IfOk result (λ file. vec_len file.bytes ≡ length bytes.now) }
{
    Ok(MemFile {
        name: Vec::from_slice(alloc, name)?,
        bytes: Vec::from_slice(alloc, bytes)?,
    })
}

fn zeros(alloc: Global, name: &[u8], length: usize) -> Result<MemFile, AllocError>
    ensures { IfOk result (λ file. vec_len file.bytes ≡ length) }
{
    Ok(MemFile {
        name: Vec::from_slice(alloc, name)?,
        bytes: vec![in alloc; 0u8; length]?,
    })
}

// A folder of files. In a heap of 1024 KB `big` just fits, and `bigger` doesn't.
fn files(rt: &impl Abort, alloc: Global, disk: &Disk<'_>) -> Result<MemFolder, AllocError> {
    assert!(rt; disk.config.len() < 10_000);
    let mut files = Vec::new(alloc);
    files.push(file(alloc, b"a.cfg", disk.config)?)?;
    files.push(file(alloc, b"a.txt", b"hello")?)?;
    files.push(zeros(alloc, b"maps/m0.bsp", 16)?)?;
    files.push(zeros(alloc, b"big", 999_391)?)?;
    files.push(zeros(alloc, b"bigger", 999_392)?)?;
    Ok(MemFolder::create(files, Vec::from_slice(alloc, disk.fails)?))
}

fn filled(rt: &impl Abort, alloc: Global, disk: &Disk<'_>) -> Result<Box<dyn Folder>, AllocError> {
    Ok(Box::new(alloc, files(rt, alloc, disk)?)?)
}

// A folder without files, whose first call fails.
fn empty(alloc: Global) -> Result<Box<dyn Folder>, AllocError> {
    let folder = MemFolder::create(Vec::new(alloc), Vec::from_slice(alloc, &[0])?);
    Ok(Box::new(alloc, folder)?)
}

// A script of this text, then so many of this byte, and then the other text.
fn text(
    alloc: Global,
    head: &str,
    byte: u8,
    count: usize,
    tail: &str,
) -> Result<Vec<u8>, AllocError> {
    let mut text = Vec::from_slice(alloc, head.as_bytes())?;
    text.extend_from_slice(&vec![in alloc; byte; count]?)?;
    text.extend_from_slice(tail.as_bytes())?;
    Ok(text)
}

// A script of which a read gives as much as it is asked for.
fn source(alloc: Global, text: &[u8]) -> Result<MemSource, AllocError> {
    let bytes = Vec::from_slice(alloc, text)?;
    Ok(MemSource::create(bytes, 10_000, Vec::new(alloc)))
}

fn sink(alloc: Global) -> Result<MemSink, AllocError> {
    MemSink::create(alloc, 100_000, Vec::new(alloc))
}

// How many bytes the next read takes, or `None` where it fails.
fn bytes_read(script: &mut MemSource) -> Option<usize> {
    script.read(&mut [0; 8192]).ok()
}

// Runs a script. The folders of all words but the last one are empty, and fail.
fn run(
    rt: &impl Abort,
    alloc: Global,
    words: &[&str],
    disk: &Disk<'_>,
    script: &mut MemSource,
    out: &mut MemSink,
) -> Result<Status, AllocError> {
    let mut names = Vec::new(alloc);
    let mut folders: Vec<Box<dyn Folder>> = Vec::new(alloc);
    for word in words {
        names.push(String::from_str(alloc, word)?)?;
        let folder = if names.len() == words.len() {
            filled(rt, alloc, disk)?
        } else {
            empty(alloc)?
        };
        folders.push(folder)?;
    }
    assert!(rt; names.len() < 100);
    assert_eq!(rt; folders.len(), names.len());
    Ok(quake_main(alloc, &names, folders, script, out))
}

// Runs a script on a folder behind these options, whose own folders fail.
fn run_on(
    rt: &impl Abort,
    alloc: Global,
    options: &[&str],
    folder: Box<dyn Folder>,
    text: &str,
    out: &mut MemSink,
) -> Result<Status, AllocError> {
    let mut words = Vec::new(alloc);
    let mut folders: Vec<Box<dyn Folder>> = Vec::new(alloc);
    for option in options {
        words.push(String::from_str(alloc, option)?)?;
        folders.push(empty(alloc)?)?;
    }
    words.push(String::from_str(alloc, "d")?)?;
    folders.push(folder)?;
    assert!(rt; words.len() < 100);
    assert_eq!(rt; folders.len(), words.len());
    let mut script = source(alloc, text.as_bytes())?;
    Ok(quake_main(alloc, &words, folders, &mut script, out))
}

// Compares how a run ended, as a user sees it, and what was put.
fn check_end(rt: &impl Abort, status: &Status, out: &MemSink, code: u8, line: &str, put: &str) {
    assert_eq!(rt; exit_code(status), code, "after {put}");
    assert_eq!(rt; status_line(status).as_str(), line, "after {put}");
    assert_eq!(rt; out.got(), put.as_bytes(), "for {put}");
}

// Runs a script that is read to its end, on the smallest heap, and compares what it puts.
fn check_answers(
    rt: &impl Abort,
    alloc: Global,
    config: &[u8],
    text: &[u8],
    put: &str,
) -> Result<(), AllocError> {
    let mut script = source(alloc, text)?;
    let mut out = sink(alloc)?;
    let disk = Disk { config, fails: &[] };
    let status = run(rt, alloc, &WORDS, &disk, &mut script, &mut out)?;
    check_end(rt, &status, &out, 0, "", put);
    assert_eq!(rt; bytes_read(&mut script), Some(0), "after {put}");
    Ok(())
}
