// A folder of the host.
ghost use Rattle.std.specs.Prelude.{◌≡◌, ◌≢◌, ◌↔◌, ◌<◌, ◌≤◌, ◌+◌, ◌^◌, ◌++◌, ◌∷◌, ℕ, [], None, IsTrue, IsSome, IfOk};
ghost use Rattle.std.specs.Prelude.{IfSome, OnOk, length, take, string_bytes, string_capacity};
ghost use Rattle.std.specs.Io.KnownBytes.{Consumes};
ghost use Rattle.quake_cli.specs.HostNames.{stays_inside, IsHostName};

use arrayvec::ArrayVec;
use base_fields::has_step_up;
use outside_io::{Folder, FolderFailed};
use std::alloc::{AllocError, Global};
use std::fs::File;
use std::io::{ErrorKind, Read, Seek, SeekFrom};
use std::{fs, io};

// How many files are kept open at most.
const MOST_OPEN: usize = 32;

// A file that is kept open, and its name.
#[derive(Drop)]
struct OpenFile {
    name: ArrayVec<u8, 63>,
    file: File,
}

/// A folder of the host's file system. It tells no files, and counts its calls and faults.
///
/// Its files are the regular files of the host below it, links followed. A missing file, and anything that is no regular
/// file, answers `None`, and so does a name that is no text, that has more than 63 bytes or a zero byte, or that leads out
/// of the folder: one that is empty, begins with a slash, or has a part `..`. A folder that isn't there is empty.
/// A failed call of the host, a file that ends early, and a length of 2^62 bytes or more are faults.
///
/// A file of which a part was read, as of a pack, is kept open, 32 at most: further reads come from the file that it was
/// then, whatever stands at its name. A file that is read whole is opened for each read.
#[derive(Drop)]
pub struct DirFolder {
    rt: HostRuntime,
    root: String,
    // The path of the call, of which there is room for the longest.
    path: String,
    // The length of the file at that path, where the call asked for it.
    size: Option<u64>,
    open: Vec<OpenFile>,
    calls: u64,
    faults: u64,
    ghost room: { length (string_bytes root) + 64 ≤ string_capacity path },
}

impl DirFolder {
    /// The folder at this path, with no call made. All memory that it ever takes is taken here; it refuses only for want of
    /// that.
    pub fn create(alloc: Global, rt: HostRuntime, root: &str) -> Result<DirFolder, AllocError>
        ensures root { IfOk result (λ folder. string_bytes folder.root ≡ root.now) }
        ensures counts { IfOk result (λ folder. (folder.calls ≡ 0) × (folder.faults ≡ 0)) }
    {
        let Some(room) = root.len().checked_add(64) else {
            return Err(AllocError);
        };
        Ok(DirFolder {
            rt,
            root: String::from_str(alloc, root)?,
            path: String::with_capacity(alloc, room)?,
            size: None,
            open: Vec::with_capacity(alloc, MOST_OPEN)?,
            calls: 0,
            faults: 0,
        })
    }

    // The length of the file of this name, where the last call asked for it, so that the host needn't be asked again.
    fn known_size(&self, name: &[u8]) -> Option<u64> {
        if self.path.len() == self.root.len() + 1 + name.len()
            && self.path.as_bytes().ends_with(name)
        {
            return self.size;
        }
        None
    }

    // Fills `into` from the file of this name, at the path that was written.
    fn read_named(
        &mut self,
        name: &[u8],
        known: Option<u64>,
        at: u64,
        into: &mut [u8],
    ) -> io::Result<()>
        ensures counts { (self.new.calls ≡ self.old.calls) × (self.new.faults ≡ self.old.faults) }
    {
        for open in &mut self.open {
            if open.name.as_slice() == name {
                open.file.seek(SeekFrom::Start(at))?;
                return fill(&mut open.file, into);
            }
        }
        let (mut file, size) = open_file(&self.rt, &self.path, known)?;
        if at != 0 {
            file.seek(SeekFrom::Start(at))?;
        }
        fill(&mut file, into)?;
        if (into.len() as u64) < size {
            self.keep_open(name, file);
        }
        Ok(())
    }

    // Keeps a file open, where there is room.
    fn keep_open(&mut self, name: &[u8], file: File)
        ensures counts { (self.new.calls ≡ self.old.calls) × (self.new.faults ≡ self.old.faults) }
    {
        let Ok(name) = ArrayVec::try_from(name) else {
            return;
        };
        if self.open.len() < MOST_OPEN {
            let _ = self.open.push(OpenFile { name, file });
        }
    }
}

impl Folder for DirFolder {
    ghost use Rattle.std.specs.Prelude.{◌≡◌, ◌<◌, ◌^◌, Ok, Err, None, IfOk, IfSome};
    ghost use Rattle.outside_io.specs.Causes.{one_more, after_call};
    ghost use Rattle.quake_cli.specs.HostNames.{IsHostName};

    ghost files = { λ folder. None };

    ghost folder_faults = { λ folder. folder.faults };

    ghost folder_calls = { λ folder. folder.calls };

    fn len_of(&mut self, name: &[u8]) -> Result<Option<u64>, FolderFailed>
        ensures outside { (IsHostName name.now → ⊥) → result ≡ Ok None }
        ensures limit { IfOk result (λ len. IfSome len (λ n. n < 2 ^ 62)) }
        ensures counted { self.new.calls ≡ one_more self.old.calls }
        ensures faults { self.new.faults ≡ after_call result self.old.faults }
    {
        self.calls = self.calls.saturating_add(1);
        self.size = None;
        if !write_path(&mut self.path, &self.root, name) {
            return Ok(None);
        }
        match length(&self.rt, &self.path) {
            Ok(len) => {
                self.size = len;
                Ok(len)
            }
            Err(_) => {
                self.faults = self.faults.saturating_add(1);
                Err(FolderFailed)
            }
        }
    }

    fn read_at(&mut self, name: &[u8], at: u64, into: &mut [u8]) -> Result<(), FolderFailed>
        ensures outside { (IsHostName name.now → ⊥) → result ≡ Err (record {}) }
        ensures counted { self.new.calls ≡ one_more self.old.calls }
        ensures faults { self.new.faults ≡ after_call result self.old.faults }
    {
        self.calls = self.calls.saturating_add(1);
        let known = self.known_size(name);
        self.size = None;
        if write_path(&mut self.path, &self.root, name) {
            if self.read_named(name, known, at, into).is_ok() {
                return Ok(());
            }
        }
        self.faults = self.faults.saturating_add(1);
        Err(FolderFailed)
    }

    fn faults_seen(&self) -> u64 {
        self.faults
    }

    fn calls_seen(&self) -> u64 {
        self.calls
    }
}

// Writes the path of this name over the old one, and says whether it has one. The empty root, which would be the host's
// own, has none.
fn write_path(path: &mut String, root: &str, name: &[u8]) -> bool
    requires room { length root.now + 64 ≤ string_capacity path.old }
    ensures named { IsTrue result ↔ ((0 < length root.now) × IsHostName name.now) }
    ensures path { IsTrue result → string_bytes path.new ≡ root.now ++ 47 ∷ name.now }
    ensures room { string_capacity path.old ≤ string_capacity path.new }
{
    if root.is_empty() {
        return false;
    }
    let Some(name) = host_name(name) else {
        return false;
    };
    path.clear();
    path.push_str(root).unwrap();
    path.push_str("/").unwrap();
    path.push_str(name).unwrap();
    true
}

// The name as text, where it can name a thing in a folder of the host.
fn host_name(name: &[u8]) -> Option<&str>
    ensures named { IsSome result ↔ IsHostName name.now }
    ensures text { IfSome result (λ text. text.now ≡ name.now) }
    ensures short { IfSome result (λ text. length text.now ≤ 63) }
{
    if !stays_inside(name) {
        return None;
    }
    str::from_utf8(name).ok()
}

#[tactic(auto, unfolding(crate::specs::HostNames::stays_inside))]
fn stays_inside(name: &[u8]) -> bool
    ensures inside { result ≡ stays_inside name.now }
    ensures short { IsTrue result → length name.now ≤ 63 }
{
    (1..=63).contains(&name.len())
        && !name.contains(&0)
        && !name.starts_with(b"/")
        && !has_step_up(name)
}

// The length of the regular file at this path, or none where there is no such file.
fn length(rt: &HostRuntime, path: &str) -> io::Result<Option<u64>>
    ensures { IfOk result (λ len. IfSome len (λ n. n < 2 ^ 62)) }
{
    match fs::metadata(rt, path) {
        Ok(metadata) if !metadata.is_file() => Ok(None),
        Ok(metadata) if metadata.len() < 1 << 62 => Ok(Some(metadata.len())),
        Ok(_) => Err(io::Error::from(ErrorKind::FileTooLarge)),
        Err(error) => match error.kind() {
            ErrorKind::NotFound | ErrorKind::NotADirectory => Ok(None),
            _ => Err(error),
        },
    }
}

// Opens the regular file at this path, and tells its length, which may be known from the call before. What is no regular
// file isn't opened: to open a FIFO waits for its writer, and to open a device may act on it. The host can't be asked for
// both at once, so what takes the file's place between the two calls is opened.
fn open_file(rt: &HostRuntime, path: &str, known: Option<u64>) -> io::Result<(File, u64)> {
    let size = match known {
        Some(size) => Some(size),
        None => length(rt, path)?,
    };
    match size {
        Some(size) => Ok((File::open(rt, path)?, size)),
        None => Err(io::Error::from(ErrorKind::NotFound)),
    }
}

// Fills `into` with the next bytes that are read. An early end is an error.
pub(crate) fn fill<R: Read>(from: &mut R, into: &mut [u8]) -> io::Result<()>
    ensures { OnOk result (Consumes (R.remaining from.old) (R.remaining from.new) into.new) }
{
    let mut filled = 0;
    'fill: while filled < into.len() {
        match from.read(&mut into[filled..])? {
            0 => return Err(io::Error::from(ErrorKind::UnexpectedEof)),
            n => filled += n,
        }
    }
    Ok(())
}
