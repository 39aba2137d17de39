// How a run ends.
ghost use Rattle.std.specs.Prelude.{◌≡◌, ◌≤◌, ◌++◌, length};
ghost use Rattle.console_core.specs.Ends.{code_of, status_text, plain_text, fault_text, bad_pack_text, may_have_put};
ghost use Rattle.console_core.specs.Ends.{status_told};

use arrayvec::ArrayString;
use itoa::Buffer;
use outside_io::Folder;
use pack_files::PackFault;

/// How a run ended. `quake_main` says what was put and taken then.
#[derive(Drop)]
pub enum Status<F: Folder = Box<dyn Folder>> {
    /// The script was read to its end and finished, or `quit` was executed.
    Done,
    /// The number of the first word that breaks the rule, or of words where one is missing.
    Usage {
        word: u32,
    },
    /// The host had no memory for a block.
    OutOfMemory,
    /// The heap does not hold the zone.
    TooSmall,
    /// A pack of a folder is no pack that is taken: the first such pack, in the order of mounting. Folders are numbered from
    /// 0 among those that were asked for.
    BadPack {
        folder: u32,
        pack: u32,
        fault: PackFault,
    },
    /// A read of the script failed. The lines that ended before it were run.
    ScriptFault,
    /// A call of the folder of this word failed. The folder is handed back with its counts.
    FolderFault {
        word: u32,
        folder: F,
    },
    /// A put of a reply failed.
    WriteFault,
    /// The script has more than 1,048,576 bytes. The lines that ended before the byte past these were run.
    ScriptTooLong,
}

// Whether a reply may have been put.
fn may_have_put<F: Folder>(status: &Status<F>) -> bool
    ensures { result ≡ may_have_put status.now }
{
    !matches!(
        status,
        Status::Usage { .. } | Status::TooSmall | Status::BadPack { .. }
    )
}

/// The status that is told of a run. Where `lost` says that the sink lost some of what was put, as at its last flush, that
/// is `WriteFault` in place of each status after which a reply may have been put; a folder is dropped then.
pub fn status_told<F: Folder>(status: Status<F>, lost: bool) -> Status<F>
    ensures { result ≡ status_told status lost }
{
    if lost && may_have_put(&status) {
        return Status::WriteFault;
    }
    status
}

/// The exit code of a run that ended so.
pub fn exit_code(status: &Status) -> u8
    ensures { result ≡ code_of status.now }
{
    match status {
        Status::Done => 0,
        Status::Usage { .. } => 1,
        Status::OutOfMemory => 2,
        Status::TooSmall => 3,
        Status::BadPack { .. } => 4,
        Status::ScriptFault => 5,
        Status::FolderFault { .. } => 6,
        Status::WriteFault => 7,
        Status::ScriptTooLong => 8,
    }
}

// The text of a status that has no numbers.
fn text<F: Folder>(status: &Status<F>) -> &'static str
    ensures text { result.now ≡ plain_text status.now }
    ensures short { length result.now ≤ 96 }
{
    match status {
        Status::Done | Status::BadPack { .. } => "",
        Status::Usage { .. } => {
            "usage: quake_cli [-heapsize KB] [-zone KB] [-speed HZ] folder ..."
        }
        Status::OutOfMemory => "out of memory",
        Status::TooSmall => "heap too small",
        Status::ScriptFault => "script read fault",
        Status::FolderFault { .. } => "folder read fault",
        Status::WriteFault => "write fault",
        Status::ScriptTooLong => "script too long",
    }
}

// Why a pack was not taken.
fn push_fault(line: &mut ArrayString<96>, fault: PackFault)
    requires room { length line.old.bytes ≤ 64 }
    ensures { line.new.bytes ≡ line.old.bytes ++ fault_text fault }
{
    match fault {
        PackFault::NotPack => line.push_str("not a pack"),
        PackFault::TooMany { count } => {
            line.push_str(Buffer::new().format(count));
            line.push_str(" entries");
        }
        PackFault::DirOutside => line.push_str("directory outside"),
    }
}

fn bad_pack_line(folder: u32, pack: u32, fault: PackFault) -> ArrayString<96>
    ensures { result.bytes ≡ bad_pack_text folder pack fault }
{
    let mut line = ArrayString::new();
    line.push_str("bad pack ");
    line.push_str(Buffer::new().format(folder));
    line.push_str(" ");
    line.push_str(Buffer::new().format(pack));
    line.push_str(": ");
    push_fault(&mut line, fault);
    line
}

/// The line that tells a user how a run ended, without a newline. It is empty for `Done`.
pub fn status_line(status: &Status) -> ArrayString<96>
    ensures { result.bytes ≡ status_text status.now }
{
    match status {
        Status::BadPack {
            folder,
            pack,
            fault,
        } => bad_pack_line(*folder, *pack, *fault),
        _ => ArrayString::from(text(status)).unwrap(),
    }
}
