ghost use Rattle.std.specs.Prelude.{◌≡◌, IfOk, false};

use crate::{Session, StepEnd, USERS};
use mem_model::PlainStore;
use outside_io::{MemFile, MemFolder, MemSink};
use res_table::ResTable;
use search_paths::Paths;
use std::alloc::{AllocError, Global};
use std::test::Fail;

// A folder with one file, whose call of this number fails.
fn folder(
    alloc: Global,
    name: &[u8],
    bytes: &'static [u8; 7],
    fails: u64,
) -> Result<MemFolder, AllocError> {
    let mut files = Vec::new(alloc);
    files.push(MemFile {
        name: Vec::from_slice(alloc, name)?,
        bytes: Vec::from_slice(alloc, bytes)?,
    })?;
    Ok(MemFolder::create(files, Vec::from_slice(alloc, &[fails])?))
}

// A session over a new store and two folders, whose calls of these numbers fail. Call 0 is the question for `pak0.pak`.
fn session(alloc: Global, first: u64, second: u64) -> Result<Session<PlainStore, MemFolder>, Fail>
    ensures { IfOk result (λ session. session.ended ≡ false) }
{
    let store = PlainStore::create(alloc, 1_048_576, 49_152, USERS)?;
    let mut paths = Paths::create(alloc)?;
    if let Err(error) = paths.mount(alloc, folder(alloc, b"a.cfg", b"echo hi", first)?) {
        return Err(Fail::from(error));
    }
    if let Err(error) = paths.mount(alloc, folder(alloc, b"a.txt", b"1234567", second)?) {
        return Err(Fail::from(error));
    }
    let table = ResTable::create(alloc, 11_025)?;
    Ok(Session::start(store, paths, table)?)
}

#[test]
fn a_session_ends_by_itself(rt: HostRuntime) -> Result<(), Fail> {
    let cases: [(&[u8], u64, u64, StepEnd, &str); 7] = [
        (b"echo b", 9, 9, StepEnd::Went, "a \nb \n"),
        (b"echo b;quit;echo c", 9, 9, StepEnd::Quit, "a \nb \n"),
        (
            b"file a.txt;echo b",
            9,
            1,
            StepEnd::FolderFault { folder: 1 },
            "a \n",
        ),
        (
            b"sound x.wav;echo b",
            9,
            1,
            StepEnd::FolderFault { folder: 1 },
            "a \n",
        ),
        (
            b"exec a.cfg",
            2,
            9,
            StepEnd::FolderFault { folder: 0 },
            "a \n",
        ),
        (
            b"exec a.cfg",
            2,
            1,
            StepEnd::FolderFault { folder: 1 },
            "a \n",
        ),
        (b"echo b01234567", 9, 9, StepEnd::WriteFault, "a \nb0123456"),
    ];
    for (text, first, second, end, put) in cases {
        let mut out = MemSink::create(rt.alloc(), 11, Vec::new(rt.alloc()))?;
        let mut session = session(rt.alloc(), first, second)?;
        assert_eq!(rt; session.step(b"echo a", &mut out), StepEnd::Went);
        assert!(rt; !session.ended(), "before {put}");
        assert_eq!(rt; session.step(text, &mut out), end, "at {put}");
        assert_eq!(rt; session.ended(), end != StepEnd::Went, "at {put}");
        assert_eq!(rt; out.got(), put.as_bytes());
    }
    Ok(())
}

#[test]
fn a_session_is_finished(rt: HostRuntime) -> Result<(), Fail> {
    let cases: [(&[u8], u64, StepEnd, &str); 3] = [
        (b"wait;echo a;wait;echo b", 9, StepEnd::Went, "a \nb \n"),
        (b"wait;echo a;quit;echo b", 9, StepEnd::Quit, "a \n"),
        (
            b"wait;echo a;file b",
            1,
            StepEnd::FolderFault { folder: 1 },
            "a \n",
        ),
    ];
    for (text, fails, end, put) in cases {
        let mut out = MemSink::create(rt.alloc(), 99, Vec::new(rt.alloc()))?;
        let mut session = session(rt.alloc(), 9, fails)?;
        assert_eq!(rt; session.step(text, &mut out), StepEnd::Went, "at {put}");
        assert!(rt; !session.ended(), "before {put}");
        assert_eq!(rt; session.finish(&mut out), end, "at {put}");
        assert!(rt; session.ended(), "after {put}");
        assert_eq!(rt; out.got(), put.as_bytes());
    }
    Ok(())
}

#[test]
fn a_caller_reads_and_sets_cvars(rt: HostRuntime) -> Result<(), Fail> {
    let mut out = MemSink::create(rt.alloc(), 99, Vec::new(rt.alloc()))?;
    let mut session = session(rt.alloc(), 9, 9)?;
    let fov = session.cvar(b"fov").expect(&rt, "a cvar");
    assert_eq!(rt; fov, b"90".as_slice());
    assert_eq!(rt; session.set_cvar(b"fov", b"1 2"), Ok(true));
    assert_eq!(rt; session.step(b"fov;volume 0.5", &mut out), StepEnd::Went);
    assert_eq!(rt; out.got(), b"\"fov\" is \"1 2\"\n".as_slice());
    let volume = session.cvar(b"volume").expect(&rt, "a cvar");
    assert_eq!(rt; volume, b"0.5".as_slice());
    assert_eq!(rt; session.set_cvar(b"Fov", b"3"), Ok(false));
    assert!(rt; session.cvar(b"Fov").is_none());
    Ok(())
}

#[test]
fn strange_commands_are_handed_over(rt: HostRuntime) -> Result<(), Fail> {
    let mut out = MemSink::create(rt.alloc(), 99, Vec::new(rt.alloc()))?;
    let mut session = session(rt.alloc(), 9, 9)?;
    assert_eq!(rt; session.step(b"god", &mut out), StepEnd::Went);
    assert!(rt; session.take_handed().is_none());
    session.hand_over(true);
    assert!(rt; !session.ended());
    let line = b"echo a;fov;give s \"9 9\";echo b;quit";
    assert_eq!(rt; session.step(line, &mut out), StepEnd::Went);
    let handed = session.take_handed().expect(&rt, "a command");
    assert_eq!(rt; handed.text(), b"give s \"9 9\"".as_slice());
    assert_eq!(rt; handed.words().count(), 3);
    assert_eq!(rt; handed.words().word(2), b"9 9".as_slice());
    assert!(rt; session.take_handed().is_none());
    let before = b"Unknown command \"god\"\na \n\"fov\" is \"90\"\n";
    assert_eq!(rt; out.got(), before.as_slice());
    assert!(rt; !session.ended());
    assert_eq!(rt; session.resume(&mut out), StepEnd::Quit);
    assert!(rt; session.take_handed().is_none());
    assert!(rt; out.got().ends_with(b"b \n"));
    Ok(())
}
