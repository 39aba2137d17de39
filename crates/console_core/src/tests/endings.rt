// How runs end, and what they leave.
use super::{Disk, PLAIN, WORDS, bytes_read, check_end, run, sink, source, text};
use crate::Status;
use outside_io::{Folder, MemSink, MemSource, Sink};
use std::test::Fail;

#[test]
fn a_long_script_is_refused(rt: HostRuntime) -> Result<(), Fail> {
    let alloc = rt.alloc();
    let long = "script too long";
    for (head, byte, count, tail, code, line, put, left) in [
        ("", b'\n', 1_048_576, "", 0, "", "", 0),
        ("", b'\n', 1_048_577, "", 8, long, "", 0),
        ("echo a\n", b'x', 1_048_569, "", 0, "", "a \noverflow\n", 0),
        // The limit stands behind `echo c`, so this is no whole line, and no frame of the end runs.
        (
            "echo a\n",
            b'x',
            1_048_550,
            "\nwait;echo b\necho c\nx",
            8,
            long,
            "a \noverflow\n",
            1,
        ),
        (
            "",
            b'x',
            1_048_570,
            "\nquit\necho b",
            0,
            "",
            "overflow\n",
            6,
        ),
        // A read asks for 4096 bytes at most.
        ("quit\n", b'x', 5000, "", 0, "", "", 909),
    ] {
        let text = text(alloc, head, byte, count, tail)?;
        let mut script = source(alloc, &text)?;
        let mut out = sink(alloc)?;
        let status = run(&rt, alloc, &WORDS, &PLAIN, &mut script, &mut out)?;
        check_end(&rt, &status, &out, code, line, put);
        assert_eq!(rt; bytes_read(&mut script), Some(left), "{head} {tail}");
    }
    Ok(())
}

#[test]
fn lines_are_run_before_the_next_read(rt: HostRuntime) -> Result<(), Fail> {
    let alloc = rt.alloc();
    let fault = "script read fault";
    for (text, piece, fails, code, line, put, left) in [
        ("echo a\n", 7, 1, 5, fault, "a \n", 0),
        ("echo a\n", 7, 0, 5, fault, "", 7),
        ("echo a\necho b", 8, 1, 5, fault, "a \n", 5),
        ("echo a\necho b", 13, 1, 5, fault, "a \n", 0),
        ("wait;echo a\n", 12, 1, 5, fault, "", 0),
        (
            "echo a\necho b\nx",
            3,
            9,
            0,
            "",
            "a \nb \nUnknown command \"x\"\n",
            0,
        ),
        ("echo a;quit;echo b\necho c\n", 19, 9, 0, "", "a \n", 7),
        ("echo a\nquit\nx\necho b", 12, 9, 0, "", "a \n", 8),
        ("echo a;quit", 11, 9, 0, "", "a \n", 0),
        ("echo a;quit", 11, 1, 5, fault, "", 0),
    ] {
        let bytes = Vec::from_slice(alloc, text.as_bytes())?;
        let mut script = MemSource::create(bytes, piece, Vec::from_slice(alloc, &[fails])?);
        let mut out = sink(alloc)?;
        let status = run(&rt, alloc, &WORDS, &PLAIN, &mut script, &mut out)?;
        check_end(&rt, &status, &out, code, line, put);
        assert_eq!(rt; bytes_read(&mut script), Some(left), "{text} at {fails}");
    }
    Ok(())
}

#[test]
fn a_failed_put_is_told(rt: HostRuntime) -> Result<(), Fail> {
    let alloc = rt.alloc();
    for (head, count, capacity, fails, put) in [
        ("echo abc", 0, 3, 99, "abc"),
        ("echo abc", 0, 4, 99, "abc "),
        ("echo abc", 0, 99, 0, ""),
        ("echo abc\nx", 0, 12, 99, "abc \nUnknown"),
        ("echo abc\nexec a.cfg", 0, 15, 99, "abc \nexecing a."),
        ("echo abc\n", 8191, 9, 99, "abc \nover"),
        ("echo abc;", 4095, 8, 99, "abc \nrun"),
    ] {
        let text = text(alloc, head, b';', count, "\necho on")?;
        let mut script = source(alloc, &text)?;
        let mut out = MemSink::create(alloc, capacity, Vec::from_slice(alloc, &[fails])?)?;
        let status = run(&rt, alloc, &WORDS, &PLAIN, &mut script, &mut out)?;
        check_end(&rt, &status, &out, 7, "write fault", put);
    }
    Ok(())
}

#[test]
fn faulty_words_leave_all_untouched(rt: HostRuntime) -> Result<(), Fail> {
    let alloc = rt.alloc();
    let usage = "usage: quake_cli [-heapsize KB] [-zone KB] [-speed HZ] folder ...";
    let small = "heap too small";
    let cases: [(&[&str], u8, &str, Option<u32>); 9] = [
        (&[], 1, usage, Some(0)),
        (&["-speed", "999", "d"], 1, usage, Some(1)),
        (&["-heapsize", "12", "d"], 1, usage, Some(1)),
        (&["d", "-zone"], 1, usage, Some(1)),
        (
            &["a", "b", "c", "d", "e", "f", "g", "h", "i"],
            1,
            usage,
            Some(8),
        ),
        (&["-heapsize", "1024"], 1, usage, Some(2)),
        (&["-zone", "48", "-heapsize", "d"], 1, usage, Some(3)),
        (&["-heapsize", "1024", "-zone", "1024", "d"], 3, small, None),
        (&["-zone", "65536", "d"], 3, small, None),
    ];
    for (words, code, line, number) in cases {
        let bytes = Vec::from_slice(alloc, b"echo a\n")?;
        let mut script = MemSource::create(bytes, 99, Vec::from_slice(alloc, &[0])?);
        let mut out = MemSink::create(alloc, 99, Vec::from_slice(alloc, &[0])?)?;
        let status = run(&rt, alloc, words, &PLAIN, &mut script, &mut out)?;
        check_end(&rt, &status, &out, code, line, "");
        match status {
            Status::Usage { word } => assert_eq!(rt; Some(word), number, "{words:?}"),
            _ => assert_eq!(rt; None, number, "{words:?}"),
        }
        // The first read and the first put are still to come.
        assert_eq!(rt; bytes_read(&mut script), None, "{words:?}");
        assert_eq!(rt; bytes_read(&mut script), Some(7), "{words:?}");
        assert!(rt; out.put(b"x").is_err(), "{words:?}");
    }
    Ok(())
}

#[test]
fn the_heap_has_its_size(rt: HostRuntime) -> Result<(), Fail> {
    let alloc = rt.alloc();
    let text = b"file bigger;file big";
    let both = "file bigger 999392 at 49184\nfile big 999391 at 1048608\n";
    let cases: [(&[&str], &str); 4] = [
        (&["d"], both),
        (&["-heapsize", "65536", "d"], both),
        (
            &["-zone", "1023", "-heapsize", "1024", "d"],
            "failed on 999424 bytes\nfailed on 999408 bytes\n",
        ),
        (
            &["-heapsize", "1024", "d"],
            "failed on 999424 bytes\nfile big 999391 at 49184\n",
        ),
    ];
    for (words, put) in cases {
        let mut script = source(alloc, text)?;
        let mut out = sink(alloc)?;
        let status = run(&rt, alloc, words, &PLAIN, &mut script, &mut out)?;
        check_end(&rt, &status, &out, 0, "", put);
    }
    Ok(())
}

#[test]
fn a_fault_hands_the_folder_back(rt: HostRuntime) -> Result<(), Fail> {
    let alloc = rt.alloc();
    let first = "x \nfile a.txt 5 at 49184\n";
    let second = "x \nfile a.txt 5 at 49184\nexecing a.cfg\nhi \n";
    // Call 0 asks for `pak0.pak`.
    let cases: [(&[&str], u32, u64, &str); 7] = [
        (&["d"], 0, 0, ""),
        (&["d"], 0, 1, "x \n"),
        (&["d"], 0, 5, second),
        (&WORDS, 2, 2, "x \n"),
        (&WORDS, 2, 3, first),
        (&WORDS, 2, 4, first),
        (&WORDS, 2, 5, second),
    ];
    for (words, number, fails, put) in cases {
        let mut script = source(alloc, b"echo x;file a.txt\nexec a.cfg\nfile b.txt\necho y")?;
        let mut out = sink(alloc)?;
        let disk = Disk {
            config: b"echo hi",
            fails: &[fails],
        };
        let status = run(&rt, alloc, words, &disk, &mut script, &mut out)?;
        check_end(&rt, &status, &out, 6, "folder read fault", put);
        match status {
            Status::FolderFault { word, folder } => {
                assert_eq!(rt; word, number, "at {fails}");
                assert_eq!(rt; folder.faults_seen(), 1, "at {fails}");
                assert_eq!(rt; folder.calls_seen(), fails + 1, "at {fails}");
            }
            _ => assert!(rt; false, "at {fails}"),
        }
    }
    Ok(())
}

#[test]
fn want_of_memory_is_told(rt: HostRuntime) -> Result<(), Fail> {
    let out = sink(rt.alloc())?;
    check_end(&rt, &Status::OutOfMemory, &out, 2, "out of memory", "");
    Ok(())
}
