// What commands print, and the limits of lines and frames.
use super::{PLAIN, check_answers, check_end, run, sink, source, text};
use std::alloc::{AllocError, Global};
use std::test::Fail;

#[test]
fn commands_are_answered(rt: HostRuntime) -> Result<(), Fail> {
    let cases = [
        ("", ""),
        ("\n;;\n \n ; // x\n", ""),
        ("echo\necho a  b", "\na b \n"),
        ("echo \"a b\" c//d", "a b c//d \n"),
        ("echo x:y", "x : y \n"),
        ("echo a // b; echo c", "a \nc \n"),
        ("echo a // \"; echo b", "a \n"),
        ("echo \"a; echo b\necho c", "a; echo b \nc \n"),
        ("echo a\0b\necho c\0; quit\necho d", "a \nc \nd \n"),
        ("echo a; wait; echo b\necho c", "a \nb \nc \n"),
        ("echo a; wait; echo b", "a \nb \n"),
        ("wait;wait;echo a\n\nWAIT\necho b", "a \nb \n"),
        ("echo a; quit; echo b", "a \n"),
        ("wait;quit;echo a", ""),
        ("wait;quit;echo a\necho b\necho c", ""),
        ("flush;FLUSH x\nflushx", "Unknown command \"flushx\"\n"),
        (
            "ECHO a\nFile a.txt\nEXEC b\nqUiT\necho b",
            "a \nfile a.txt 5 at 49184\ncouldn't exec b\n",
        ),
        (
            "x\nfiles a.txt;\"\" a\necho a",
            "Unknown command \"x\"\nUnknown command \"files\"\nUnknown command \"\"\na \n",
        ),
        (
            "file;file ../a\nfile /a;file \"a:b\";file \"\"",
            "bad name\nbad name\nbad name\nbad name\nbad name\n",
        ),
        ("exec;exec ../x", "bad name\nbad name\n"),
        (
            "file a.txt\nfile b.txt;file maps/m0.bsp x;file A.TXT",
            "file a.txt 5 at 49184\nnot found: b.txt\nfile maps/m0.bsp 16 at 49216\nnot found: A.TXT\n",
        ),
        (
            "file bigger;file big;exec a.cfg",
            "failed on 999424 bytes\nfile big 999391 at 49184\nfailed on 32 bytes\n",
        ),
        (
            "exec a.cfg; echo x\nfile a.txt",
            "execing a.cfg\nhi echo x \nfile a.txt 5 at 49184\n",
        ),
        (
            "exec none.cfg\nwait;exec a.cfg;x\n;",
            "couldn't exec none.cfg\nexecing a.cfg\nhix \n",
        ),
    ];
    for (text, put) in cases {
        check_answers(&rt, rt.alloc(), b"echo hi", text.as_bytes(), put)?;
    }
    Ok(())
}

// What a report says of the zone that was just started.
const ZONE: &str =
    "zone 48 32 used\nzone 80 32 used\nzone 112 32 used\nzone 144 32 used\nzone 176 32 used\nzone 208 32 used\nzone 240 32 used\nzone 272 32 used\nzone 304 48864 free\nrover 304\n";

#[test]
fn blocks_are_asked_for_and_reported(rt: HostRuntime) -> Result<(), Fail> {
    let cases = [
        (
            "file a.txt;report",
            "file a.txt 5 at 49184\nhunk 1048576 low 49200 high 0 room 999376 temp 0\nlow 0 49168 zone\nlow 49168 32 a\n",
        ),
        (
            "video 100 v\nREPORT x",
            "video v 100 at 1048464\nhunk 1048576 low 49168 high 128 room 999280 temp 0\nlow 0 49168 zone\nhigh 1048448 128 v\n",
        ),
        (
            "reserve 1000000 big;report",
            "failed on 1000016 bytes\nhunk 1048576 low 49168 high 0 room 999408 temp 0\nlow 0 49168 zone\n",
        ),
        (
            "video 100 a;video 0200 maps/b.lmp;file a.txt;report",
            "video a 100 at 1048464\nvideo maps/b.lmp 200 at 1048368\nfile a.txt 5 at 49184\nhunk 1048576 low 49200 high 224 room 999152 temp 0\nlow 0 49168 zone\nlow 49168 32 a\nhigh 1048352 224 b\n",
        ),
        (
            "video 100 a;video 1000000 b;report",
            "video a 100 at 1048464\nfailed on 1000016 bytes\nhunk 1048576 low 49168 high 0 room 999408 temp 0\nlow 0 49168 zone\n",
        ),
    ];
    for (text, put) in cases {
        let mut want = String::from_str(rt.alloc(), put)?;
        want.push_str(ZONE)?;
        check_answers(&rt, rt.alloc(), b"", text.as_bytes(), &want)?;
    }
    Ok(())
}

#[test]
fn blocks_are_refused_in_order(rt: HostRuntime) -> Result<(), Fail> {
    let cases = [
        (
            "reserve 999392 big;reserve 0 x",
            "reserve big 999392 at 49184\nfailed on 16 bytes\n",
        ),
        (
            "reserve;reserve x ../a;reserve 1234567890 a;reserve 1;reserve 001 /a;video a b;video 1 ..",
            "bad number\nbad number\nbad number\nbad name\nbad name\nbad number\nbad name\n",
        ),
        (
            "level;reserve 100 x;Level y",
            "level 49168\nreserve x 100 at 49184\nlevel 49296\n",
        ),
    ];
    for (text, put) in cases {
        check_answers(&rt, rt.alloc(), b"", text.as_bytes(), put)?;
    }
    Ok(())
}

#[test]
fn names_stand_for_texts_and_values(rt: HostRuntime) -> Result<(), Fail> {
    let cases = [
        ("alias", "Current alias commands:\n"),
        ("alias a a; a\necho on", "runaway\non \n"),
        (
            "alias hi echo x;ALIAS",
            "Current alias commands:\nhi : echo x \n\n",
        ),
        (
            "alias Hi echo 1;alias hi echo 2;HI;alias",
            "2 \nCurrent alias commands:\nhi : echo 2 \n\nHi : echo 1 \n\n",
        ),
        (
            "alias a echo 1;alias b echo 2;alias a \"echo 3;\" b;a;alias",
            "3 \n2 \nCurrent alias commands:\nb : echo 2 \n\na : echo 3; b \n\n",
        ),
        (
            "alias abcdefghijabcdefghijabcdefghij12 x;alias abcdefghijabcdefghijabcdefghij1 echo y;abcdefghijabcdefghijabcdefghij1",
            "Alias name is too long\ny \n",
        ),
        ("alias quit echo x;quit", ""),
        ("alias volume echo x;volume;VOLUME", "x \nx \n"),
        (
            "alias \"\";alias;\"\";echo y",
            "Current alias commands:\n : \n\ny \n",
        ),
        (
            "volume;VOLUME;volume 0.5 1;volume;volume \"\";volume",
            "\"volume\" is \"0.7\"\nUnknown command \"VOLUME\"\n\"volume\" is \"0.5\"\n\"volume\" is \"\"\n",
        ),
        (
            "developer;bgmvolume;sensitivity;viewsize;crosshair;gamma;fov",
            "\"developer\" is \"0\"\n\"bgmvolume\" is \"1\"\n\"sensitivity\" is \"3\"\n\"viewsize\" is \"100\"\n\"crosshair\" is \"0\"\n\"gamma\" is \"1\"\n\"fov\" is \"90\"\n",
        ),
    ];
    for (text, put) in cases {
        check_answers(&rt, rt.alloc(), b"", text.as_bytes(), put)?;
    }
    Ok(())
}

// A command that sets an alias to 36 words of 27 bytes.
fn add_long_alias(script: &mut Vec<u8>, name: &str) -> Result<(), AllocError> {
    script.extend_from_slice(b"alias ")?;
    script.extend_from_slice(name.as_bytes())?;
    for _ in 0..36 {
        script.extend_from_slice(b" bbbbbbbbbbbbbbbbbbbbbbbbbbb")?;
    }
    script.extend_from_slice(b"\n")?;
    Ok(())
}

#[test]
fn the_zone_holds_so_many_values(rt: HostRuntime) -> Result<(), Fail> {
    let alloc = rt.alloc();
    let words = ["-zone", "4", "-heapsize", "1024", "d"];
    let mut text = Vec::new(alloc);
    for name in ["a", "b", "c", "d"] {
        add_long_alias(&mut text, name)?;
    }
    text.extend_from_slice(b"d\nvolume 0.5;volume")?;
    let mut script = source(alloc, &text)?;
    let mut out = sink(alloc)?;
    let status = run(&rt, alloc, &words, &PLAIN, &mut script, &mut out)?;
    let put = "zone full: 1040 bytes\nUnknown command \"d\"\n\"volume\" is \"0.5\"\n";
    check_end(&rt, &status, &out, 0, "", put);
    Ok(())
}

#[test]
fn an_alias_goes_in_front_where_it_fits(rt: HostRuntime) -> Result<(), Fail> {
    let alloc = rt.alloc();
    let long = "line too long\n";
    let over = "overflow\nline too long\n";
    for (count, want) in [(7181, long), (7182, over)] {
        let mut text = Vec::new(alloc);
        add_long_alias(&mut text, "a")?;
        text.extend_from_slice(b"a;")?;
        text.extend_from_slice(&vec![in alloc; b' '; count]?)?;
        let mut put = String::new(alloc);
        if want == long {
            put.push_str("Unknown command \"bbbbbbbbbbbbbbbbbbbbbbbbbbb\"\n")?;
        }
        put.push_str(want)?;
        check_answers(&rt, alloc, b"", &text, &put)?;
    }
    Ok(())
}

#[test]
fn executed_files_come_before_what_is_left(rt: HostRuntime) -> Result<(), Fail> {
    let alloc = rt.alloc();
    let cases = [
        ("", b' ', 0, "", "x \n"),
        ("echo a", b';', 1, "", "a \nx \n"),
        ("echo a\nwait;echo b;", b' ', 0, "", "a \nb \nx \n"),
        ("quit;", b' ', 0, "", ""),
        ("echo a", b'\0', 1, ";quit", "a echo x \n"),
        ("file a.txt;", b' ', 0, "", "file a.txt 5 at 49184\nx \n"),
        ("", b' ', 8183, "", "line too long\n"),
        ("", b' ', 8184, "", "overflow\nx \n"),
    ];
    for (head, byte, count, tail, put) in cases {
        let config = text(alloc, head, byte, count, tail)?;
        let mut want = String::from_str(alloc, "execing a.cfg\n")?;
        want.push_str(put)?;
        check_answers(&rt, alloc, &config, b"exec a.cfg; echo x", &want)?;
    }
    Ok(())
}

#[test]
fn lines_and_frames_have_limits(rt: HostRuntime) -> Result<(), Fail> {
    let alloc = rt.alloc();
    let cases = [
        ("", b' ', 1023, "\necho on", "on \n"),
        ("", b' ', 1024, "\necho on", "line too long\non \n"),
        ("", b'x', 1030, "", "line too long\n"),
        ("", b'x', 8190, "", "line too long\n"),
        ("", b'x', 8191, "", "overflow\n"),
        ("", b'x', 8190, "\necho on", "line too long\non \n"),
        ("", b'x', 8191, "\necho on", "overflow\non \n"),
        ("", b'x', 20_000, "\necho on", "overflow\non \n"),
        ("echo a\0", b'x', 20_000, "\necho on", "a \non \n"),
        (
            "wait;echo a\n",
            b'x',
            8183,
            "\necho on",
            "a \nline too long\non \n",
        ),
        (
            "wait;echo a\n",
            b'x',
            8184,
            "\necho on",
            "overflow\na \non \n",
        ),
        ("", b';', 4095, "\necho on", "on \n"),
        ("", b';', 4096, "\necho on", "runaway\non \n"),
        ("", b';', 8190, "", "runaway\n"),
        ("", b';', 4095, "wait;echo a\necho on", "a \non \n"),
        ("", b';', 4095, "echo a\n", "a \n"),
        ("", b';', 4095, "quit;\n", ""),
        ("wait", b';', 4096, "", ""),
        ("wait", b';', 4097, "", "runaway\n"),
        ("wait", b';', 4095, "wait;wait;echo a", "runaway\n"),
    ];
    for (head, byte, count, tail, put) in cases {
        let text = text(alloc, head, byte, count, tail)?;
        check_answers(&rt, alloc, b"", &text, put)?;
    }
    Ok(())
}

#[test]
fn a_file_that_executes_itself_runs_away(rt: HostRuntime) -> Result<(), Fail> {
    let alloc = rt.alloc();
    let mut want = String::new(alloc);
    for _ in 0..4096 {
        want.push_str("execing a.cfg\n")?;
    }
    want.push_str("runaway\non \n")?;
    check_answers(&rt, alloc, b"exec a.cfg\n", b"exec a.cfg\necho on", &want)?;
    Ok(())
}
