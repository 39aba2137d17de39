// Games that are made from numbers.
use crate::games::{game_folder, number_asked};
use console_core::{Status, quake_main};
use outside_io::{Folder, MemFolder, MemSink, MemSource};
use std::alloc::{AllocError, Global};
use std::process::Abort;
use std::test::Fail;

#[test]
fn words_ask_for_games(rt: HostRuntime) {
    let cases: [(&[u8], Option<u32>); 9] = [
        (b"gen:7", Some(7)),
        (b"gen:000000007", Some(7)),
        (b"gen:999999999", Some(999_999_999)),
        (b"gen:1000000000", None),
        (b"gen:", None),
        (b"gen", None),
        (b"gen:-1", None),
        (b"Gen:7", None),
        (b"./gen:7", None),
    ];
    for (word, number) in cases {
        assert_eq!(rt; number_asked(word), number);
    }
}

// Runs the script of the game of a number on the smallest heap.
fn play(
    rt: &impl Abort,
    alloc: Global,
    number: u32,
    out: &mut MemSink,
) -> Result<Status, AllocError> {
    let mut words = Vec::new(alloc);
    let mut folders: Vec<Box<dyn Folder>> = Vec::new(alloc);
    for word in ["-heapsize", "1024"] {
        words.push(String::from_str(alloc, word)?)?;
        let unused = MemFolder::create(Vec::new(alloc), Vec::new(alloc));
        folders.push(Box::new(alloc, unused)?)?;
    }
    words.push(String::from_str(alloc, "gen")?)?;
    folders.push(Box::new(alloc, game_folder(alloc, number)?)?)?;
    assert!(rt; words.len() < 100);
    assert_eq!(rt; folders.len(), words.len());
    let text = Vec::from_slice(alloc, b"exec gen.cfg\n")?;
    let mut script = MemSource::create(text, 100, Vec::new(alloc));
    Ok(quake_main(alloc, &words, folders, &mut script, out))
}

#[test]
fn a_game_is_loaded_and_reported(rt: HostRuntime) -> Result<(), Fail> {
    for number in [7, 999_999_999] {
        let mut out = MemSink::create(rt.alloc(), 100_000, Vec::new(rt.alloc()))?;
        let status = play(&rt, rt.alloc(), number, &mut out)?;
        assert!(rt; matches!(status, Status::Done));
        for (number, line) in out.got().split(|byte| *byte == b'\n').enumerate() {
            match number {
                0 => assert!(rt; line == b"execing gen.cfg".as_slice()),
                1..257 => assert!(rt; line.ends_with(b" loaded") || line.ends_with(b" present")),
                257 => assert!(rt; line.starts_with(b"hunk 1048576 low ")),
                _ => {}
            }
        }
    }
    Ok(())
}
