use super::*;
use std::alloc::{AllocError, Global};
use std::test::Fail;

fn strings(alloc: Global, words: &[&str]) -> Result<Vec<String>, AllocError> {
    let mut strings = Vec::new(alloc);
    for word in words {
        strings.push(String::from_str(alloc, word)?)?;
    }
    Ok(strings)
}

#[test]
fn words_ask_or_break_the_rule(rt: HostRuntime) -> Result<(), Fail> {
    let alloc = rt.alloc();
    let asked = |heap, zone, speed, first, folders| {
        Ok(Request {
            heap,
            zone,
            speed,
            first,
            folders,
        })
    };
    let usage = |word| Err(UsageError { word });
    let cases: [(&[&str], Result<Request, UsageError>); 30] = [
        (&[], usage(0)),
        (&["d"], asked(16384, 48, 11025, 0, 1)),
        (&["d", "e"], asked(16384, 48, 11025, 0, 2)),
        (&["d", "e", "f"], usage(2)),
        (
            &["-zone", "1024", "-heapsize", "1024", "d"],
            asked(1024, 1024, 11025, 4, 1),
        ),
        (
            &["-heapsize", "65536", "-zone", "0004", "d"],
            asked(65536, 4, 11025, 4, 1),
        ),
        (&["-zone", "65536", "d", "-"], usage(3)),
        (&["-heapsize"], usage(1)),
        (&["-heapsize", "1024"], usage(2)),
        (&["-heapsize", "12", "d"], usage(1)),
        (&["-heapsize", "1023", "d"], usage(1)),
        (&["-heapsize", "65537", "d"], usage(1)),
        (&["-heapsize", "-zone", "d"], usage(1)),
        (&["-zone", "3", "d"], usage(1)),
        (&["-zone", "65537", "d"], usage(1)),
        (&["-zone", "+48", "d"], usage(1)),
        (&["-zone", "48", "-zone", "48", "d"], usage(2)),
        (&["-zone", "48", "-heapsize"], usage(3)),
        (
            &["-speed", "96000", "-zone", "48", "-heapsize", "2048", "d"],
            asked(2048, 48, 96000, 6, 1),
        ),
        (&["-speed", "1000", "d"], asked(16384, 48, 1000, 2, 1)),
        (&["-speed", "999", "d"], usage(1)),
        (&["-speed", "96001", "d"], usage(1)),
        (&["-speed", "11025", "-speed", "11025", "d"], usage(2)),
        (&["-speed", "-zone", "d"], usage(1)),
        (&["-Speed", "11025", "d"], usage(0)),
        (&["-heapsize ", "1024", "d"], usage(0)),
        (&["-"], usage(0)),
        (&[""], usage(0)),
        (&["d", ""], usage(1)),
        (&["d", "-zone", "48"], usage(1)),
    ];
    for (words, want) in cases {
        let words = strings(alloc, words)?;
        assert!(rt; words.len() < 100);
        assert_eq!(rt; request_of(&words, 2), want, "{words:?}");
    }
    Ok(())
}
