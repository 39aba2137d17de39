use super::*;

const LONGEST: &str = "a23456789b123456789c123456789d123456789e123456789f123456789g123";

// The first 59 bytes of that one, and the ending of a map.
const LONGEST_MAP: &str = "a23456789b123456789c123456789d123456789e123456789f123456789.bsp";

#[test]
fn takes_the_lawful_names(rt: HostRuntime) {
    let lawful = ["a", "a//b", "./a", "..a", "a/...", "a ~", "a/", LONGEST];
    for word in lawful {
        match game_name(word.as_bytes()) {
            Ok(name) => assert_eq!(rt; name.bytes(), word.as_bytes(), "at {word}"),
            Err(BadName) => assert!(rt; false, "refused {word}"),
        }
    }
    let unlawful = [
        "", "..", "../a", "a/..", "a/../b", "/a", "c:a", "a\\b", "a\0", "a\x7f",
    ];
    for word in unlawful {
        assert!(rt; game_name(word.as_bytes()).is_err(), "took {word:?}");
    }
    let too_long = [b'a'; 64];
    assert!(rt; game_name(&too_long).is_err());
}

#[test]
fn joins_the_lawful_names(rt: HostRuntime) {
    let cases = [
        ("sound/", "a.wav", "", Some("sound/a.wav")),
        ("maps/", "m0", ".bsp", Some("maps/m0.bsp")),
        ("", "a", "", Some("a")),
        ("", &LONGEST[..59], ".bsp", Some(LONGEST_MAP)),
        ("", &LONGEST[..60], ".bsp", None),
        ("sound/", &LONGEST[..58], "", None),
        ("sound/", "", "", None),
        ("maps/", "", ".bsp", None),
        ("maps/", "../m0", ".bsp", None),
        (".", ".", "", None),
        ("", "/a", "", None),
        ("sound/", "a b", "\0", None),
    ];
    for (front, word, back, want) in cases {
        match joined(front.as_bytes(), word.as_bytes(), back.as_bytes()) {
            Ok(name) => assert_eq!(rt;
                Some(name.bytes()),
                want.map(|name| name.as_bytes()),
                "at {word}"
            ),
            Err(BadName) => assert!(rt; want.is_none(), "refused {word}"),
        }
    }
}

#[test]
fn a_name_is_known_by_its_bytes(rt: HostRuntime) {
    if let (Ok(name), Ok(other)) = (game_name(b"a/b"), game_name(b"a/B")) {
        assert_eq!(rt; name.copied(), name);
        assert!(rt; name != other);
        assert_eq!(rt; name.copied().bytes(), b"a/b".as_slice());
        return;
    }
    assert!(rt; false, "refused");
}

#[test]
fn cuts_the_base(rt: HostRuntime) {
    let cases = [
        ("maps/m0.bsp", "m0"),
        (".cfg", "?"),
        ("a/", "?"),
        ("a.b.c", "a"),
        ("x/y.z/w.v", "w"),
        ("progs", "progs"),
        (LONGEST, LONGEST),
    ];
    for (word, want) in cases {
        match game_name(word.as_bytes()) {
            Ok(name) => assert_eq!(rt; name.base(), want.as_bytes(), "at {word}"),
            Err(BadName) => assert!(rt; false, "refused {word}"),
        }
    }
}

#[test]
fn reads_decimals(rt: HostRuntime) {
    let cases = [
        ("7", Ok(7)),
        ("007", Ok(7)),
        ("999999999", Ok(999_999_999)),
        ("", Err(BadNumber)),
        ("1000000000", Err(BadNumber)),
        ("1a", Err(BadNumber)),
        ("+5", Err(BadNumber)),
        ("-5", Err(BadNumber)),
        (" 5", Err(BadNumber)),
    ];
    for (word, want) in cases {
        assert_eq!(rt; decimal(word.as_bytes()), want, "at {word:?}");
    }
}

#[test]
fn reads_and_puts_numbers_in_bytes(rt: HostRuntime) {
    let mut bytes = [0xfe, 0xff, 0x01, 0x80, 0x00, 0x00, 0x80];
    let cases = [
        (0, 0xfffe, -2, 0x8001_fffe, -0x7ffe_0002),
        (1, 0x01ff, 0x01ff, 0x0080_01ff, 0x0080_01ff),
        (2, 0x8001, -0x7fff, 0x0000_8001, 0x8001),
        (3, 0x0080, 0x0080, 0x8000_0080, -0x7fff_ff80),
    ];
    for (at, short, signed_short, long, signed_long) in cases {
        assert!(rt; at <= 3);
        assert_eq!(rt; u16_at(&bytes, at), short, "at {at}");
        assert_eq!(rt; i16_at(&bytes, at), signed_short, "at {at}");
        assert_eq!(rt; u32_at(&bytes, at), long, "at {at}");
        assert_eq!(rt; i32_at(&bytes, at), signed_long, "at {at}");
    }
    put_u32(&mut bytes, 2, 0x1234_5678);
    assert_eq!(rt; bytes, [0xfe, 0xff, 0x78, 0x56, 0x34, 0x12, 0x80]);
    let mut word = [0; 4];
    fill_u32(&mut word, 0x9abc_def0);
    assert_eq!(rt; word, [0xf0, 0xde, 0xbc, 0x9a]);
}
