//! What no clause says: vectors from outside, and that calls succeed.

ghost use Rattle.cmd_buffer.specs.Aliases.{HoldsAliases};

use super::*;
use base_fields::before_zero;
use mem_model::{PlainStore, Store, ZoneError};
use std::test::Fail;

#[test]
fn finds_words(rt: HostRuntime) {
    let cases = [
        ("", 0, ["", "", "", ""]),
        (" \t\n\r\0 ", 0, ["", "", "", ""]),
        ("map  e1m1\t", 2, ["map", "e1m1", "", ""]),
        ("\"a b\" c//d", 2, ["a b", "c//d", "", ""]),
        ("x:y", 3, ["x", ":", "y", ""]),
        ("{}(')", 5, ["{", "}", "(", "'"]),
        ("a // b", 1, ["a", "", "", ""]),
        ("a / b", 3, ["a", "/", "b", ""]),
        ("///", 0, ["", "", "", ""]),
        ("\"a\"// b", 1, ["a", "", "", ""]),
        (":// b", 1, [":", "", "", ""]),
        ("\"//\" b", 2, ["//", "b", "", ""]),
        ("\"\" b \"", 3, ["", "b", "", ""]),
        ("\"a\"b\"c d", 3, ["a", "b\"c", "d", ""]),
        ("\"a:b", 1, ["a:b", "", "", ""]),
        (
            "\u{80}\u{ff}\u{7f} b",
            2,
            ["\u{80}\u{ff}\u{7f}", "b", "", ""],
        ),
    ];
    for (text, count, first) in cases {
        let words = tokenize(text.as_bytes());
        assert_eq!(rt; words.count(), count, "at {text:?}");
        for (number, word) in first.iter().enumerate() {
            assert_eq!(rt;
                words.word(number),
                word.as_bytes(),
                "word {number} of {text:?}"
            );
        }
    }
}

#[test]
fn keeps_eighty_words(rt: HostRuntime) {
    let text = [b':'; 81];
    let words = tokenize(&text);
    assert_eq!(rt; words.count(), 80);
    for (number, want) in [(79, ":"), (80, ""), (usize::MAX, "")] {
        assert_eq!(rt; words.word(number), want.as_bytes(), "word {number}");
    }
}

// Takes a command, and says whether it has this text.
fn takes(buffer: &mut CmdBuffer, want: &[u8]) -> bool {
    let mut text = CommandText::new();
    match buffer.take(&mut text) {
        Some(Taken::Text) => text.as_slice() == want,
        Some(Taken::TooLong) | None => false,
    }
}

#[test]
fn cuts_commands(rt: HostRuntime) {
    let cases = [
        ("", 0, ["", "", ""]),
        ("a;b\nc", 3, ["a", "b", "c"]),
        ("a\n", 1, ["a", "", ""]),
        (";;\n", 3, ["", "", ""]),
        ("\"a;b\";c", 2, ["\"a;b\"", "c", ""]),
        ("a\";b\nc", 2, ["a\";b", "c", ""]),
        ("a // \"; b\"; c", 2, ["a // \"; b\"", " c", ""]),
        ("a\0;b", 2, ["a\0", "b", ""]),
    ];
    for (text, count, first) in cases {
        let mut buffer = CmdBuffer::create();
        assert_eq!(rt; buffer.add(text.as_bytes()), Ok(()), "at {text:?}");
        for want in first.iter().take(count) {
            assert!(rt;
                takes(&mut buffer, want.as_bytes()),
                "no {want:?} at {text:?}"
            );
        }
        assert!(rt;
            buffer.take(&mut CommandText::new()).is_none(),
            "more than {count} at {text:?}"
        );
    }
}

#[test]
fn keeps_its_order(rt: HostRuntime) {
    let mut buffer = CmdBuffer::create();
    assert_eq!(rt; buffer.add(b"a;b;c"), Ok(()));
    assert!(rt; takes(&mut buffer, b"a"));
    assert_eq!(rt; buffer.insert(b"\n"), Ok(()));
    assert_eq!(rt; buffer.insert(b"x;y"), Ok(()));
    assert_eq!(rt; buffer.add(b"d\n"), Ok(()));
    for want in ["x", "y", "b", "cd"] {
        assert!(rt; takes(&mut buffer, want.as_bytes()), "no {want}");
    }
    assert_eq!(rt; buffer.used(), 0);
    assert_eq!(rt; buffer.add(b"e"), Ok(()));
    buffer.clear();
    assert!(rt; buffer.take(&mut CommandText::new()).is_none());
}

#[test]
fn keeps_its_limits(rt: HostRuntime) {
    let text = [b'x'; 8192];
    let mut buffer = CmdBuffer::create();
    assert_eq!(rt; buffer.add(&text), Err(Overflow));
    assert_eq!(rt; buffer.insert(&text), Err(Overflow));
    assert_eq!(rt; buffer.used(), 0);
    assert_eq!(rt; buffer.add(&text[..8190]), Ok(()));
    assert_eq!(rt; buffer.insert(b";"), Ok(()));
    assert_eq!(rt; buffer.add(b"y"), Err(Overflow));
    assert_eq!(rt; buffer.insert(b"y"), Err(Overflow));
    assert_eq!(rt; buffer.used(), 8191);
    assert!(rt; takes(&mut buffer, b""));
    assert!(rt; matches!(buffer.take(&mut CommandText::new()), Some(Taken::TooLong)));
    assert_eq!(rt; buffer.used(), 0);
    for (length, is_kept) in [(1023, true), (1024, false)] {
        assert_eq!(rt; buffer.add(&text[..length]), Ok(()));
        assert_eq!(rt; buffer.add(b"\nz"), Ok(()));
        assert_eq!(rt; takes(&mut buffer, &text[..length]), is_kept, "at {length}");
        assert!(rt; takes(&mut buffer, b"z"), "behind {length}");
    }
}

// No alias, in a store.
fn no_aliases<M: Store>(_store: &M) -> Aliases
    ensures { HoldsAliases (M.state _store.now) result }
{
    Aliases::create()
}

// Sets the aliases of some names to the first 64 bytes of their values, and stops at the first that is refused.
fn set_all<M: Store>(
    aliases: &mut Aliases,
    store: &mut M,
    texts: &[(&str, &str)],
) -> Result<(), AliasError>
    requires holds { HoldsAliases (M.state store.old) aliases.old }
    ensures holds { HoldsAliases (M.state store.new) aliases.new }
{
    for (name, value) in texts {
        let value = value.as_bytes();
        let first = before_zero(&value[..value.len().min(64)]);
        match aliases.set(store, before_zero(name.as_bytes()), first) {
            Ok(()) => {}
            Err(error) => return Err(error),
        }
    }
    Ok(())
}

// Whether the aliases have these names and values, the newest first.
fn are_texts<M: Store>(aliases: &Aliases, store: &M, texts: &[(&str, &str)]) -> bool
    requires holds { HoldsAliases (M.state store.now) aliases.now }
{
    let mut left = *aliases;
    for (name, value) in texts {
        if left.row(store, 0) != Some((name.as_bytes(), value.as_bytes())) {
            return false;
        }
        left = left.older(store);
    }
    left.row(store, 0).is_none()
}

#[test]
fn aliases_are_found_in_any_case(rt: HostRuntime) -> Result<(), Fail> {
    let mut store = PlainStore::create(rt.alloc(), 65_536, 49_152, 8)?;
    let mut aliases = no_aliases(&store);
    assert_eq!(rt; aliases.find(&store, b"hi"), None);
    let texts = [
        ("hi", "echo x \n"),
        ("bye", "quit \n"),
        ("HI", "echo X \n"),
        ("", "\n"),
        ("hi", "echo a longer text than before \n"),
    ];
    set_all(&mut aliases, &mut store, &texts)?;
    for (name, value) in [
        ("hi", Some("echo X \n")),
        ("Hi", Some("echo X \n")),
        ("BYE", Some("quit \n")),
        ("", Some("\n")),
        ("h", None),
        ("hi ", None),
    ] {
        let got = aliases.find(&store, name.as_bytes());
        assert_eq!(rt; got, value.map(|value| value.as_bytes()), "at {name:?}");
    }
    let now = [texts[3], texts[2], texts[1], texts[4]];
    assert!(rt; are_texts(&aliases, &store, &now));
    for (number, name) in [
        (0, Some("")),
        (2, Some("bye")),
        (3, Some("hi")),
        (4, None),
        (u32::MAX, None),
    ] {
        let got = aliases.row(&store, number).map(|row| row.0);
        assert_eq!(rt; got, name.map(|name| name.as_bytes()), "row {number}");
    }
    Ok(())
}

#[test]
fn long_names_are_refused(rt: HostRuntime) -> Result<(), Fail> {
    let mut store = PlainStore::create(rt.alloc(), 65_536, 49_152, 8)?;
    let mut aliases = no_aliases(&store);
    let long = ("abcdefghijabcdefghijabcdefghij12", "x");
    let longest = ("abcdefghijabcdefghijabcdefghij1", "x");
    let refused = set_all(&mut aliases, &mut store, &[long]);
    assert_eq!(rt; refused, Err(AliasError::LongName));
    assert_eq!(rt; set_all(&mut aliases, &mut store, &[longest]), Ok(()));
    assert!(rt; are_texts(&aliases, &store, &[longest]));
    Ok(())
}

#[test]
fn a_full_zone_refuses(rt: HostRuntime) -> Result<(), Fail> {
    // There are 64 bytes for blocks, and a record needs 72.
    let mut tiny = PlainStore::create(rt.alloc(), 65_536, 96, 8)?;
    let mut none = no_aliases(&tiny);
    let record = set_all(&mut none, &mut tiny, &[("a", "x")]);
    assert_eq!(rt;
        record,
        Err(AliasError::Zone(ZoneError::Full { asked: 72 }))
    );
    // There are 96, which the record takes until its value is refused.
    let mut small = PlainStore::create(rt.alloc(), 65_536, 128, 8)?;
    let mut freed = no_aliases(&small);
    let value = set_all(&mut freed, &mut small, &[("a", "x")]);
    assert_eq!(rt; value, Err(AliasError::Zone(ZoneError::Full { asked: 32 })));
    assert_eq!(rt; small.zone_row(0).map(|row| row.used), Some(false));
    assert!(rt; are_texts(&freed, &small, &[]));
    // There are 144, which a record and its value take.
    let mut store = PlainStore::create(rt.alloc(), 65_536, 176, 8)?;
    let mut aliases = no_aliases(&store);
    let other = set_all(&mut aliases, &mut store, &[("a", "x"), ("a", "y")]);
    assert_eq!(rt; other, Err(AliasError::Zone(ZoneError::Full { asked: 32 })));
    assert!(rt; are_texts(&aliases, &store, &[("a", "x")]));
    Ok(())
}

// Sets an alias of each letter.
fn set_each<M: Store>(
    aliases: &mut Aliases,
    store: &mut M,
    letters: &[u8],
) -> Result<(), AliasError>
    requires holds { HoldsAliases (M.state store.old) aliases.old }
    ensures holds { HoldsAliases (M.state store.new) aliases.new }
{
    for letter in letters {
        let name = [*letter];
        match aliases.set(store, before_zero(&name), b"x") {
            Ok(()) => {}
            Err(error) => return Err(error),
        }
    }
    Ok(())
}

#[test]
fn many_aliases_keep_their_order(rt: HostRuntime) -> Result<(), Fail> {
    let mut store = PlainStore::create(rt.alloc(), 65_536, 49_152, 8)?;
    let mut aliases = no_aliases(&store);
    let letters = b"abcdefghijklmnopqrstuvwxyzABCDEFGHIJKLMNOPQRSTUVWXYZ0123456789";
    set_each(&mut aliases, &mut store, letters)?;
    set_each(&mut aliases, &mut store, letters)?;
    for (number, name) in [(0, Some("9")), (61, Some("a")), (62, None)] {
        let got = aliases.row(&store, number).map(|row| row.0);
        assert_eq!(rt; got, name.map(|name| name.as_bytes()), "row {number}");
    }
    Ok(())
}
