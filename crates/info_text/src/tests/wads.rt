// What wads and their pictures say.
use super::{BYTES, FIRST, SECOND, joined, tells};
use crate::wads::info_wad;
use crate::{LumpError, put_lump_error, put_picture};
use base_fields::game_name;
use outside_io::MemSink;
use res_table::Fault;
use std::alloc::{AllocError, Global};
use std::test::Fail;
use wad2_lumps::{WadFault, check_wad, cleaned, picture};

// A wad of two lumps: a picture of 2 x 1 at 12, four bytes at 22, and the table at 26.
const HEADER: &[u8] = b"WAD2\x02\0\0\0\x1a\0\0\0";

const LUMPS: &[u8] = b"\x02\0\0\0\x01\0\0\0\x0a\x0babcd";

const PIC: &[u8] = b"\x0c\0\0\0\x0a\0\0\0\x0a\0\0\0\x42\0\0\0PIC\0\0\0\0\0\0\0\0\0\0\0\0\0";

const SQUASHED: &[u8] = b"\x16\0\0\0\x04\0\0\0\x04\0\0\0\x42\x01\0\0SQUASHED\0\0\0\0\0\0\0\0";

const TWO_LINES: &[u8] = b"lump 0 PIC type 66 size 10 compression 0\n\
    lump 1 SQUASHED type 66 size 4 compression 1\n";

// A wad of four rows that differ in their names, with the table at 12.
const FOUR: &[u8] = b"WAD2\x04\0\0\0\x0c\0\0\0";

const LONG: &[u8] = b"\x01\0\0\0\x02\0\0\0\xff\xff\xff\xff\xff\xfe\0\0Sixteen_Letters!";

const ENDED: &[u8] = b"\x01\0\0\0\x02\0\0\0\x03\0\0\0\x04\x05\x06\x07a\xc8b\0c\xc8defghijklm";

const EDGES: &[u8] = b"\x01\0\0\0\x02\0\0\0\0\x01\0\0\0\0\0\0\x1f ~\x7f\0\0\0\0\0\0\0\0\0\0\0\0";

const NAMELESS: &[u8] = b"\0\0\0\0\0\0\0\0\0\0\0\0\0\0\0\0\0abcdefghijklmno";

const FOUR_LINES: &[u8] = b"lump 0 Sixteen_Letters! type 255 size 4294967295 compression 254\n\
    lump 1 a?b type 4 size 3 compression 5\n\
    lump 2 ? ~? type 0 size 256 compression 0\n\
    lump 3  type 0 size 0 compression 0\n";

#[test]
fn a_wad_has_a_line_for_each_lump(rt: HostRuntime) -> Result<(), Fail> {
    let alloc = rt.alloc();
    let name = game_name(b"w.wad").expect(&rt, "a name");
    let cases: [(&[&[u8]], &[&[u8]]); 3] = [
        (
            &[HEADER, LUMPS, PIC, SQUASHED],
            &[b"wad w.wad lumps 2\n", TWO_LINES],
        ),
        (
            &[FOUR, LONG, ENDED, EDGES, NAMELESS],
            &[b"wad w.wad lumps 4\n", FOUR_LINES],
        ),
        (&[b"WAD2\0\0\0\0\x0c\0\0\0"], &[b"wad w.wad lumps 0\n"]),
    ];
    for (parts, lines) in cases {
        let file = joined(alloc, parts)?;
        let text = joined(alloc, lines)?;
        assert!(rt; check_wad(&file).is_ok());
        let mut out = MemSink::create(alloc, 300, Vec::new(alloc))?;
        info_wad(&name, &file, &mut out)?;
        assert_eq!(rt; out.got(), text.as_slice());
    }
    Ok(())
}

// Each sink has room for so many bytes, and its put of this number fails. The title has five puts, and a line eleven.
#[test]
fn the_lines_of_a_wad_are_cut_where_a_put_fails(rt: HostRuntime) -> Result<(), Fail> {
    let alloc = rt.alloc();
    let name = game_name(b"w.wad").expect(&rt, "a name");
    let file = joined(alloc, &[HEADER, LUMPS, PIC, SQUASHED])?;
    let text = joined(alloc, &[b"wad w.wad lumps 2\n", TWO_LINES])?;
    assert!(rt; check_wad(&file).is_ok());
    for (capacity, fails, length) in [(10, 99, 10), (300, 5, 18), (300, 16, 59), (103, 99, 103)] {
        let fails = Vec::from_slice(alloc, &[fails])?;
        let mut out = MemSink::create(alloc, capacity, fails)?;
        assert!(rt; info_wad(&name, &file, &mut out).is_err(), "at {capacity}");
        assert_eq!(rt; out.got().len(), length);
        assert!(rt; text.starts_with(out.got()));
    }
    Ok(())
}

// A lump that tells this size of its picture. The pixels count from 0.
fn sized(alloc: Global, width: u32, height: u32) -> Result<Vec<u8>, AllocError> {
    let mut lump = Vec::new(alloc);
    lump.extend_from_slice(&width.to_le_bytes())?;
    lump.extend_from_slice(&height.to_le_bytes())?;
    lump.extend_from_slice(&BYTES)?;
    Ok(lump)
}

#[test]
fn a_picture_has_a_line_for_each_row(rt: HostRuntime) -> Result<(), Fail> {
    let alloc = rt.alloc();
    let name = cleaned(b"PIC");
    let cases: [(u32, u32, &[&[u8]]); 8] = [
        (0, 0, &[b"pic pic 0 0\n"]),
        (7, 0, &[b"pic pic 7 0\n"]),
        (0, 3, &[b"pic pic 0 3\n\n\n\n"]),
        (1, 2, &[b"pic pic 1 2\n00\n01\n"]),
        (31, 1, &[b"pic pic 31 1\n", &FIRST[..62], b"\n"]),
        (32, 2, &[b"pic pic 32 2\n", FIRST, b"\n", SECOND, b"\n"]),
        (33, 1, &[b"pic pic 33 1\n", FIRST, b"20\n"]),
        (64, 1, &[b"pic pic 64 1\n", FIRST, SECOND, b"\n"]),
    ];
    for (width, height, parts) in cases {
        let text = joined(alloc, parts)?;
        let file = sized(alloc, width, height)?;
        assert!(rt; file.len() <= 1 << 26);
        let found = picture(&file, 0, 66).expect(&rt, "a picture");
        let mut out = MemSink::create(alloc, 200, Vec::new(alloc))?;
        put_picture(&name, &found, &file, &mut out)?;
        assert_eq!(rt; out.got(), text.as_slice(), "of {width} x {height}");
    }
    Ok(())
}

// As above. The title has seven puts, and a row of 33 pixels has three.
#[test]
fn a_picture_is_cut_where_a_put_fails(rt: HostRuntime) -> Result<(), Fail> {
    let alloc = rt.alloc();
    let name = cleaned(b"a\xc8b");
    let file = sized(alloc, 33, 1)?;
    let text = joined(alloc, &[b"pic a?b 33 1\n", FIRST, b"20\n"])?;
    assert!(rt; file.len() <= 1 << 26);
    let found = picture(&file, 0, 66).expect(&rt, "a picture");
    for (capacity, fails, length) in [
        (5, 99, 5),
        (99, 7, 13),
        (99, 8, 77),
        (99, 9, 79),
        (78, 99, 78),
    ] {
        let fails = Vec::from_slice(alloc, &[fails])?;
        let mut out = MemSink::create(alloc, capacity, fails)?;
        assert!(rt; put_picture(&name, &found, &file, &mut out).is_err());
        assert_eq!(rt; out.got().len(), length);
        assert!(rt; text.starts_with(out.got()));
    }
    Ok(())
}

#[test]
fn each_error_of_a_lump_has_its_line(rt: HostRuntime) -> Result<(), Fail> {
    let alloc = rt.alloc();
    let cases: [(&[u8], LumpError, &[u8]); 5] = [
        (b"None", LumpError::Absent, b"no lump none\n"),
        (b"", LumpError::Absent, b"no lump \n"),
        (
            b"SQUASHED",
            LumpError::Compressed,
            b"compressed lump squashed\n",
        ),
        (
            b"a\xc8b",
            LumpError::NotPicture,
            b"lump a?b is no picture\n",
        ),
        (
            b"Sixteen_Letters!!",
            LumpError::Outside,
            b"lump sixteen_letters! outside\n",
        ),
    ];
    for (name, error, text) in cases {
        let name = cleaned(name);
        let mut out = MemSink::create(alloc, 100, Vec::new(alloc))?;
        put_lump_error(&name, error, &mut out)?;
        assert_eq!(rt; out.got(), text);
        let mut short = MemSink::create(alloc, 8, Vec::new(alloc))?;
        assert!(rt; put_lump_error(&name, error, &mut short).is_err());
        assert_eq!(rt; short.got(), &text[..8]);
    }
    Ok(())
}

#[test]
fn each_fault_of_a_wad_has_its_line(rt: HostRuntime) -> Result<(), Fail> {
    let cases: [(WadFault, &[u8]); 2] = [
        (WadFault::NotWad, b"not wad"),
        (WadFault::TableOutside, b"table outside"),
    ];
    for (fault, wrong) in cases {
        tells(
            &rt,
            rt.alloc(),
            Fault::Wad(fault),
            &[b"bad wad x: ", wrong, b"\n"],
        )?;
    }
    Ok(())
}
