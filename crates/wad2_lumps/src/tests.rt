use super::*;
use mem_model::Builder;
use std::alloc::{AllocError, Global};

const HEADER: &[u8] = b"WAD2\x02\0\0\0\x1a\0\0\0";

// A picture of 2 x 1 at 12, and four bytes at 22.
const LUMPS: &[u8] = b"\x02\0\0\0\x01\0\0\0\x0a\x0babcd";

const PIC: &[u8] = b"\x0c\0\0\0\x0a\0\0\0\x0a\0\0\0\x42\0\0\0PIC\0\0\0\0\0\0\0\0\0\0\0\0\0";

const SQUASHED: &[u8] = b"\x16\0\0\0\x04\0\0\0\x04\0\0\0\x42\x01\0\0SQUASHED\0\0\0\0\0\0\0\0";

// The names of both once more, not compressed.
const SECOND: &[u8] = b"\x16\0\0\0\x04\0\0\0\x04\0\0\0\x43\0\0\0pic\0\0\0\0\0\0\0\0\0\0\0\0\0";

const PLAIN: &[u8] = b"\x16\0\0\0\x04\0\0\0\x04\0\0\0\x43\0\0\0squashed\0\0\0\0\0\0\0\0";

// 16 bytes of name, and a name with bytes behind its zero.
const LONG: &[u8] = b"\x01\0\0\0\0\0\0\0\x02\0\0\0\x03\0\0\0Sixteen_Letters!";

const ENDED: &[u8] = b"\x04\0\0\0\0\0\0\0\x05\0\0\0\x06\0\0\0Zero\0and_more...";

// The parts one behind the other.
fn joined(alloc: Global, parts: &[&[u8]]) -> Result<Vec<u8>, AllocError> {
    let mut file = Vec::new(alloc);
    for part in parts {
        file.extend_from_slice(part)?;
    }
    Ok(file)
}

// The image of a file, where it has one, and the lump that the image has under a name.
fn image(alloc: Global, file: &[u8], name: &[u8]) -> Result<Option<(Vec<u8>, Lump)>, AllocError> {
    if file.len() > 1 << 26 {
        return Ok(None);
    }
    let Ok(size) = WadBuilder.size(file) else {
        return Ok(None);
    };
    let mut block = vec![in alloc; 0; size as usize]?;
    WadBuilder.build(file, &mut block);
    let lump = lump(&block, name);
    Ok(Some((block, lump)))
}

// The lump of a file, where it is a wad.
fn lump_in(file: &[u8], name: &[u8]) -> Option<Lump> {
    match check_wad(file) {
        Ok(_) => Some(lump(file, name)),
        Err(_) => None,
    }
}

// The row of a file, where it is a wad.
fn row_in(file: &[u8], number: u32) -> Option<Option<LumpRow>> {
    match check_wad(file) {
        Ok(_) => Some(lump_row(file, number)),
        Err(_) => None,
    }
}

// The picture of a file that isn't too long.
fn picture_in(file: &[u8], offset: u32, kind: u8) -> Option<Result<Picture, PicFault>> {
    if file.len() > 1 << 26 {
        return None;
    }
    Some(picture(file, offset, kind))
}

#[test]
fn counts_the_lumps_or_tells_the_first_fault(rt: HostRuntime) {
    let cases: [(&[u8], Result<u32, WadFault>); 10] = [
        (b"", Err(WadFault::NotWad)),
        (b"WAD2\0\0\0\0\x0c\0\0", Err(WadFault::NotWad)),
        (b"WAD3\0\0\0\0\x0c\0\0\0", Err(WadFault::NotWad)),
        (b"WAD3\x01\0\0\0\x0c\0\0\0", Err(WadFault::NotWad)),
        (b"WAD2\0\0\0\0\x0c\0\0\0", Ok(0)),
        (b"WAD2\0\0\0\0\0\0\0\0", Ok(0)),
        (b"WAD2\0\0\0\0\x0d\0\0\0", Err(WadFault::TableOutside)),
        (b"WAD2\x01\0\0\0\x0c\0\0\0", Err(WadFault::TableOutside)),
        (
            b"WAD2\xff\xff\xff\xff\xff\xff\xff\xff",
            Err(WadFault::TableOutside),
        ),
        (b"WAD2\0\0\0\x08\x0c\0\0\0", Err(WadFault::TableOutside)),
    ];
    for (file, want) in cases {
        assert_eq!(rt; check_wad(file), want);
    }
}

#[test]
fn a_table_may_end_at_the_end_of_the_file(rt: HostRuntime) {
    let file = joined(rt.alloc(), &[HEADER, LUMPS, PIC, SQUASHED]).expect(&rt, "memory");
    assert_eq!(rt; file.len(), 90);
    for end in 0..=file.len() {
        let want = if end < 12 {
            Err(WadFault::NotWad)
        } else if end < 90 {
            Err(WadFault::TableOutside)
        } else {
            Ok(2)
        };
        assert_eq!(rt; check_wad(&file[..end]), want);
    }
}

#[test]
fn finds_the_first_row_of_a_name(rt: HostRuntime) {
    let file = joined(
        rt.alloc(),
        &[
            b"WAD2\x06\0\0\0\x1a\0\0\0",
            LUMPS,
            PIC,
            SQUASHED,
            SECOND,
            PLAIN,
            LONG,
            ENDED,
        ],
    )
    .expect(&rt, "memory");
    let cases: [(&[u8], Lump); 14] = [
        (b"pic", found(12, 10, 66)),
        (b"PIC", found(12, 10, 66)),
        (b"Pic\0more", found(12, 10, 66)),
        (b"pi", Lump::Absent),
        (b"pics", Lump::Absent),
        (b"", Lump::Absent),
        (b"none", Lump::Absent),
        (b"Squashed", Lump::Compressed),
        (b"squashed", Lump::Compressed),
        (b"sixteen_letters!", found(1, 2, 3)),
        (b"SIXTEEN_LETTERS!!", found(1, 2, 3)),
        (b"sixteen_letters", Lump::Absent),
        (b"zero", found(4, 5, 6)),
        (b"zero\0and_more...", found(4, 5, 6)),
    ];
    for (name, want) in cases {
        assert_eq!(rt; lump_in(&file, name), Some(want));
    }
}

fn found(offset: u32, size: u32, kind: u8) -> Lump {
    Lump::Found { offset, size, kind }
}

#[test]
fn tells_the_rows(rt: HostRuntime) {
    let file = joined(rt.alloc(), &[HEADER, LUMPS, PIC, SQUASHED]).expect(&rt, "memory");
    let second = LumpRow {
        name: *b"SQUASHED\0\0\0\0\0\0\0\0",
        kind: 66,
        size: 4,
        compression: 1,
    };
    assert_eq!(rt; row_in(&file, 1), Some(Some(second)));
    for past in [2, 3, 1 << 27, u32::MAX] {
        assert_eq!(rt; row_in(&file, past), Some(None));
    }
}

#[test]
fn reads_pictures(rt: HostRuntime) {
    let pic = Picture {
        width: 2,
        height: 1,
        offset: 11,
    };
    let empty = Picture {
        width: 0,
        height: 4096,
        offset: 8,
    };
    let cases: [(&[u8], u32, u8, Result<Picture, PicFault>); 11] = [
        (b"...\x02\0\0\0\x01\0\0\0\x0a\x0b", 3, 66, Ok(pic)),
        (b"...\x02\0\0\0\x01\0\0\0\x0a\x0b.", 3, 66, Ok(pic)),
        (
            b"...\x02\0\0\0\x01\0\0\0\x0a",
            3,
            66,
            Err(PicFault::Outside),
        ),
        (
            b"...\x02\0\0\0\x01\0\0\0\x0a\x0b",
            3,
            67,
            Err(PicFault::NotPicture),
        ),
        (b"...\x02\0\0\0\x01\0\0", 3, 66, Err(PicFault::Outside)),
        (b"...\x02\0\0\0\x01\0\0", 3, 65, Err(PicFault::NotPicture)),
        (b"", u32::MAX, 66, Err(PicFault::Outside)),
        (b"\0\0\0\0\0\x10\0\0", 0, 66, Ok(empty)),
        (b"\0\0\0\0\x01\x10\0\0", 0, 66, Err(PicFault::Outside)),
        (b"\x01\x10\0\0\0\0\0\0", 0, 66, Err(PicFault::Outside)),
        (
            b"\xff\xff\xff\xff\xff\xff\xff\xff",
            0,
            66,
            Err(PicFault::Outside),
        ),
    ];
    for (file, offset, kind, want) in cases {
        assert_eq!(rt; picture_in(file, offset, kind), Some(want));
    }
}

#[test]
fn cleans_names(rt: HostRuntime) {
    let cases: [(&[u8], &[u8]); 6] = [
        (b"", b""),
        (b"\0a", b""),
        (b"AZaz@[`{09_\xc1", b"azaz@[`{09_\xc1"),
        (b"Sixteen_Letters!", b"sixteen_letters!"),
        (b"Sixteen_Letters!!", b"sixteen_letters!"),
        (b"Pic\0TURE", b"pic"),
    ];
    for (name, want) in cases {
        assert_eq!(rt; cleaned(name).bytes(), want);
    }
}

#[test]
fn an_image_is_the_file(rt: HostRuntime) {
    let file = joined(rt.alloc(), &[HEADER, LUMPS, PIC, SQUASHED]).expect(&rt, "memory");
    let (image, lump) = image(rt.alloc(), &file, b"pic")
        .expect(&rt, "memory")
        .expect(&rt, "an image");
    assert_eq!(rt; &image, &file);
    assert_eq!(rt; lump, found(12, 10, 66));
}
