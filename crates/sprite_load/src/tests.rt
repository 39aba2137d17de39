use super::*;
use mem_model::Builder;
use std::alloc::{AllocError, Global};

// The front of a header, of version 1 and type 2, and its rest with one frame and with two.
const FRONT: &[u8] = b"IDSP\x01\0\0\0\x02\0\0\0\0\0\x80\x3f\x03\0\0\0\x02\0\0\0";

const ONE: &[u8] = b"\x01\0\0\0\0\0\0\x40\x01\0\0\0";

const TWO: &[u8] = b"\x02\0\0\0\0\0\0\x40\x01\0\0\0";

// A single picture of 3 x 2, without its pixels and with them.
const BARE: &[u8] = b"\0\0\0\0\xfe\xff\xff\xff\x01\0\0\0\x03\0\0\0\x02\0\0\0";

const SINGLE: &[u8] =
    b"\0\0\0\0\xfe\xff\xff\xff\x01\0\0\0\x03\0\0\0\x02\0\0\0\x0a\x0b\x0c\x0d\x0e\x0f";

// The front of a group of two pictures, and the pictures, of 1 x 1 and of 2 x 1.
const GROUP: &[u8] = b"\x07\0\0\0\x02\0\0\0\xcd\xcc\xcc\x3d\xff\xff\xff\x7f";

const FIRST: &[u8] = b"\0\0\0\0\x01\0\0\0\x01\0\0\0\x01\0\0\0";

const SECOND: &[u8] = b"\0\0\0\0\x02\0\0\0\x02\0\0\0\x01\0\0\0";

// The parts one behind the other.
fn joined(alloc: Global, parts: &[&[u8]]) -> Result<Vec<u8>, AllocError> {
    let mut file = Vec::new(alloc);
    for part in parts {
        file.extend_from_slice(part)?;
    }
    Ok(file)
}

// These parts, and one so many times.
fn repeated(
    alloc: Global,
    parts: &[&[u8]],
    part: &[u8],
    count: usize,
) -> Result<Vec<u8>, AllocError> {
    let mut file = joined(alloc, parts)?;
    for _ in 0..count {
        file.extend_from_slice(part)?;
    }
    Ok(file)
}

// The length of a file's image, or its fault.
fn size(file: &[u8]) -> Option<Result<u64, SpriteFault>> {
    if file.len() > 1 << 26 {
        return None;
    }
    Some(SpriteBuilder.size(file))
}

// The image of a file.
fn image(alloc: Global, file: &[u8]) -> Result<Option<Vec<u8>>, AllocError> {
    if file.len() > 1 << 26 {
        return Ok(None);
    }
    let Ok(size) = SpriteBuilder.size(file) else {
        return Ok(None);
    };
    let mut block = vec![in alloc; 0; size as usize]?;
    SpriteBuilder.build(file, &mut block);
    Ok(Some(block))
}

#[test]
fn refuses_by_the_first_fault(rt: HostRuntime) {
    let cases: [(&[&[u8]], SpriteFault); 24] = [
        (&[FRONT, &ONE[..11]], SpriteFault::Short),
        (
            &[&FRONT[..4], b"\x02\0\0\0", &FRONT[8..], ONE, SINGLE],
            SpriteFault::Version { found: 2 },
        ),
        (
            &[
                &FRONT[..4],
                b"\0\0\0\x01",
                &FRONT[8..],
                b"\0\0\0\0",
                &ONE[4..],
                SINGLE,
            ],
            SpriteFault::Version { found: 0x0100_0000 },
        ),
        (
            &[FRONT, b"\0\0\0\0", &ONE[4..], SINGLE],
            SpriteFault::Frames,
        ),
        (
            &[FRONT, b"\x01\x04\0\0", &ONE[4..], SINGLE],
            SpriteFault::Frames,
        ),
        (&[FRONT, ONE], SpriteFault::Truncated),
        (&[FRONT, TWO, SINGLE, b"\0\0\0"], SpriteFault::Truncated),
        (&[FRONT, ONE, &BARE[..19]], SpriteFault::Truncated),
        (
            &[FRONT, ONE, BARE, b"\x0a\x0b\x0c\x0d\x0e"],
            SpriteFault::Truncated,
        ),
        (&[FRONT, ONE, &GROUP[..7]], SpriteFault::Truncated),
        (&[FRONT, ONE, &GROUP[..15]], SpriteFault::Truncated),
        (
            &[FRONT, ONE, GROUP, FIRST, b"\x0a", &SECOND[..15]],
            SpriteFault::Truncated,
        ),
        (
            &[FRONT, ONE, GROUP, FIRST, b"\x0a", SECOND, b"\x0b"],
            SpriteFault::Truncated,
        ),
        (
            &[FRONT, ONE, &GROUP[..4], b"\0\0\0"],
            SpriteFault::Truncated,
        ),
        (
            &[FRONT, ONE, &GROUP[..4], b"\0\0\0\0"],
            SpriteFault::Group { row: 0 },
        ),
        (
            &[FRONT, TWO, SINGLE, &GROUP[..4], b"\x01\x04\0\0"],
            SpriteFault::Group { row: 1 },
        ),
        (
            &[FRONT, ONE, &GROUP[..8], b"\0\0\0\0"],
            SpriteFault::Truncated,
        ),
        (
            &[FRONT, ONE, &GROUP[..8], b"\0\0\0\0\x01\0\0\0"],
            SpriteFault::Interval { row: 0 },
        ),
        (
            &[FRONT, TWO, SINGLE, &GROUP[..12], b"\0\0\0\x80"],
            SpriteFault::Interval { row: 1 },
        ),
        (
            &[
                FRONT,
                ONE,
                &GROUP[..12],
                b"\xff\xff\xff\xff",
                FIRST,
                b"\x0a",
                SECOND,
                b"\x0b\x0c",
            ],
            SpriteFault::Interval { row: 0 },
        ),
        (
            &[FRONT, ONE, &BARE[..12], b"\x01\x10\0\0\x01\0\0\0"],
            SpriteFault::Size { row: 0 },
        ),
        (
            &[FRONT, ONE, &BARE[..12], b"\x01\0\0\0\x01\x10\0\0"],
            SpriteFault::Size { row: 0 },
        ),
        (
            &[
                FRONT,
                TWO,
                SINGLE,
                GROUP,
                FIRST,
                b"\x0a",
                &SECOND[..8],
                b"\0\0\0\x80\0\0\0\0",
            ],
            SpriteFault::Size { row: 1 },
        ),
        (
            &[FRONT, ONE, &BARE[..12], b"\0\x10\0\0\0\x10\0\0"],
            SpriteFault::Truncated,
        ),
    ];
    for (parts, fault) in cases {
        let file = joined(rt.alloc(), parts).expect(&rt, "memory");
        assert_eq!(rt; size(&file), Some(Err(fault)));
    }
}

#[test]
fn makes_an_image(rt: HostRuntime) {
    let file = joined(
        rt.alloc(),
        &[
            FRONT,
            TWO,
            SINGLE,
            GROUP,
            FIRST,
            b"\x1a",
            SECOND,
            b"\x1b\x1c",
        ],
    )
    .expect(&rt, "memory");
    let image = image(rt.alloc(), &file)
        .expect(&rt, "memory")
        .expect(&rt, "an image");
    let parts: &[&[u8]] = &[
        b"\x03\0\0\0",
        &FRONT[8..],
        TWO,
        b"\x03\0\0\0",
        b"\0\0\0\0\0\0\0\0\x01\0\0\0",
        b"\x01\0\0\0\x01\0\0\0\x02\0\0\0",
        b"\0\0\0\0",
        &BARE[4..],
        b"\x84\0\0\0",
        b"\xcd\xcc\xcc\x3d",
        FIRST,
        b"\x8a\0\0\0",
        b"\xff\xff\xff\x7f",
        SECOND,
        b"\x8b\0\0\0",
        b"\x0a\x0b\x0c\x0d\x0e\x0f\x1a\x1b\x1c",
    ];
    let expected = joined(rt.alloc(), parts).expect(&rt, "memory");
    assert_eq!(rt; &image[..], &expected[..]);
    assert!(rt; image.len() >= 36);
    let header = SpriteHeader {
        kind: 2,
        frames: 2,
        pictures: 3,
    };
    assert_eq!(rt; sprite_header(&image), header);
}

// A group between single pictures, and bytes behind the last frame.
#[test]
fn counts_from_frame_to_frame(rt: HostRuntime) {
    let file = joined(
        rt.alloc(),
        &[
            FRONT,
            TWO,
            GROUP,
            FIRST,
            b"\x1a",
            SECOND,
            b"\x1b\x1c",
            SINGLE,
            b"rest",
        ],
    )
    .expect(&rt, "memory");
    let image = image(rt.alloc(), &file)
        .expect(&rt, "memory")
        .expect(&rt, "an image");
    let rows: &[u8] = b"\x01\0\0\0\0\0\0\0\x02\0\0\0\0\0\0\0\x02\0\0\0\x01\0\0\0";
    let pixels: &[u8] = b"\x1a\x1b\x1c\x0a\x0b\x0c\x0d\x0e\x0f";
    assert!(rt; image.len() == 141);
    assert_eq!(rt; &image[36..60], rows);
    assert_eq!(rt; &image[132..], pixels);
}

#[test]
fn ends_in_a_fault_where_it_is_cut(rt: HostRuntime) {
    let file = joined(
        rt.alloc(),
        &[
            FRONT,
            TWO,
            SINGLE,
            GROUP,
            FIRST,
            b"\x1a",
            SECOND,
            b"\x1b\x1c",
        ],
    )
    .expect(&rt, "memory");
    for end in 0..file.len() {
        let fault = if end < 36 {
            SpriteFault::Short
        } else {
            SpriteFault::Truncated
        };
        assert_eq!(rt; size(&file[..end]), Some(Err(fault)));
    }
    assert_eq!(rt; size(&file), Some(Ok(141)));
}

// The widest and the highest picture, the most frames, and the most pictures of a group.
#[test]
fn takes_the_largest(rt: HostRuntime) {
    let wide = repeated(
        rt.alloc(),
        &[FRONT, ONE, &BARE[..12], b"\0\x10\0\0\x01\0\0\0"],
        b"\0",
        4096,
    )
    .expect(&rt, "memory");
    assert_eq!(rt; size(&wide), Some(Ok(4168)));
    let high = repeated(
        rt.alloc(),
        &[FRONT, ONE, &BARE[..12], b"\x01\0\0\0\0\x10\0\0"],
        b"\0",
        4096,
    )
    .expect(&rt, "memory");
    assert_eq!(rt; size(&high), Some(Ok(4168)));
    let frames = repeated(rt.alloc(), &[FRONT, b"\0\x04\0\0", &ONE[4..]], SINGLE, 1024).expect(
        &rt, "memory",
    );
    assert_eq!(rt; size(&frames), Some(Ok(43044)));
    let intervals = repeated(
        rt.alloc(),
        &[FRONT, ONE, &GROUP[..4], b"\0\x04\0\0"],
        b"\x01\0\0\0",
        1024,
    )
    .expect(&rt, "memory");
    let flat = b"\0\0\0\0\0\0\0\0\0\0\0\0\0\0\0\0";
    let group = repeated(rt.alloc(), &[&intervals], flat, 1024).expect(&rt, "memory");
    assert_eq!(rt; size(&group), Some(Ok(24624)));
}
