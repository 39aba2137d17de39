use super::*;
use base_fields::{put_u32, u32_at};
use mem_model::Builder;
use std::alloc::{AllocError, Global};
use std::process::Abort;

// One skin of 4 x 1, one vertex, one triangle, one frame.
const HEADER: &[u32] = &[
    0x4f50_4449,
    6,
    101,
    102,
    103,
    104,
    105,
    106,
    107,
    108,
    109,
    110,
    1,
    4,
    1,
    1,
    1,
    1,
    118,
    119,
    120,
];

const SKIN: &[u32] = &[0, 0x0403_0201];

const SKINS: &[u32] = &[1, 1, 7, 0x0403_0201];

const ST: &[u32] = &[201, 202, 203];

const TRIANGLE: &[u32] = &[1, 0, 0, 0];

const FRAME: &[u32] = &[0, 11, 12, 21, 22, 23, 24, 31];

const FRAMES: &[u32] = &[9, 1, 13, 14, 0x3dcc_cccd, 11, 12, 21, 22, 23, 24, 31];

// The parts one behind the other, with another word in the place of one.
fn file(alloc: Global, parts: &[&[u32]], at: usize, word: u32) -> Result<Vec<u8>, AllocError> {
    let mut file = Vec::new(alloc);
    for part in parts {
        for word in *part {
            file.extend_from_slice(&word.to_le_bytes())?;
        }
    }
    if file.len() >= 4 && at <= (file.len() - 4) / 4 {
        put_u32(&mut file, 4 * at, word);
    }
    Ok(file)
}

// The length of a file's image, or its fault.
fn size(file: &[u8]) -> Option<Result<u64, AliasFault>> {
    if file.len() > 1 << 26 {
        return None;
    }
    Some(AliasBuilder.size(file))
}

// The image of a file.
fn image(alloc: Global, file: &[u8]) -> Result<Option<Vec<u8>>, AllocError> {
    if file.len() > 1 << 26 {
        return Ok(None);
    }
    let Ok(size) = AliasBuilder.size(file) else {
        return Ok(None);
    };
    let mut block = vec![in alloc; 0; size as usize]?;
    AliasBuilder.build(file, &mut block);
    Ok(Some(block))
}

fn in_header(field: AliasField) -> AliasFault {
    AliasFault::Header { field }
}

// Each of these files is sound but for the one word.
#[test]
fn refuses_by_the_first_fault(rt: HostRuntime) {
    let cases = [
        (1, 7, AliasFault::Version { found: 7 }),
        (12, 0, in_header(AliasField::Numskins)),
        (12, 257, in_header(AliasField::Numskins)),
        (13, 0, in_header(AliasField::Skinwidth)),
        (13, 6, in_header(AliasField::Skinwidth)),
        (13, 4100, in_header(AliasField::Skinwidth)),
        (14, 0, in_header(AliasField::Skinheight)),
        (14, 4097, in_header(AliasField::Skinheight)),
        (15, 0, in_header(AliasField::Numverts)),
        (15, 2001, in_header(AliasField::Numverts)),
        (16, 0, in_header(AliasField::Numtris)),
        (16, 65537, in_header(AliasField::Numtris)),
        (17, 0, in_header(AliasField::Numframes)),
        (17, 1025, in_header(AliasField::Numframes)),
        (
            22,
            0,
            AliasFault::Group {
                part: AliasPart::Skin,
                row: 0,
            },
        ),
        (
            22,
            1025,
            AliasFault::Group {
                part: AliasPart::Skin,
                row: 0,
            },
        ),
        (
            23,
            0,
            AliasFault::Interval {
                part: AliasPart::Skin,
                row: 0,
            },
        ),
        (
            23,
            0x8000_0000,
            AliasFault::Interval {
                part: AliasPart::Skin,
                row: 0,
            },
        ),
        (29, 1, AliasFault::Triangle { row: 0 }),
        (30, 1, AliasFault::Triangle { row: 0 }),
        (31, 1, AliasFault::Triangle { row: 0 }),
        (
            33,
            0,
            AliasFault::Group {
                part: AliasPart::Frame,
                row: 0,
            },
        ),
        (
            33,
            1025,
            AliasFault::Group {
                part: AliasPart::Frame,
                row: 0,
            },
        ),
        (
            36,
            0,
            AliasFault::Interval {
                part: AliasPart::Frame,
                row: 0,
            },
        ),
        (
            36,
            0x8000_0000,
            AliasFault::Interval {
                part: AliasPart::Frame,
                row: 0,
            },
        ),
    ];
    let parts = [HEADER, SKINS, ST, TRIANGLE, FRAMES];
    for (at, word, fault) in cases {
        let file = file(rt.alloc(), &parts, at, word).expect(&rt, "memory");
        assert_eq!(rt; size(&file), Some(Err(fault)));
    }
}

// The second of two rows is the bad one.
#[test]
fn names_the_row(rt: HostRuntime) {
    let skins = [HEADER, SKIN, SKINS, ST, TRIANGLE, FRAME];
    let mut two = file(rt.alloc(), &skins, 12, 2).expect(&rt, "memory");
    assert_eq!(rt; size(&two), Some(Ok(208)));
    if two.len() >= 104 {
        put_u32(&mut two, 100, 0);
    }
    let part = AliasPart::Skin;
    assert_eq!(rt;
        size(&two),
        Some(Err(AliasFault::Interval { part, row: 1 }))
    );
    let triangles = [HEADER, SKIN, ST, TRIANGLE, &[1, 0, 0, 1], FRAME];
    let two = file(rt.alloc(), &triangles, 16, 2).expect(&rt, "memory");
    assert_eq!(rt; size(&two), Some(Err(AliasFault::Triangle { row: 1 })));
}

#[test]
fn refuses_what_is_cut(rt: HostRuntime) {
    let parts = [HEADER, SKIN, ST, TRIANGLE, FRAMES];
    let whole = file(rt.alloc(), &parts, 0, 0).expect(&rt, "memory");
    assert_eq!(rt; whole.len(), 168);
    assert_eq!(rt; size(&whole), Some(Ok(188)));
    for length in 0..whole.len() {
        let fault = match length {
            0..84 => AliasFault::Short,
            84..92 => AliasFault::Truncated {
                part: AliasPart::Skin,
            },
            92..104 => AliasFault::Truncated {
                part: AliasPart::St,
            },
            104..120 => AliasFault::Truncated {
                part: AliasPart::Triangle,
            },
            _ => AliasFault::Truncated {
                part: AliasPart::Frame,
            },
        };
        assert_eq!(rt; size(&whole[..length]), Some(Err(fault)), "at {length}");
    }
}

// Compares the words of an image from a place on, and answers the place behind them.
fn check_words(rt: &impl Abort, image: &[u8], first: usize, words: &[u32]) -> usize {
    let mut at = first;
    for word in words {
        assert!(rt; at < image.len() && image.len() - at >= 4);
        assert_eq!(rt; u32_at(image, at), *word, "at {at}");
        at += 4;
    }
    at
}

#[test]
fn makes_images(rt: HostRuntime) {
    let single: &[u32] = &[0, 0, 1, 0, 0, 1, 11, 12, 0, 0, 11, 12, 21, 22, 23, 24];
    let grouped: &[u32] = &[
        1,
        0,
        1,
        1,
        0,
        1,
        13,
        14,
        7,
        0x3dcc_cccd,
        11,
        12,
        21,
        22,
        23,
        24,
    ];
    let cases: [(&[u32], &[u32], &[u32]); 2] = [(SKIN, FRAME, single), (SKINS, FRAMES, grouped)];
    for (skin, frame, rows) in cases {
        let file = file(rt.alloc(), &[HEADER, skin, ST, TRIANGLE, frame], 0, 0).expect(
            &rt, "memory",
        );
        let image = image(rt.alloc(), &file)
            .expect(&rt, "memory")
            .expect(&rt, "an image");
        let parts = [
            &[2],
            &HEADER[2..],
            &[1, 1],
            rows,
            ST,
            TRIANGLE,
            &[0x0403_0201, 31],
        ];
        let mut at = 0;
        for part in parts {
            at = check_words(&rt, &image, at, part);
        }
        assert_eq!(rt; at, image.len());
    }
}

// A single picture, and a group of two.
#[test]
fn tells_of_an_image(rt: HostRuntime) {
    let group: &[u32] = &[1, 2, 7, 8, 0x0403_0201, 0x0807_0605];
    let parts = [HEADER, SKIN, group, ST, TRIANGLE, FRAMES];
    let file = file(rt.alloc(), &parts, 12, 2).expect(&rt, "memory");
    let image = image(rt.alloc(), &file)
        .expect(&rt, "memory")
        .expect(&rt, "an image");
    assert!(rt; image.len() >= 88);
    let header = AliasHeader {
        skins: 2,
        width: 4,
        height: 1,
        vertices: 1,
        triangles: 1,
        frames: 1,
        pictures: 3,
        poses: 1,
    };
    assert_eq!(rt; alias_header(&image), header);
}
