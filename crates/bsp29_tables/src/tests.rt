use super::*;
use base_fields::put_u32;
use std::alloc::{AllocError, Global};

// Each lump has one row, but for two marksurfaces and two models.
const HEADER: &[u32] = &[
    29, 124, 4, 128, 20, 148, 48, 196, 12, 208, 4, 212, 24, 236, 40, 276, 20, 296, 4, 300, 8, 308,
    28, 336, 4, 340, 4, 344, 4, 348, 128,
];

const ENTITIES_AND_PLANE: &[u32] = &[0x20, 0x3f80_0000, 0, 0, 0, 0];

// A texture of 16 x 0.
const TEXTURE: &[u32] = &[1, 8, 0x6c61_7774, 0, 0, 0, 16, 0, 40, 40, 40, 40];

const VERTEX_AND_VISIBILITY: &[u32] = &[1, 2, 3, 0xff];

const NODE: &[u32] = &[0, 0xffff_ffff, 0, 0, 0, 0x0001_0000];

const TEXINFO: &[u32] = &[0, 0, 0, 0, 0, 0, 0, 0, 0, 0];

const FACE_AND_LIGHTING: &[u32] = &[0, 0, 1, 0, 0, 0];

const CLIPNODE: &[u32] = &[0, 0xfffe_ffff];

const LEAF: &[u32] = &[0xffff_ffff, 0, 0, 0, 0, 0x0002_0000, 0];

const MARKSURFACES_EDGE_SURFEDGE: &[u32] = &[0, 0, 0];

const MODEL: &[u32] = &[0, 0, 0, 0, 0, 0, 0, 0, 0, 0, 0, 0, 0, 1, 0, 1];

const SECOND: &[u32] = &[0, 0, 0, 0, 0, 0, 0, 0, 0, 0, 0, 0, 0, 9, 0, 1];

const MAP: [&[u32]; 12] = [
    HEADER,
    ENTITIES_AND_PLANE,
    TEXTURE,
    VERTEX_AND_VISIBILITY,
    NODE,
    TEXINFO,
    FACE_AND_LIGHTING,
    CLIPNODE,
    LEAF,
    MARKSURFACES_EDGE_SURFEDGE,
    MODEL,
    SECOND,
];

// Where the lumps of the map end.
const ENDS: [usize; 15] = [
    128, 148, 196, 208, 212, 236, 276, 296, 300, 308, 336, 340, 344, 348, 476,
];

// Puts words in the places of others, which are counted in words.
fn put_words(file: &mut Vec<u8>, words: &[(usize, u32)]) {
    for (at, word) in words {
        if *at < file.len() / 4 {
            put_u32(file, 4 * *at, *word);
        }
    }
}

// The map, with other words in the place of some.
fn changed(alloc: Global, words: &[(usize, u32)]) -> Result<Vec<u8>, AllocError> {
    let mut file = Vec::new(alloc);
    for words in MAP {
        for word in words {
            file.extend_from_slice(&word.to_le_bytes())?;
        }
    }
    put_words(&mut file, words);
    Ok(file)
}

// A file of so many bytes. They are zeros but for these words and the header's; a model begins at 124.
fn large(alloc: Global, length: usize, words: &[(usize, u32)]) -> Result<Vec<u8>, AllocError> {
    let mut file = vec![in alloc; 0; length]?;
    put_words(&mut file, &[(0, 29), (29, 124), (30, 64)]);
    put_words(&mut file, words);
    Ok(file)
}

fn missing(frame: u8) -> BspFault {
    BspFault::MissingFrame { texture: 0, frame }
}

fn bad_row(lump: u32, row: u32) -> BspFault {
    BspFault::BadRow { lump, row }
}

// Each of these files is sound but for the one word.
#[test]
fn refuses_by_the_one_fault(rt: HostRuntime) {
    let cases = [
        (0, 30, BspFault::Version { found: 30 }),
        (1, 473, BspFault::LumpOutside { lump: 0 }),
        (7, 0xffff_ffff, BspFault::LumpOutside { lump: 3 }),
        (29, 349, BspFault::LumpOutside { lump: 14 }),
        (4, 19, BspFault::LumpSize { lump: 1 }),
        (8, 11, BspFault::LumpSize { lump: 3 }),
        (12, 23, BspFault::LumpSize { lump: 5 }),
        (14, 39, BspFault::LumpSize { lump: 6 }),
        (16, 19, BspFault::LumpSize { lump: 7 }),
        (20, 7, BspFault::LumpSize { lump: 9 }),
        (22, 27, BspFault::LumpSize { lump: 10 }),
        (24, 3, BspFault::LumpSize { lump: 11 }),
        (26, 3, BspFault::LumpSize { lump: 12 }),
        (28, 3, BspFault::LumpSize { lump: 13 }),
        (30, 127, BspFault::LumpSize { lump: 14 }),
        (30, 0, BspFault::NoModel),
        (6, 3, BspFault::TextureTable),
        (37, 12, BspFault::TextureTable),
        (37, 4097, BspFault::TextureTable),
        (38, 9, BspFault::TextureOutside { texture: 0 }),
        (43, 8, BspFault::TextureSize { texture: 0 }),
        (43, 16_400, BspFault::TextureSize { texture: 0 }),
        (44, 8, BspFault::TextureSize { texture: 0 }),
        (44, 16_400, BspFault::TextureSize { texture: 0 }),
        (44, 16, BspFault::TextureOutside { texture: 0 }),
        (39, 0x6c61_772b, BspFault::BadAnimation { texture: 0 }),
        (39, 0x6c61_6b2b, BspFault::BadAnimation { texture: 0 }),
        (39, 0x6c61_002b, BspFault::BadAnimation { texture: 0 }),
        (39, 0x6c61_322b, missing(b'0')),
        (39, 0x6c61_422b, missing(b'A')),
        (39, 0x6c61_6a2b, missing(b'A')),
    ];
    for (at, word, fault) in cases {
        let file = changed(rt.alloc(), &[(at, word)]).expect(&rt, "memory");
        assert_eq!(rt; check_bsp(&file), Err(fault), "at {at}");
    }
}

#[test]
fn refuses_bad_rows(rt: HostRuntime) {
    let cases = [
        (53, 1, bad_row(5, 0)),
        (54, 0xffff_0001, bad_row(5, 0)),
        (54, 0xffff_fffe, bad_row(5, 0)),
        (54, 0x0001_ffff, bad_row(5, 0)),
        (54, 0xfffe_ffff, bad_row(5, 0)),
        (58, 0x0001_0001, bad_row(5, 0)),
        (67, 1, bad_row(6, 0)),
        (69, 1, bad_row(7, 0)),
        (70, 1, bad_row(7, 0)),
        (71, 2, bad_row(7, 0)),
        (71, 0x0001_0001, bad_row(7, 0)),
        (75, 1, bad_row(9, 0)),
        (76, 0xffff_0001, bad_row(9, 0)),
        (76, 0x0001_ffff, bad_row(9, 0)),
        (77, 0, bad_row(10, 0)),
        (77, 0xffff_7fff, bad_row(10, 0)),
        (82, 0x0002_0001, bad_row(10, 0)),
        (84, 1, bad_row(11, 0)),
        (84, 0x0001_0000, bad_row(11, 1)),
        (85, 1, bad_row(12, 0)),
        (85, 0x0001_0000, bad_row(12, 0)),
        (86, 1, bad_row(13, 0)),
        (86, 0xffff_ffff, bad_row(13, 0)),
        (100, 2, bad_row(14, 0)),
        (101, 1, bad_row(14, 0)),
        (102, 2, bad_row(14, 0)),
        (117, 0xffff_ffff, bad_row(14, 1)),
    ];
    for (at, word, fault) in cases {
        let file = changed(rt.alloc(), &[(at, word)]).expect(&rt, "memory");
        assert_eq!(rt; check_bsp(&file), Err(fault), "{word} at {at}");
    }
}

// Of two faults the first is told.
#[test]
fn refuses_by_the_first_fault(rt: HostRuntime) {
    let cases: [(&[(usize, u32)], BspFault); 12] = [
        (&[(3, 476), (4, 19)], BspFault::LumpOutside { lump: 1 }),
        (&[(4, 19), (1, 476)], BspFault::LumpOutside { lump: 0 }),
        (&[(5, 476), (4, 19)], BspFault::LumpSize { lump: 1 }),
        (&[(37, 4097), (30, 0)], BspFault::NoModel),
        (&[(39, 0x2b), (43, 8)], BspFault::TextureSize { texture: 0 }),
        (
            &[(39, 0x322b), (43, 8)],
            BspFault::TextureSize { texture: 0 },
        ),
        (
            &[(53, 1), (39, 0x2b)],
            BspFault::BadAnimation { texture: 0 },
        ),
        (&[(53, 1), (39, 0x322b)], missing(b'0')),
        (&[(6, 4), (37, 0)], bad_row(6, 0)),
        (&[(67, 1), (53, 1)], bad_row(5, 0)),
        (&[(69, 1), (67, 1)], bad_row(6, 0)),
        (&[(84, 0x0001_0001), (101, 1)], bad_row(11, 0)),
    ];
    for (words, fault) in cases {
        let file = changed(rt.alloc(), words).expect(&rt, "memory");
        assert_eq!(rt; check_bsp(&file), Err(fault));
    }
}

#[test]
fn takes_what_is_sound(rt: HostRuntime) {
    let cases: [&[(usize, u32)]; 10] = [
        &[],
        // an animation of one frame
        &[(39, 0x6c61_302b)],
        &[(39, 0x6c61_612b)],
        // an empty lump passes no end, and without a texture lump each texinfo passes
        &[(1, 0xffff_ffff), (2, 0)],
        &[(6, 0), (67, 7)],
        // a missing texture isn't read, and the name of the only one may have a `+` further on
        &[(38, 0xffff_ffff), (39, 0x2b), (43, 8)],
        &[(39, 0x2b2b_2b00)],
        &[(54, 0), (76, 0)],
        &[(76, 0x8000_8000)],
        &[(77, 0xffff_8000)],
    ];
    for words in cases {
        let file = changed(rt.alloc(), words).expect(&rt, "memory");
        assert_eq!(rt; check_bsp(&file), Ok(()));
    }
}

#[test]
fn refuses_what_is_cut(rt: HostRuntime) {
    let whole = changed(rt.alloc(), &[]).expect(&rt, "memory");
    assert_eq!(rt; whole.len(), 476);
    for length in 0..whole.len() {
        let ended = ENDS.iter().filter(|end| **end <= length).count();
        let fault = if length < 124 {
            BspFault::Short
        } else {
            BspFault::LumpOutside { lump: ended as u32 }
        };
        assert_eq!(rt; check_bsp(&whole[..length]), Err(fault), "at {length}");
    }
}

// Lumps may share bytes.
#[test]
fn counts_nodes_and_leafs(rt: HostRuntime) {
    let cases: [(&[(usize, u32)], Result<(), BspFault>); 4] = [
        (&[(11, 124), (12, 786_432), (3, 124), (4, 20)], Ok(())),
        (
            &[(11, 124), (12, 786_456)],
            Err(BspFault::LumpCount { lump: 5 }),
        ),
        (&[(21, 124), (22, 917_504)], Err(bad_row(10, 0))),
        (
            &[(21, 124), (22, 917_532)],
            Err(BspFault::LumpCount { lump: 10 }),
        ),
    ];
    for (words, want) in cases {
        let file = large(rt.alloc(), 1_000_000, words).expect(&rt, "memory");
        assert_eq!(rt; check_bsp(&file), want);
    }
}

// 4096 textures that share their 368 x 1072 pixels, and three lumps that share their bytes.
fn shared(alloc: Global, entities: u32) -> Result<Vec<u8>, AllocError> {
    let lumps = [
        (1, 0),
        (2, entities),
        (9, 0),
        (10, 382_228),
        (17, 0),
        (18, 382_228),
        (5, 188),
        (6, 549_812),
    ];
    let mut file = large(alloc, 550_000, &lumps)?;
    put_words(&mut file, &[(47, 4096)]);
    for texture in 0..4096 {
        put_words(&mut file, &[(48 + texture, 16_388)]);
    }
    put_words(&mut file, &[(4148, 368), (4149, 1072)]);
    Ok(file)
}

#[test]
fn refuses_what_is_too_large(rt: HostRuntime) {
    for (entities, want) in [(382_227, Ok(())), (382_228, Err(BspFault::TooLarge))] {
        let file = shared(rt.alloc(), entities).expect(&rt, "memory");
        assert_eq!(rt; check_bsp(&file), want);
    }
}

// A texture lump of these names, without pixels.
fn named(alloc: Global, names: &[&[u8]]) -> Result<Vec<u8>, AllocError> {
    let count = names.len().min(4096) as u32;
    let mut lump = Vec::new(alloc);
    lump.extend_from_slice(&count.to_le_bytes())?;
    for texture in 0..count {
        lump.extend_from_slice(&(4 * count + 4 + 40 * texture).to_le_bytes())?;
    }
    for name in names {
        let mut bytes = [0; 40];
        let length = name.len().min(16);
        bytes[..length].copy_from_slice(&name[..length]);
        lump.extend_from_slice(&bytes)?;
    }
    Ok(lump)
}

// The total, the least and the greatest time, the next frame and the first one of the other animation.
fn told(lump: &[u8], texture: u32) -> Option<(u32, u32, u32, Option<u32>, Option<u32>)> {
    match check_table(lump) {
        Ok(()) => match check_textures(lump) {
            Ok(()) if texture < texture_count(lump) => {
                let cycle = Animations::find(lump).cycle(texture)?;
                Some((
                    cycle.total,
                    cycle.least,
                    cycle.greatest,
                    cycle.next,
                    cycle.alternate,
                ))
            }
            _ => None,
        },
        Err(_) => None,
    }
}

#[test]
fn tells_cycles(rt: HostRuntime) {
    let lump = named(
        rt.alloc(),
        &[
            b"wall", b"+0slip", b"+a", b"+1slip", b"+1", b"+0", b"+B", b"+1slip", b"+0slip2", b"+c",
        ],
    )
    .expect(&rt, "memory");
    let cases = [
        (0, None),
        (1, Some((4, 0, 2, Some(7), None))),
        (3, None),
        (7, Some((4, 2, 4, Some(1), None))),
        (8, Some((2, 0, 2, Some(8), None))),
        (5, Some((4, 0, 2, Some(4), Some(2)))),
        (4, Some((4, 2, 4, Some(5), Some(2)))),
        (2, Some((6, 0, 2, Some(6), Some(5)))),
        (6, Some((6, 2, 4, Some(9), Some(5)))),
        (9, Some((6, 4, 6, Some(2), Some(5)))),
    ];
    for (texture, want) in cases {
        assert_eq!(rt; told(&lump, texture), want, "{texture}");
    }
}

#[test]
fn tells_the_first_group_that_lacks_a_frame(rt: HostRuntime) {
    let cases: [(&[&[u8]], u32, u8); 5] = [
        (
            &[b"wall", b"+0x", b"+dx", b"+0y", b"+2y", b"+1x", b"+ax"],
            1,
            b'B',
        ),
        (&[b"+bx", b"+2x", b"+0x"], 0, b'1'),
        (&[b"+0y", b"+9y", b"+0x", b"+2x"], 0, b'1'),
        (&[b"+0x\x00a", b"+1x\x00b", b"+3x\x00c"], 0, b'2'),
        (&[b"+0x", b"+1xx"], 1, b'0'),
    ];
    for (names, texture, frame) in cases {
        let lump = named(rt.alloc(), names).expect(&rt, "memory");
        assert_eq!(rt;
            check_lump_frames(&lump),
            Err(BspFault::MissingFrame { texture, frame })
        );
    }
}

fn check_lump_frames(lump: &[u8]) -> Result<(), BspFault> {
    check_table(lump)?;
    check_textures(lump)?;
    check_frames(lump)
}

// 4096 textures, each of which is the only frame of its animation, or all of them the same frame.
fn animated(alloc: Global, is_alone: bool) -> Result<Vec<u8>, AllocError> {
    let mut file = large(alloc, 180_416, &[(5, 188), (6, 180_228)])?;
    put_words(&mut file, &[(47, 4096)]);
    for texture in 0..4096 {
        let number = if is_alone { texture } else { 0 };
        let name = 0x4040_4040 + number % 64 + number / 64 * 256;
        let at = 10 * texture as usize;
        let words = [
            (48 + texture as usize, 16_388 + 40 * texture),
            (4144 + at, 0x4040_302b),
            (4145 + at, name),
        ];
        put_words(&mut file, &words);
    }
    Ok(file)
}

#[test]
fn finds_many_groups(rt: HostRuntime) {
    for is_alone in [true, false] {
        let file = animated(rt.alloc(), is_alone).expect(&rt, "memory");
        assert_eq!(rt; check_bsp(&file), Ok(()));
        let lump = file.get(188..).expect(&rt, "textures");
        let last = told(lump, 4095);
        assert_eq!(rt; last, Some((2, 0, 2, Some(4095), None)));
        assert_eq!(rt; told(lump, 0).is_some(), is_alone);
    }
}
