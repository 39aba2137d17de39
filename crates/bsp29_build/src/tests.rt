use super::*;
use bsp29_tables::BspFault;
use mem_model::Builder;
use std::alloc::{AllocError, Global};

// The tables have words, each with how often it comes.

// The version, and where the lumps are.
const FILE_HEADER: &[(u32, usize)] = &[
    (0x1d, 1),
    (0x7c, 1),
    (4, 1),
    (0x80, 1),
    (0x28, 1),
    (0xa8, 1),
    (0x1e0, 1),
    (0x288, 1),
    (0x18, 1),
    (0x2a0, 1),
    (4, 1),
    (0x2a4, 1),
    (0x48, 1),
    (0x2ec, 1),
    (0xa0, 1),
    (0x38c, 1),
    (0x50, 1),
    (0x3dc, 1),
    (4, 1),
    (0x3e0, 1),
    (8, 1),
    (0x3e8, 1),
    (0x54, 1),
    (0x43c, 1),
    (4, 1),
    (0x440, 1),
    (4, 1),
    (0x444, 1),
    (4, 1),
    (0x448, 1),
    (0x40, 1),
];

// Entities, and two planes: below 0 are the second part of the normal and the third.
const FILE_FRONT: &[(u32, usize)] = &[
    (0x000a_7d7b, 1),
    (0x8000_0000, 1),
    (0xbf80_0000, 1),
    (0x3f80_0000, 1),
    (0, 1),
    (1, 1),
    (0x8000_0001, 1),
    (0, 1),
    (0xff80_0000, 1),
    (5, 1),
    (3, 1),
];

// Four textures, the second of which is missing and the third has pixels.
const FILE_TEXTURES: &[(u32, usize)] = &[
    (4, 1),
    (0x14, 1),
    (0xffff_ffff, 1),
    (0x3c, 1),
    (0x1b8, 1),
    (0x0079_6b73, 1),
    (0x7473_6572, 1),
    (0, 2),
    (0x10, 1),
    (0, 1),
    (0x28, 1),
    (0x29, 1),
    (0x2a, 1),
    (0x2b, 1),
    (0x7661_6c2a, 1),
    (0x61, 1),
    (0, 2),
    (0x10, 2),
    (0x28, 1),
    (0x29, 1),
    (0x2a, 1),
    (0x2b, 1),
    (0x0707_0707, 85),
    (0x6c6c_6177, 1),
    (0, 3),
    (0x10, 1),
    (0, 1),
    (0x28, 1),
    (0x29, 1),
    (0x2a, 1),
    (0x2b, 1),
];

// Vertexes and visibility.
const FILE_VERTEXES: &[(u32, usize)] = &[
    (1, 1),
    (2, 1),
    (3, 1),
    (1, 1),
    (2, 1),
    (3, 1),
    (0x0102_0005, 1),
];

// Three nodes with the children 1 and leaf 1, leaf 0 and 2, leaf 1 and leaf 0.
const FILE_NODES: &[(u32, usize)] = &[
    (0, 1),
    (0xfffe_0001, 1),
    (0x0002_0001, 1),
    (0x0004_0003, 1),
    (0x0006_0005, 1),
    (0x0001_0000, 1),
    (1, 1),
    (0x0002_ffff, 1),
    (0x0002_0001, 1),
    (0x0004_0003, 1),
    (0x0006_0005, 1),
    (0x0001_0000, 1),
    (0, 1),
    (0xffff_fffe, 1),
    (0x0002_0001, 1),
    (0x0004_0003, 1),
    (0x0006_0005, 1),
    (0x0001_0000, 1),
];

// A texinfo for each texture.
const FILE_TEXINFOS: &[(u32, usize)] = &[
    (9, 8),
    (0, 2),
    (9, 8),
    (1, 1),
    (0, 1),
    (9, 8),
    (2, 1),
    (0, 1),
    (9, 8),
    (3, 1),
    (0, 1),
];

// Faces of the textures 2, 0, 1 and 3, lighting and a clipnode.
const FILE_FACES: &[(u32, usize)] = &[
    (1, 1),
    (0, 1),
    (0x0002_0001, 1),
    (0xffff_ff00, 1),
    (0xffff_ffff, 1),
    (1, 1),
    (0, 1),
    (1, 1),
    (0xffff_ff00, 1),
    (0xffff_ffff, 1),
    (1, 1),
    (0, 1),
    (0x0001_0001, 1),
    (0xffff_ff00, 1),
    (0xffff_ffff, 1),
    (1, 1),
    (0, 1),
    (0x0003_0001, 1),
    (0xffff_ff00, 1),
    (0xffff_ffff, 1),
    (0x4030_2010, 1),
    (0, 1),
    (0xffff, 1),
];

// Three leafs with the contents -2, -6 and -1.
const FILE_LEAFS: &[(u32, usize)] = &[
    (0xffff_fffe, 1),
    (0xffff_ffff, 1),
    (0x0002_0001, 1),
    (0x0004_0003, 1),
    (0x0006_0005, 1),
    (0x0002_0000, 1),
    (0, 1),
    (0xffff_fffa, 1),
    (0xffff_ffff, 1),
    (0x0002_0001, 1),
    (0x0004_0003, 1),
    (0x0006_0005, 1),
    (0x0002_0000, 1),
    (0, 1),
    (0xffff_ffff, 2),
    (0x0002_0001, 1),
    (0x0004_0003, 1),
    (0x0006_0005, 1),
    (0x0002_0000, 1),
    (0, 1),
];

// Marksurfaces, an edge, a surfedge and a model.
const FILE_BACK: &[(u32, usize)] = &[
    (0x0003_0000, 1),
    (0x0001_0000, 1),
    (0, 14),
    (2, 1),
    (0, 1),
    (4, 1),
];

const FILE: [&[(u32, usize)]; 9] = [
    FILE_HEADER,
    FILE_FRONT,
    FILE_TEXTURES,
    FILE_VERTEXES,
    FILE_NODES,
    FILE_TEXINFOS,
    FILE_FACES,
    FILE_LEAFS,
    FILE_BACK,
];

// The version, and where the sections begin and how many rows they have.
const IMAGE_HEADER: &[(u32, usize)] = &[
    (0x1d, 1),
    (0x84, 1),
    (4, 1),
    (0x88, 1),
    (2, 1),
    (0xb8, 1),
    (4, 1),
    (0x31c, 1),
    (2, 1),
    (0x334, 1),
    (4, 1),
    (0x338, 1),
    (3, 1),
    (0x38c, 1),
    (4, 1),
    (0x42c, 1),
    (4, 1),
    (0x48c, 1),
    (4, 1),
    (0x490, 1),
    (1, 1),
    (0x498, 1),
    (3, 1),
    (0x4f8, 1),
    (2, 1),
    (0x4fc, 1),
    (1, 1),
    (0x500, 1),
    (1, 1),
    (0x504, 1),
    (1, 1),
    (0x544, 1),
    (3, 1),
];

// The planes have their signs.
const IMAGE_FRONT: &[(u32, usize)] = &[
    (0x000a_7d7b, 1),
    (0x8000_0000, 1),
    (0xbf80_0000, 1),
    (0x3f80_0000, 1),
    (0, 1),
    (1, 1),
    (2, 1),
    (0x8000_0001, 1),
    (0, 1),
    (0xff80_0000, 1),
    (5, 1),
    (3, 1),
    (5, 1),
];

// The first name ends at its zero byte.
const IMAGE_TEXTURES: &[(u32, usize)] = &[
    (1, 1),
    (0x0079_6b73, 1),
    (0, 3),
    (0x10, 1),
    (0, 1),
    (0x28, 1),
    (0x29, 1),
    (0x2a, 1),
    (0x2b, 1),
    (0, 3),
    (0xffff_ffff, 2),
    (0x1c8, 1),
    (0, 17),
    (1, 1),
    (0x7661_6c2a, 1),
    (0x61, 1),
    (0, 2),
    (0x10, 2),
    (0x28, 1),
    (0x29, 1),
    (0x2a, 1),
    (0x2b, 1),
    (0, 3),
    (0xffff_ffff, 2),
    (0x1c8, 1),
    (1, 1),
    (0x6c6c_6177, 1),
    (0, 3),
    (0x10, 1),
    (0, 1),
    (0x28, 1),
    (0x29, 1),
    (0x2a, 1),
    (0x2b, 1),
    (0, 3),
    (0xffff_ffff, 2),
    (0x31c, 1),
    (0x0707_0707, 85),
];

// Vertexes and visibility.
const IMAGE_VERTEXES: &[(u32, usize)] = &[
    (1, 1),
    (2, 1),
    (3, 1),
    (1, 1),
    (2, 1),
    (3, 1),
    (0x0102_0005, 1),
];

// Their parents are none, 0 and 1.
const IMAGE_NODES: &[(u32, usize)] = &[
    (0, 1),
    (0xfffe_0001, 1),
    (0x0002_0001, 1),
    (0x0004_0003, 1),
    (0x0006_0005, 1),
    (0x0001_0000, 1),
    (0xffff_ffff, 1),
    (1, 1),
    (0x0002_ffff, 1),
    (0x0002_0001, 1),
    (0x0004_0003, 1),
    (0x0006_0005, 1),
    (0x0001_0000, 1),
    (0, 2),
    (0xffff_fffe, 1),
    (0x0002_0001, 1),
    (0x0004_0003, 1),
    (0x0006_0005, 1),
    (0x0001_0000, 1),
    (1, 1),
];

// As in the file.
const IMAGE_TEXINFOS: &[(u32, usize)] = &[
    (9, 8),
    (0, 2),
    (9, 8),
    (1, 1),
    (0, 1),
    (9, 8),
    (2, 1),
    (0, 1),
    (9, 8),
    (3, 1),
    (0, 1),
];

// Their kinds are turbulent, sky, and two plain ones.
const IMAGE_FACES: &[(u32, usize)] = &[
    (1, 1),
    (0, 1),
    (0x0002_0001, 1),
    (0xffff_ff00, 1),
    (0xffff_ffff, 1),
    (2, 1),
    (1, 1),
    (0, 1),
    (1, 1),
    (0xffff_ff00, 1),
    (0xffff_ffff, 1),
    (1, 2),
    (0, 1),
    (0x0001_0001, 1),
    (0xffff_ff00, 1),
    (0xffff_ffff, 1),
    (0, 1),
    (1, 1),
    (0, 1),
    (0x0003_0001, 1),
    (0xffff_ff00, 1),
    (0xffff_ffff, 1),
    (0, 1),
    (0x4030_2010, 1),
    (0, 1),
    (0xffff, 1),
];

// Their parents are 1, 0 and none.
const IMAGE_LEAFS: &[(u32, usize)] = &[
    (0xffff_fffe, 1),
    (0xffff_ffff, 1),
    (0x0002_0001, 1),
    (0x0004_0003, 1),
    (0x0006_0005, 1),
    (0x0002_0000, 1),
    (0, 1),
    (1, 1),
    (0xffff_fffa, 1),
    (0xffff_ffff, 1),
    (0x0002_0001, 1),
    (0x0004_0003, 1),
    (0x0006_0005, 1),
    (0x0002_0000, 1),
    (0, 2),
    (0xffff_ffff, 2),
    (0x0002_0001, 1),
    (0x0004_0003, 1),
    (0x0006_0005, 1),
    (0x0002_0000, 1),
    (0, 1),
    (0xffff_ffff, 1),
];

// Marksurfaces, an edge, a surfedge and a model.
const IMAGE_BACK: &[(u32, usize)] = &[
    (0x0003_0000, 1),
    (0x0001_0000, 1),
    (0, 14),
    (2, 1),
    (0, 1),
    (4, 1),
];

// Where a child is a leaf, its contents.
const IMAGE_HULL: &[(u32, usize)] = &[
    (0, 1),
    (0xfffa_0001, 1),
    (1, 1),
    (0x0002_fffe, 1),
    (0, 1),
    (0xfffe_fffa, 1),
];

const IMAGE: [&[(u32, usize)]; 10] = [
    IMAGE_HEADER,
    IMAGE_FRONT,
    IMAGE_TEXTURES,
    IMAGE_VERTEXES,
    IMAGE_NODES,
    IMAGE_TEXINFOS,
    IMAGE_FACES,
    IMAGE_LEAFS,
    IMAGE_BACK,
    IMAGE_HULL,
];

// The bytes of tables, one behind the other.
fn bytes_of(alloc: Global, tables: &[&[(u32, usize)]]) -> Result<Vec<u8>, AllocError> {
    let mut bytes = Vec::new(alloc);
    for table in tables {
        for (word, times) in *table {
            for _ in 0..*times {
                bytes.extend_from_slice(&word.to_le_bytes())?;
            }
        }
    }
    Ok(bytes)
}

// The image of a file.
fn image(alloc: Global, file: &[u8]) -> Result<Option<Vec<u8>>, AllocError> {
    if file.len() > 1 << 26 {
        return Ok(None);
    }
    let Ok(size) = BspBuilder.size(file) else {
        return Ok(None);
    };
    let mut block = vec![in alloc; 0xaa; size as usize]?;
    BspBuilder.build(file, &mut block);
    Ok(Some(block))
}

#[test]
fn builds_each_section(rt: HostRuntime) {
    let file = bytes_of(rt.alloc(), &FILE).expect(&rt, "memory");
    let expected = bytes_of(rt.alloc(), &IMAGE).expect(&rt, "memory");
    let image = image(rt.alloc(), &file).expect(&rt, "memory");
    assert!(rt; image == Some(expected));
}

// What the image tells of its sections: where each begins, how many rows it has, and the visible leafs.
#[test]
fn tells_of_its_sections(rt: HostRuntime) {
    let image = bytes_of(rt.alloc(), &IMAGE).expect(&rt, "memory");
    let cases = [
        (0, 132, 4),
        (2, 184, 4),
        (5, 824, 3),
        (14, 1284, 1),
        (15, 1348, 3),
    ];
    for (section, start, rows) in cases {
        if image.len() >= 132 {
            assert!(rt; offset(&image, section) == start);
            assert!(rt; count(&image, section) == rows);
        }
    }
}

// A file is refused as its check says.
#[test]
fn refuses_by_the_first_fault(rt: HostRuntime) {
    let file = bytes_of(rt.alloc(), &FILE).expect(&rt, "memory");
    for (length, fault) in [
        (0, BspFault::Short),
        (123, BspFault::Short),
        (1159, BspFault::LumpOutside { lump: 14 }),
    ] {
        if length <= file.len() && file.len() <= 1 << 26 {
            assert!(rt; BspBuilder.size(&file[..length]) == Err(fault));
        }
    }
}
