// The texts of brush models.
use super::*;
use crate::brushes::info_brush;
use bsp29_build::BspBuilder;
use bsp29_tables::BspFault;
use mem_model::Builder;

// A map of eight textures, and a model of zeros. The textures 1, 4 and 7 are there, the first without pixels.
const HEADER: [u32; 31] = [
    29, 0, 0, 0, 0, 124, 836, 0, 0, 0, 0, 0, 0, 0, 0, 0, 0, 0, 0, 0, 0, 0, 0, 0, 0, 0, 0, 0, 0,
    960, 64,
];

const TABLE: [u32; 9] = [
    8,
    0xffff_ffff,
    36,
    0xffff_ffff,
    0xffff_ffff,
    76,
    0xffff_ffff,
    0xffff_ffff,
    456,
];

const TEXTURE: [u32; 10] = [0x6c6c_0177, 0, 0, 0, 16, 0, 40, 41, 42, 43];

// The first bytes of the names `+0slip` and `+1slip`.
const FRAMES: [u32; 2] = [0x6c73_302b, 0x6c73_312b];

const MODEL: [u32; 16] = [0; 16];

const FAULTS: [(BspFault, &[u8]); 12] = [
    (BspFault::Short, b"short"),
    (BspFault::Version { found: 30 }, b"version 30"),
    (BspFault::LumpOutside { lump: 1 }, b"lump 1 outside"),
    (BspFault::LumpSize { lump: 14 }, b"lump 14 size"),
    (BspFault::LumpCount { lump: 5 }, b"lump 5 too many"),
    (BspFault::NoModel, b"no model"),
    (BspFault::TextureTable, b"texture table"),
    (
        BspFault::TextureOutside { texture: 0 },
        b"texture 0 outside",
    ),
    (
        BspFault::TextureSize { texture: 4095 },
        b"texture 4095 size",
    ),
    (
        BspFault::BadAnimation { texture: 3 },
        b"texture 3 bad animation",
    ),
    (
        BspFault::MissingFrame {
            texture: 0,
            frame: b'J',
        },
        b"texture 0 missing frame J",
    ),
    (BspFault::TooLarge, b"too large"),
];

const TEXT: &[u8] =
    b"brush m.bsp planes 0 vertexes 0 nodes 0 texinfos 0 faces 0 clipnodes 0 leafs 0 \
    marksurfaces 0 edges 0 surfedges 0 models 1 textures 8 visleafs 0\n\
    texture 0 missing\n\
    texture 1 w?ll 16 0 total 0 min 0 max 0 next none alternate none\n\
    texture 2 missing\n\
    texture 3 missing\n\
    texture 4 +0slip 16 16 total 4 min 0 max 2 next 7 alternate none\n\
    texture 5 missing\n\
    texture 6 missing\n\
    texture 7 +1slip 16 16 total 4 min 2 max 4 next 4 alternate none\n";

#[test]
fn each_fault_of_a_brush_model_has_its_line(rt: HostRuntime) -> Result<(), Fail> {
    for (fault, wrong) in FAULTS {
        tells(
            &rt,
            rt.alloc(),
            Fault::Brush(fault),
            &[b"bad brush x: ", wrong, b"\n"],
        )?;
    }
    let row = BspFault::BadRow {
        lump: 7,
        row: 65535,
    };
    let parts: [&[u8]; 3] = [b"bad brush x: lump 7 row ", b"65535", b"\n"];
    tells(&rt, rt.alloc(), Fault::Brush(row), &parts)
}

fn put_words(file: &mut Vec<u8>, words: &[u32]) -> Result<(), AllocError> {
    for word in words {
        file.extend_from_slice(&word.to_le_bytes())?;
    }
    Ok(())
}

// The file of the map.
fn map(alloc: Global) -> Result<Vec<u8>, AllocError> {
    let mut file = Vec::new(alloc);
    put_words(&mut file, &HEADER)?;
    put_words(&mut file, &TABLE)?;
    put_words(&mut file, &TEXTURE)?;
    for name in FRAMES {
        put_words(&mut file, &[name, 0x7069, 0, 0, 16, 16, 0, 0, 0, 0])?;
        put_words(&mut file, &[0; 85])?;
    }
    put_words(&mut file, &MODEL)?;
    Ok(file)
}

// Each sink has room for so many bytes.
#[test]
fn a_brush_model_tells_its_tables(rt: HostRuntime) -> Result<(), Fail> {
    let alloc = rt.alloc();
    let name = game_name(b"m.bsp").expect(&rt, "a name");
    let file = map(alloc)?;
    assert!(rt; file.len() <= 1 << 26);
    let size = BspBuilder.size(&file).expect(&rt, "a size");
    let mut block = vec![in alloc; 0; size as usize]?;
    BspBuilder.build(&file, &mut block);
    for (capacity, fits) in [(600, true), (10, false), (150, false), (400, false)] {
        let mut out = MemSink::create(alloc, capacity, Vec::new(alloc))?;
        assert_eq!(rt; info_brush(&name, &block, &mut out).is_ok(), fits);
        assert!(rt; TEXT.starts_with(out.got()));
    }
    let mut out = MemSink::create(alloc, 600, Vec::new(alloc))?;
    info_brush(&name, &block, &mut out)?;
    assert_eq!(rt; out.got(), TEXT);
    Ok(())
}
