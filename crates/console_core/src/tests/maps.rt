// Maps: loaded, changed, shown and refused, and what is seen from their leafs.
use super::{check_end, run_on, sink};
use outside_io::{Folder, MemFile, MemFolder};
use std::alloc::{AllocError, Global};
use std::process::Abort;
use std::test::Fail;

// A frame of 3 times 2 pixels.
const SPRITE: &[u8] =
    b"IDSP\x01\0\0\0\x02\0\0\0\0\0\0\0\x03\0\0\0\x02\0\0\0\x01\0\0\0\0\0\0\0\0\0\0\0\
      \0\0\0\0\0\0\0\0\0\0\0\0\x03\0\0\0\x02\0\0\0\x01\x02\x03\x04\x05\xff";

// Four samples, at twice the speed.
const SOUND: &[u8] =
    b"RIFF\0\0\0\0WAVEfmt \x10\0\0\0\x01\0\x01\0\x22\x56\0\0\0\0\0\0\0\0\x08\0data\x04\0\0\0\x80\x81\x82\x83";

// A map of this version whose texture lump and model stand behind the header.
fn map(
    rt: &impl Abort,
    alloc: Global,
    version: u32,
    textures: &[u8],
) -> Result<Vec<u8>, AllocError> {
    assert!(rt; textures.len() < 1_000_000);
    let length = textures.len() as u32;
    let mut bytes = Vec::from_slice(alloc, &version.to_le_bytes())?;
    bytes.extend_from_slice(&[0; 16])?;
    bytes.extend_from_slice(&124u32.to_le_bytes())?;
    bytes.extend_from_slice(&length.to_le_bytes())?;
    bytes.extend_from_slice(&[0; 88])?;
    bytes.extend_from_slice(&(124 + length).to_le_bytes())?;
    bytes.extend_from_slice(&64u32.to_le_bytes())?;
    bytes.extend_from_slice(textures)?;
    bytes.extend_from_slice(&[0; 64])?;
    Ok(bytes)
}

// A texture lump of 4096 textures, all of which are one of 640 times 640 pixels.
fn shared(alloc: Global) -> Result<Vec<u8>, AllocError> {
    let mut bytes = Vec::from_slice(alloc, &4096u32.to_le_bytes())?;
    for _ in 0..4096 {
        bytes.extend_from_slice(&16_388u32.to_le_bytes())?;
    }
    bytes.extend_from_slice(b"rock\0\0\0\0\0\0\0\0\0\0\0\0")?;
    for number in [640, 640, 0, 0, 0, 0] {
        bytes.extend_from_slice(&u32::to_le_bytes(number))?;
    }
    bytes.extend_from_slice(&vec![in alloc; 0u8; 640 * 640 / 64 * 85]?)?;
    Ok(bytes)
}

// Adds leafs, of which the row of leaf 1 begins with the bytes of visibility, and those of the others nowhere.
fn add_leafs(file: &mut Vec<u8>, leafs: u32) -> Result<(), AllocError> {
    for leaf in 0..leafs {
        let offset: i32 = if leaf == 1 { 0 } else { -1 };
        file.extend_from_slice(&[255; 4])?;
        file.extend_from_slice(&offset.to_le_bytes())?;
        file.extend_from_slice(&[0; 20])?;
    }
    Ok(())
}

// A map of leafs, of which all but leaf 0 can be seen, with these bytes of visibility.
fn seen(rt: &impl Abort, alloc: Global, leafs: u32, bytes: &[u8]) -> Result<Vec<u8>, AllocError> {
    assert!(rt; leafs <= 100 && bytes.len() <= 100);
    let models = 124 + 28 * leafs;
    let mut file = Vec::from_slice(alloc, &29u32.to_le_bytes())?;
    for lump in 0..15 {
        let (start, length) = match lump {
            4 => (models + 64, bytes.len() as u32),
            10 => (124, 28 * leafs),
            14 => (models, 64),
            _ => (0, 0),
        };
        file.extend_from_slice(&u32::to_le_bytes(start))?;
        file.extend_from_slice(&u32::to_le_bytes(length))?;
    }
    add_leafs(&mut file, leafs)?;
    file.extend_from_slice(&[0; 52])?;
    file.extend_from_slice(&leafs.saturating_sub(1).to_le_bytes())?;
    file.extend_from_slice(&[0; 8])?;
    file.extend_from_slice(bytes)?;
    Ok(file)
}

// What a file has: a map of this version and nothing else, a map of so many leafs and these bytes of visibility, the map of
// those textures, or other bytes.
#[derive(Clone, Copy)]
enum Content {
    Map(u32),
    Seen(u32, &'static [u8]),
    Large,
    Bytes(&'static [u8]),
}

fn bytes_of(rt: &impl Abort, alloc: Global, content: Content) -> Result<Vec<u8>, AllocError> {
    match content {
        Content::Map(version) => map(rt, alloc, version, b""),
        Content::Seen(leafs, bytes) => seen(rt, alloc, leafs, bytes),
        Content::Large => {
            let textures = shared(alloc)?;
            map(rt, alloc, 29, &textures)
        }
        Content::Bytes(bytes) => Vec::from_slice(alloc, bytes),
    }
}

// A folder of maps, a sprite and a sound, whose call of this number fails.
fn folder(rt: &impl Abort, alloc: Global, fails: u64) -> Result<Box<dyn Folder>, AllocError> {
    let files = [
        ("maps/m0.bsp", Content::Map(29)),
        ("maps/v.bsp", Content::Map(30)),
        ("maps/big.bsp", Content::Large),
        ("maps/s.bsp", Content::Seen(21, b"\x05\x00\x02")),
        ("maps/t.bsp", Content::Seen(21, b"\x05\x00")),
        ("maps/one.bsp", Content::Seen(1, b"")),
        ("maps/p.bsp", Content::Bytes(SPRITE)),
        ("p.spr", Content::Bytes(SPRITE)),
        ("sound/x.wav", Content::Bytes(SOUND)),
    ];
    let mut held = Vec::new(alloc);
    for (name, content) in files {
        let bytes = bytes_of(rt, alloc, content)?;
        assert!(rt; bytes.len() < 1_000_000);
        held.push(MemFile {
            name: Vec::from_slice(alloc, name.as_bytes())?,
            bytes,
        })?;
    }
    let folder = MemFolder::create(held, Vec::from_slice(alloc, &[fails])?);
    Ok(Box::new(alloc, folder)?)
}

// Compares what a script prints over those files on the smallest heap, whose call of this number fails.
fn check_maps(
    rt: &impl Abort,
    alloc: Global,
    fails: u64,
    text: &str,
    put: &str,
) -> Result<(), AllocError> {
    let mut out = sink(alloc)?;
    let folder = folder(rt, alloc, fails)?;
    let status = run_on(rt, alloc, &["-heapsize", "1024"], folder, text, &mut out)?;
    check_end(rt, &status, &out, 0, "", put);
    Ok(())
}

#[test]
fn maps_are_changed(rt: HostRuntime) -> Result<(), Fail> {
    let cases = [
        // There are seven calls: for a pack, and two for each load. The sound is present the second time.
        (
            7,
            "map m0;sound x.wav\nmap m0;sound x.wav",
            "brush maps/m0.bsp 196 at 49184 loaded\nsound x.wav 22 at 49432 loaded\n\
             brush maps/m0.bsp 196 at 49184 loaded\nsound x.wav 22 at 49432 present\n",
        ),
        // What lies below the level stays.
        (
            99,
            "model maps/m0.bsp;level;reserve 100 x\nmap m0;reserve 100 x",
            "brush maps/m0.bsp 196 at 49184 loaded\nlevel 49392\nreserve x 100 at 49408\n\
             brush maps/m0.bsp 196 at 49184 present\nreserve x 100 at 49408\n",
        ),
        // What lay behind it is absent, also after a refusal.
        (
            99,
            "model p.spr;map m0;info model p.spr\nmap none;info model maps/m0.bsp;model p.spr",
            "sprite p.spr 78 at 49184 loaded\nbrush maps/m0.bsp 196 at 49184 loaded\n\
             p.spr is absent\nnot found: maps/none.bsp\nmaps/m0.bsp is absent\n\
             sprite p.spr 78 at 49184 loaded\n",
        ),
        (
            99,
            "map;map ../m0;map p;map v\nMAP big;reserve 100 x",
            "bad name\nbad name\nmaps/p.bsp is no map\nbad brush maps/v.bsp: version 30\n\
             bad brush maps/big.bsp: too large\nreserve x 100 at 49184\n",
        ),
        (
            99,
            "map m0;info model maps/m0.bsp",
            "brush maps/m0.bsp 196 at 49184 loaded\n\
             brush maps/m0.bsp planes 0 vertexes 0 nodes 0 texinfos 0 faces 0 clipnodes 0 leafs 0 \
             marksurfaces 0 edges 0 surfedges 0 models 1 textures 0 visleafs 0\n",
        ),
    ];
    for (fails, text, put) in cases {
        check_maps(&rt, rt.alloc(), fails, text, put)?;
    }
    Ok(())
}

#[test]
fn leafs_are_seen_in_the_current_map(rt: HostRuntime) -> Result<(), Fail> {
    let cases = [
        (
            "vis x;map s;vis 0;vis 1\nvis 2;vis 20;vis 021;VIS x;vis;vis 1234567890",
            "no map\nbrush maps/s.bsp 871 at 49184 loaded\nvis 0 ffffff\nvis 1 050000\nvis 2 ffffff\n\
             vis 20 ffffff\nno leaf 21\nbad number\nbad number\nbad number\n",
        ),
        // After a refusal there is no current map, but for a bad name.
        (
            "map s;map none;vis 1\nmap s;map ../s;vis 1;map p;vis 1",
            "brush maps/s.bsp 871 at 49184 loaded\nnot found: maps/none.bsp\nno map\n\
             brush maps/s.bsp 871 at 49184 loaded\nbad name\nvis 1 050000\nmaps/p.bsp is no map\nno map\n",
        ),
        (
            "map t;vis 1;map one;vis 0;vis 1;map m0;vis 0;model maps/s.bsp;vis 0",
            "brush maps/t.bsp 870 at 49184 loaded\nvis row \
             1 truncated\n\
             brush maps/one.bsp 228 at 49184 loaded\nvis 0 \nno leaf 1\n\
             brush maps/m0.bsp 196 at 49184 loaded\nno leaf 0\n\
             brush maps/s.bsp 871 at 49408 loaded\nno leaf 0\n",
        ),
    ];
    for (text, put) in cases {
        check_maps(&rt, rt.alloc(), 99, text, put)?;
    }
    Ok(())
}
