// Models: alias models, sprites and wads, loaded, shown and refused.
use super::{check_end, run_on, sink};
use crate::Status;
use outside_io::{Folder, MemFile, MemFolder};
use std::alloc::{AllocError, Global};
use std::process::Abort;
use std::test::Fail;

// What a file has: an alias model with a skin of this size, and a group of one pose with this interval; or other bytes.
#[derive(Clone, Copy)]
enum Content {
    Alias {
        width: u16,
        height: u16,
        interval: u32,
    },
    Bytes(&'static [u8]),
}

// A frame of 3 times 2 pixels.
const SPRITE: Content = Content::Bytes(
    b"IDSP\x01\0\0\0\x02\0\0\0\0\0\0\0\x03\0\0\0\x02\0\0\0\x01\0\0\0\0\0\0\0\0\0\0\0\
      \0\0\0\0\0\0\0\0\0\0\0\0\x03\0\0\0\x02\0\0\0\x01\x02\x03\x04\x05\xff",
);

// A picture of two pixels with the name PIC, and four bytes with the name SQUASHED, which are compressed.
const WAD: Content = Content::Bytes(
    b"WAD2\x02\0\0\0\x1a\0\0\0\x02\0\0\0\x01\0\0\0\x0a\x0babcd\
      \x0c\0\0\0\x0a\0\0\0\x0a\0\0\0\x42\0\0\0PIC\0\0\0\0\0\0\0\0\0\0\0\0\0\
      \x16\0\0\0\x04\0\0\0\x04\0\0\0\x42\x01\0\0SQUASHED\0\0\0\0\0\0\0\0",
);

// Two samples.
const SOUND: Content = Content::Bytes(
    b"RIFF\0\0\0\0WAVEfmt \x10\0\0\0\x01\0\x01\0\x11\x2b\0\0\0\0\0\0\0\0\x08\0data\x02\0\0\0\x80\x81",
);

fn alias(width: u16, height: u16, interval: u32) -> Content {
    Content::Alias {
        width,
        height,
        interval,
    }
}

// An alias model of one skin, one vertex, one triangle, and one frame.
fn alias_bytes(
    alloc: Global,
    width: u16,
    height: u16,
    interval: u32,
) -> Result<Vec<u8>, AllocError> {
    let pixels = usize::from(width) * usize::from(height);
    let mut bytes = Vec::from_slice(alloc, b"IDPO\x06\0\0\0")?;
    bytes.extend_from_slice(&[0; 40])?;
    for number in [1, u32::from(width), u32::from(height), 1, 1, 1] {
        bytes.extend_from_slice(&number.to_le_bytes())?;
    }
    // The rest of the header, a single skin, the vertex and the triangle.
    bytes.extend_from_slice(&vec![in alloc; 0u8; 12 + 4 + pixels + 12 + 16]?)?;
    bytes.extend_from_slice(b"\x01\0\0\0\x01\0\0\0\0\0\0\0\0\0\0\0")?;
    bytes.extend_from_slice(&interval.to_le_bytes())?;
    bytes.extend_from_slice(&[0; 28])?;
    Ok(bytes)
}

fn bytes_of(alloc: Global, content: Content) -> Result<Vec<u8>, AllocError> {
    match content {
        Content::Alias {
            width,
            height,
            interval,
        } => alias_bytes(alloc, width, height, interval),
        Content::Bytes(bytes) => Vec::from_slice(alloc, bytes),
    }
}

// A folder of models and a sound, whose call of this number fails.
fn folder(rt: &impl Abort, alloc: Global, fails: u64) -> Result<Box<dyn Folder>, AllocError> {
    let files = [
        ("g.mdl", alias(4, 1, 0x3dcc_cccd)),
        ("b.mdl", alias(4, 1, 0x8000_0000)),
        ("big.mdl", alias(400, 1000, 0x3dcc_cccd)),
        ("p.spr", SPRITE),
        ("s", SPRITE),
        ("sound/s", SOUND),
        ("w.wad", WAD),
        ("v.wad", Content::Bytes(b"WAD2....")),
        ("x.bsp", Content::Bytes(b"\x1d\0\0\0....")),
        ("two", Content::Bytes(b"ID")),
        ("empty", Content::Bytes(b"")),
    ];
    let mut held = Vec::new(alloc);
    for (name, content) in files {
        let bytes = bytes_of(alloc, content)?;
        assert!(rt; bytes.len() < 1_000_000);
        held.push(MemFile {
            name: Vec::from_slice(alloc, name.as_bytes())?,
            bytes,
        })?;
    }
    let folder = MemFolder::create(held, Vec::from_slice(alloc, &[fails])?);
    Ok(Box::new(alloc, folder)?)
}

// Compares what a script prints over those files on the smallest heap.
fn check_models(rt: &impl Abort, alloc: Global, text: &str, put: &str) -> Result<(), AllocError> {
    let mut out = sink(alloc)?;
    let folder = folder(rt, alloc, 99)?;
    let status = run_on(rt, alloc, &["-heapsize", "1024"], folder, text, &mut out)?;
    check_end(rt, &status, &out, 0, "", put);
    Ok(())
}

#[test]
fn models_are_acquired(rt: HostRuntime) -> Result<(), Fail> {
    let cases = [
        // The low block through which the image goes is freed again.
        (
            "model b.mdl;model g.mdl\nmodel g.mdl;info model g.mdl;reserve 100 x;MODEL g.mdl",
            "bad alias b.mdl: interval frame 0\nalias g.mdl 188 at 49416 loaded\n\
             alias g.mdl 188 at 49416 present\n\
             alias g.mdl skins 1 width 4 height 1 verts 1 tris 1 frames 1 pictures 1 poses 1\n\
             reserve x 100 at 49184\nalias g.mdl 188 at 49416 present\n",
        ),
        (
            "model p.spr;model p.spr\ninfo model p.spr;dump model p.spr",
            "sprite p.spr 78 at 49184 loaded\nsprite p.spr 78 at 49184 present\n\
             sprite p.spr type 2 frames 1 pictures 1\ndump p.spr 78\n\
             0300000002000000000000000300000002000000010000000000000000000000\n\
             0100000000000000000000000100000000000000000000000000000003000000\n\
             02000000480000000102030405ff\n",
        ),
        (
            "model v.wad;model x.bsp;model two;model empty",
            "bad wad v.wad: not wad\nbad brush x.bsp: short\n\
             bad brush two: short\nbad brush empty: short\n",
        ),
        (
            "model;model ../x;model none\ninfo model none;info Model p.spr;info;dump model ../x;dump model none",
            "bad name\nbad name\nnot found: none\n\
             none is absent\nbad kind\nbad kind\nbad name\nnone is absent\n",
        ),
        (
            "pic pic;wad w.wad;pic pic;pic squashed;pic none\ninfo model w.wad",
            "no wad\nwad w.wad 90 at 49184 loaded\npic pic 2 1\n0a0b\n\
             compressed lump squashed\nno lump none\nwad w.wad lumps 2\n\
             lump 0 PIC type 66 size 10 compression 0\nlump 1 SQUASHED type 66 size 4 compression 1\n",
        ),
        // Another model is loaded all the same, and a refused one changes nothing.
        (
            "wad p.spr;pic pic;wad w.wad\nwad p.spr;wad v.wad;wad none;wad ../x;PIC Pic;pic;model w.wad",
            "p.spr is no wad\nno wad\nwad w.wad 90 at 49280 loaded\n\
             p.spr is no wad\nbad wad v.wad: not wad\nnot found: none\nbad name\npic pic 2 1\n0a0b\n\
             no lump \nwad w.wad 90 at 49280 present\n",
        ),
        // A name of both tables has a resource of each. A flush leaves the low hunk.
        (
            "model s;sound s;info model s;info sound s\nsound s;model s;flush;info model s;info sound s",
            "sprite s 78 at 49184 loaded\nsound s 22 at 49304 loaded\n\
             sprite s type 2 frames 1 pictures 1\nsound s length 2 loop none speed 11025 width 1\n\
             sound s 22 at 49304 present\nsprite s 78 at 49184 present\n\
             sprite s type 2 frames 1 pictures 1\ns is absent\n",
        ),
        // Behind the zone there are 999408 bytes. The first block takes 128 of them, the file 400192, and the image
        // 400208 on the low hunk, so the 400224 that it needs in the cache are refused. Then the low block is freed.
        (
            "reserve 100 a;model big.mdl\ninfo model big.mdl;reserve 100 b",
            "reserve a 100 at 49184\nfailed on 400224 bytes\n\
             big.mdl is absent\nreserve b 100 at 49312\n",
        ),
    ];
    for (text, put) in cases {
        check_models(&rt, rt.alloc(), text, put)?;
    }
    Ok(())
}

// The calls of the folder: for `pak0.pak`, for the length of the file, and for its bytes.
#[test]
fn a_fault_at_a_model_hands_the_folder_back(rt: HostRuntime) -> Result<(), Fail> {
    let mut out = sink(rt.alloc())?;
    let folder = folder(&rt, rt.alloc(), 2)?;
    let status = run_on(
        &rt,
        rt.alloc(),
        &[],
        folder,
        "echo a\nmodel g.mdl",
        &mut out,
    )?;
    check_end(&rt, &status, &out, 6, "folder read fault", "a \n");
    match status {
        Status::FolderFault { word, folder } => {
            assert_eq!(rt; word, 0);
            assert_eq!(rt; folder.faults_seen(), 1);
        }
        _ => assert!(rt; false),
    }
    Ok(())
}
