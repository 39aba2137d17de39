use super::*;
use crate::infos::{info_alias, info_sound, info_sprite};
use alias_load::{AliasFault, AliasField, AliasPart};
use base_fields::game_name;
use outside_io::MemSink;
use res_table::{Fault, Kind, Res};
use sprite_load::SpriteFault;
use std::alloc::{AllocError, Global};
use std::process::Abort;
use std::test::Fail;
use wav_load::WavFault;

mod brushes;
mod wads;

// The bytes from 0 on.
const BYTES: [u8; 64] = [
    0, 1, 2, 3, 4, 5, 6, 7, 8, 9, 10, 11, 12, 13, 14, 15, 16, 17, 18, 19, 20, 21, 22, 23, 24, 25,
    26, 27, 28, 29, 30, 31, 32, 33, 34, 35, 36, 37, 38, 39, 40, 41, 42, 43, 44, 45, 46, 47, 48, 49,
    50, 51, 52, 53, 54, 55, 56, 57, 58, 59, 60, 61, 62, 63,
];

const FIRST: &[u8] = b"000102030405060708090a0b0c0d0e0f101112131415161718191a1b1c1d1e1f";

const SECOND: &[u8] = b"202122232425262728292a2b2c2d2e2f303132333435363738393a3b3c3d3e3f";

// The image of a sound of two samples, up to its loop's start and from its speed on.
const LENGTH: &[u8] = b"\x02\0\0\0";

const SPEED: &[u8] = b"\x11\x2b\0\0\x01\0\0\0\0\0\0\0\0\xff";

// The faults of each kind, and how each is told.
const ALIAS_FAULTS: &[(AliasFault, &[u8])] = &[
    (AliasFault::Short, b"short"),
    (AliasFault::Version { found: 0 }, b"version 0"),
    (
        AliasFault::Version {
            found: 4_294_967_295,
        },
        b"version 4294967295",
    ),
    (
        AliasFault::Header {
            field: AliasField::Numskins,
        },
        b"header numskins",
    ),
    (
        AliasFault::Header {
            field: AliasField::Skinwidth,
        },
        b"header skinwidth",
    ),
    (
        AliasFault::Header {
            field: AliasField::Skinheight,
        },
        b"header skinheight",
    ),
    (
        AliasFault::Header {
            field: AliasField::Numverts,
        },
        b"header numverts",
    ),
    (
        AliasFault::Header {
            field: AliasField::Numtris,
        },
        b"header numtris",
    ),
    (
        AliasFault::Header {
            field: AliasField::Numframes,
        },
        b"header numframes",
    ),
    (
        AliasFault::Truncated {
            part: AliasPart::Skin,
        },
        b"truncated skin",
    ),
    (
        AliasFault::Truncated {
            part: AliasPart::St,
        },
        b"truncated st",
    ),
    (
        AliasFault::Truncated {
            part: AliasPart::Triangle,
        },
        b"truncated triangle",
    ),
    (
        AliasFault::Truncated {
            part: AliasPart::Frame,
        },
        b"truncated frame",
    ),
    (
        AliasFault::Group {
            part: AliasPart::Skin,
            row: 0,
        },
        b"group skin 0",
    ),
    (
        AliasFault::Group {
            part: AliasPart::Frame,
            row: 1023,
        },
        b"group frame 1023",
    ),
    (
        AliasFault::Interval {
            part: AliasPart::Skin,
            row: 255,
        },
        b"interval skin 255",
    ),
    (
        AliasFault::Interval {
            part: AliasPart::Frame,
            row: 2,
        },
        b"interval frame 2",
    ),
    (AliasFault::Triangle { row: 65_535 }, b"triangle 65535"),
];

const SPRITE_FAULTS: &[(SpriteFault, &[u8])] = &[
    (SpriteFault::Short, b"short"),
    (SpriteFault::Version { found: 2 }, b"version 2"),
    (SpriteFault::Frames, b"header numframes"),
    (SpriteFault::Truncated, b"truncated frame"),
    (SpriteFault::Group { row: 0 }, b"group frame 0"),
    (SpriteFault::Interval { row: 1 }, b"interval frame 1"),
    (SpriteFault::Size { row: 1023 }, b"size frame 1023"),
];

const WAV_FAULTS: &[(WavFault, &[u8])] = &[
    (WavFault::NotRiff, b"not riff"),
    (WavFault::NoFmt, b"no fmt"),
    (WavFault::NotPcm, b"not pcm"),
    (WavFault::NotMono, b"not mono"),
    (WavFault::Width, b"width"),
    (WavFault::NoData, b"no data"),
    (WavFault::BadLoop, b"bad loop"),
    (WavFault::TooLong, b"too long"),
    (WavFault::Rate { rate: 0 }, b"rate 0"),
    (
        WavFault::Rate {
            rate: 4_294_967_295,
        },
        b"rate 4294967295",
    ),
];

fn joined(alloc: Global, parts: &[&[u8]]) -> Result<Vec<u8>, AllocError> {
    let mut text = Vec::new(alloc);
    for part in parts {
        text.extend_from_slice(part)?;
    }
    Ok(text)
}

#[test]
fn an_image_has_its_lines(rt: HostRuntime) -> Result<(), Fail> {
    let alloc = rt.alloc();
    let name = game_name(b"x.wav").expect(&rt, "a name");
    let cases: [(usize, &[&[u8]]); 6] = [
        (0, &[b"dump x.wav 0\n"]),
        (1, &[b"dump x.wav 1\n00\n"]),
        (31, &[b"dump x.wav 31\n", &FIRST[..62], b"\n"]),
        (32, &[b"dump x.wav 32\n", FIRST, b"\n"]),
        (33, &[b"dump x.wav 33\n", FIRST, b"\n20\n"]),
        (64, &[b"dump x.wav 64\n", FIRST, b"\n", SECOND, b"\n"]),
    ];
    for (count, parts) in cases {
        let text = joined(alloc, parts)?;
        let mut out = MemSink::create(alloc, 200, Vec::new(alloc))?;
        dump(&name, &BYTES[..count], &mut out)?;
        assert_eq!(rt; out.got(), text.as_slice(), "of {count}");
    }
    Ok(())
}

// Each sink has room for so many bytes, and its put of this number fails. The title has five puts, and a line has one.
#[test]
fn a_dump_is_cut_where_a_put_fails(rt: HostRuntime) -> Result<(), Fail> {
    let alloc = rt.alloc();
    let name = game_name(b"x.wav").expect(&rt, "a name");
    let cases: [(usize, u64, &[&[u8]]); 5] = [
        (0, 9, &[]),
        (3, 9, &[b"dum"]),
        (200, 5, &[b"dump x.wav 64\n"]),
        (200, 6, &[b"dump x.wav 64\n", FIRST, b"\n"]),
        (143, 9, &[b"dump x.wav 64\n", FIRST, b"\n", SECOND]),
    ];
    for (capacity, fails, parts) in cases {
        let text = joined(alloc, parts)?;
        let fails = Vec::from_slice(alloc, &[fails])?;
        let mut out = MemSink::create(alloc, capacity, fails)?;
        assert!(rt; dump(&name, &BYTES, &mut out).is_err());
        assert_eq!(rt; out.got(), text.as_slice(), "at {capacity}");
    }
    Ok(())
}

#[test]
fn a_sound_has_its_line(rt: HostRuntime) -> Result<(), Fail> {
    let alloc = rt.alloc();
    let name = game_name(b"x.wav").expect(&rt, "a name");
    let cases: [(&[u8], &[u8], &[u8]); 4] = [
        (
            b"\xff\xff\xff\xff",
            SPEED,
            b"sound x.wav length 2 loop none speed 11025 width 1\n",
        ),
        (
            b"\0\0\0\0",
            SPEED,
            b"sound x.wav length 2 loop 0 speed 11025 width 1\n",
        ),
        (
            b"\xfe\xff\xff\xff",
            SPEED,
            b"sound x.wav length 2 loop 4294967294 speed 11025 width 1\n",
        ),
        (
            b"\x01\0\0\0",
            b"\0\x77\x01\0\x02\0\0\0\0\0\0\0\0\0\0\0",
            b"sound x.wav length 2 loop 1 speed 96000 width 2\n",
        ),
    ];
    for (loop_start, rest, text) in cases {
        let image = joined(alloc, &[LENGTH, loop_start, rest])?;
        assert!(rt; image.len() >= 20);
        let mut out = MemSink::create(alloc, 100, Vec::new(alloc))?;
        info_sound(&name, &image, &mut out)?;
        assert_eq!(rt; out.got(), text);
        let mut short = MemSink::create(alloc, 30, Vec::new(alloc))?;
        assert!(rt; info_sound(&name, &image, &mut short).is_err());
        assert_eq!(rt; short.got(), &text[..30]);
    }
    Ok(())
}

// Bytes that aren't told stand between the numbers of each image.
#[test]
fn an_alias_model_has_its_line(rt: HostRuntime) -> Result<(), Fail> {
    let alloc = rt.alloc();
    let name = game_name(b"x.mdl").expect(&rt, "a name");
    let counts: &[u8] = b"\x03\0\0\0\x40\x01\0\0\xc8\0\0\0\xd0\x07\0\0\0\0\x01\0\0\x04\0\0";
    let sums: &[u8] = b"\xff\xff\xff\xff\x01\x04\0\0";
    let image = joined(alloc, &[&BYTES[..44], counts, &BYTES[1..13], sums])?;
    assert!(rt; image.len() >= 88);
    let text: &[u8] = b"alias x.mdl skins 3 width 320 height 200 verts 2000 tris 65536 frames 1024 \
        pictures 4294967295 poses 1025\n";
    let mut out = MemSink::create(alloc, 200, Vec::new(alloc))?;
    info_alias(&name, &image, &mut out)?;
    assert_eq!(rt; out.got(), text);
    let mut short = MemSink::create(alloc, 30, Vec::new(alloc))?;
    assert!(rt; info_alias(&name, &image, &mut short).is_err());
    assert_eq!(rt; short.got(), &text[..30]);
    Ok(())
}

#[test]
fn a_sprite_has_its_line(rt: HostRuntime) -> Result<(), Fail> {
    let alloc = rt.alloc();
    let name = game_name(b"x.spr").expect(&rt, "a name");
    let kind: &[u8] = b"\x04\0\0\0";
    let frames: &[u8] = b"\0\x04\0\0";
    let pictures: &[u8] = b"\x01\0\x10\0";
    let parts = [
        &BYTES[..4],
        kind,
        &BYTES[1..13],
        frames,
        &BYTES[1..9],
        pictures,
    ];
    let image = joined(alloc, &parts)?;
    assert!(rt; image.len() >= 36);
    let text: &[u8] = b"sprite x.spr type 4 frames 1024 pictures 1048577\n";
    let mut out = MemSink::create(alloc, 100, Vec::new(alloc))?;
    info_sprite(&name, &image, &mut out)?;
    assert_eq!(rt; out.got(), text);
    let mut short = MemSink::create(alloc, 30, Vec::new(alloc))?;
    assert!(rt; info_sprite(&name, &image, &mut short).is_err());
    assert_eq!(rt; short.got(), &text[..30]);
    Ok(())
}

#[test]
fn a_resource_has_its_line(rt: HostRuntime) -> Result<(), Fail> {
    let alloc = rt.alloc();
    let name = game_name(b"a/x.y").expect(&rt, "a name");
    let cases: [(Kind, u32, u32, bool, &[u8]); 6] = [
        (
            Kind::Brush,
            196,
            49_184,
            true,
            b"brush a/x.y 196 at 49184 loaded\n",
        ),
        (
            Kind::Alias,
            188,
            112,
            true,
            b"alias a/x.y 188 at 112 loaded\n",
        ),
        (
            Kind::Sprite,
            73,
            48,
            false,
            b"sprite a/x.y 73 at 48 present\n",
        ),
        (Kind::Wad, 90, 48, true, b"wad a/x.y 90 at 48 loaded\n"),
        (
            Kind::Sound,
            22,
            49_208,
            true,
            b"sound a/x.y 22 at 49208 loaded\n",
        ),
        (
            Kind::Sound,
            4_294_967_295,
            0,
            false,
            b"sound a/x.y 4294967295 at 0 present\n",
        ),
    ];
    for (kind, size, place, loaded, text) in cases {
        let res = Res {
            kind,
            size,
            place,
            loaded,
        };
        let mut out = MemSink::create(alloc, 100, Vec::new(alloc))?;
        put_resource(&name, &res, &mut out)?;
        assert_eq!(rt; out.got(), text);
    }
    Ok(())
}

// A fault of `x` is told by these parts of a line, and by a front of them where there is no more room.
fn tells(rt: &impl Abort, alloc: Global, fault: Fault, parts: &[&[u8]]) -> Result<(), Fail> {
    let name = game_name(b"x").expect(rt, "a name");
    let text = joined(alloc, parts)?;
    let mut out = MemSink::create(alloc, 100, Vec::new(alloc))?;
    put_bad(&name, fault, &mut out)?;
    assert_eq!(rt; out.got(), text.as_slice());
    let mut short = MemSink::create(alloc, 12, Vec::new(alloc))?;
    assert!(rt; put_bad(&name, fault, &mut short).is_err());
    assert_eq!(rt; short.got().len(), 12);
    assert!(rt; text.starts_with(short.got()));
    Ok(())
}

#[test]
fn each_fault_of_an_alias_model_has_its_line(rt: HostRuntime) -> Result<(), Fail> {
    for &(fault, wrong) in ALIAS_FAULTS {
        tells(
            &rt,
            rt.alloc(),
            Fault::Alias(fault),
            &[b"bad alias x: ", wrong, b"\n"],
        )?;
    }
    Ok(())
}

#[test]
fn each_fault_of_a_sprite_has_its_line(rt: HostRuntime) -> Result<(), Fail> {
    for &(fault, wrong) in SPRITE_FAULTS {
        tells(
            &rt,
            rt.alloc(),
            Fault::Sprite(fault),
            &[b"bad sprite x: ", wrong, b"\n"],
        )?;
    }
    Ok(())
}

#[test]
fn each_fault_of_a_sound_has_its_line(rt: HostRuntime) -> Result<(), Fail> {
    for &(fault, wrong) in WAV_FAULTS {
        tells(
            &rt,
            rt.alloc(),
            Fault::Sound(fault),
            &[b"bad sound x: ", wrong, b"\n"],
        )?;
    }
    Ok(())
}
