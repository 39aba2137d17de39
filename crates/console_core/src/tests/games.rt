// A game of two packs: loaded whole, and then found present.
use super::mounts::pack;
use super::{file, run_on, sink};
use crate::Status;
use outside_io::{Folder, MemFolder, MemSink};
use std::alloc::{AllocError, Global};
use std::process::Abort;
use std::test::Fail;

// The entries of the packs: the name, the place and the length of each. All models are one, and all sounds.
const FIRST_PACK: [(&str, u32, u32); 12] = [
    ("maps/m.bsp", 780, 188),
    ("gfx.wad", 1136, 12),
    ("progs/0.mdl", 968, 168),
    ("progs/1.mdl", 968, 168),
    ("progs/2.mdl", 968, 168),
    ("progs/3.mdl", 968, 168),
    ("progs/4.mdl", 968, 168),
    ("progs/5.mdl", 968, 168),
    ("progs/6.mdl", 968, 168),
    ("progs/7.mdl", 968, 168),
    ("progs/8.mdl", 968, 168),
    ("progs/9.mdl", 968, 168),
];

const SECOND_PACK: [(&str, u32, u32); 20] = [
    ("sound/00.wav", 1292, 46),
    ("sound/01.wav", 1292, 46),
    ("sound/02.wav", 1292, 46),
    ("sound/03.wav", 1292, 46),
    ("sound/04.wav", 1292, 46),
    ("sound/05.wav", 1292, 46),
    ("sound/06.wav", 1292, 46),
    ("sound/07.wav", 1292, 46),
    ("sound/08.wav", 1292, 46),
    ("sound/09.wav", 1292, 46),
    ("sound/10.wav", 1292, 46),
    ("sound/11.wav", 1292, 46),
    ("sound/12.wav", 1292, 46),
    ("sound/13.wav", 1292, 46),
    ("sound/14.wav", 1292, 46),
    ("sound/15.wav", 1292, 46),
    ("sound/16.wav", 1292, 46),
    ("sound/17.wav", 1292, 46),
    ("sound/18.wav", 1292, 46),
    ("sound/19.wav", 1292, 46),
];

// Two samples.
const SOUND: &[u8] =
    b"RIFF\0\0\0\0WAVEfmt \x10\0\0\0\x01\0\x01\0\x11\x2b\0\0\0\0\0\0\0\0\x08\0data\x02\0\0\0\x80\x81";

// The models but the map and the wad, and the sounds.
const LOADS: &str = "model progs/0.mdl;model progs/1.mdl;model progs/2.mdl;model progs/3.mdl\n\
     model progs/4.mdl;model progs/5.mdl;model progs/6.mdl;model progs/7.mdl\n\
     model progs/8.mdl;model progs/9.mdl\n\
     sound 00.wav;sound 01.wav;sound 02.wav;sound 03.wav;sound 04.wav;sound 05.wav\n\
     sound 06.wav;sound 07.wav;sound 08.wav;sound 09.wav\n\
     sound 10.wav;sound 11.wav;sound 12.wav;sound 13.wav;sound 14.wav;sound 15.wav\n\
     sound 16.wav;sound 17.wav;sound 18.wav;sound 19.wav\n\
    ";

// A map of no rows but one model, an alias model with a skin of 4 times 1, a vertex and a triangle, and an empty wad.
fn models(alloc: Global) -> Result<Vec<u8>, AllocError> {
    let mut bytes = Vec::from_slice(alloc, &29u32.to_le_bytes())?;
    bytes.extend_from_slice(&[0; 112])?;
    for number in [124u32, 64] {
        bytes.extend_from_slice(&number.to_le_bytes())?;
    }
    bytes.extend_from_slice(&[0; 64])?;
    bytes.extend_from_slice(b"IDPO\x06\0\0\0")?;
    bytes.extend_from_slice(&[0; 40])?;
    for number in [1u32, 4, 1, 1, 1, 1] {
        bytes.extend_from_slice(&number.to_le_bytes())?;
    }
    bytes.extend_from_slice(&[0; 96])?;
    bytes.extend_from_slice(b"WAD2\0\0\0\0\x0c\0\0\0")?;
    Ok(bytes)
}

// A folder of the two packs, whose call of this number fails.
fn folder(rt: &impl Abort, alloc: Global, fails: u64) -> Result<Box<dyn Folder>, AllocError> {
    let first = pack(rt, alloc, &FIRST_PACK, &models(alloc)?)?;
    let second = pack(rt, alloc, &SECOND_PACK, SOUND)?;
    assert!(rt; first.len() < 10_000);
    assert!(rt; second.len() < 10_000);
    let mut held = Vec::new(alloc);
    held.push(file(alloc, b"pak0.pak", &first)?)?;
    held.push(file(alloc, b"pak1.pak", &second)?)?;
    let folder = MemFolder::create(held, Vec::from_slice(alloc, &[fails])?);
    Ok(Box::new(alloc, folder)?)
}

// Loads the game, and then runs this script, where the call of this number fails.
fn play(
    rt: &impl Abort,
    alloc: Global,
    fails: u64,
    rest: &str,
    out: &mut MemSink,
) -> Result<Status, AllocError> {
    let mut text = String::from_str(alloc, "map m;wad gfx.wad\n")?;
    text.push_str(LOADS)?;
    text.push_str(rest)?;
    run_on(rt, alloc, &[], folder(rt, alloc, fails)?, &text, out)
}

// How many calls loading the game takes.
fn calls(rt: &impl Abort, alloc: Global) -> Result<u64, AllocError> {
    for fails in 0..200 {
        if let Status::Done = play(rt, alloc, fails, "", &mut sink(alloc)?)? {
            return Ok(fails);
        }
    }
    Ok(0)
}

#[test]
fn a_game_is_loaded_once(rt: HostRuntime) -> Result<(), Fail> {
    let alloc = rt.alloc();
    let calls = calls(&rt, alloc)?;
    assert!(rt; calls > 32);
    let mut out = sink(alloc)?;
    let mut rest = String::from_str(alloc, LOADS)?;
    rest.push_str("report\n")?;
    let status = play(&rt, alloc, calls, &rest, &mut out)?;
    assert!(rt; matches!(status, Status::Done));
    for (number, line) in out.got().split(|byte| *byte == b'\n').enumerate() {
        match number {
            0..32 => assert!(rt; line.ends_with(b"loaded"), "{number}"),
            32..62 => assert!(rt; line.ends_with(b"present"), "{number}"),
            62 => assert!(rt; line.starts_with(b"hunk 16777216 low ")),
            _ => {}
        }
    }
    Ok(())
}
