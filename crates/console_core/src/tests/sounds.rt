// Sounds: loaded, shown, evicted and loaded again.
use super::{check_end, run_on, sink};
use outside_io::{Folder, MemFile, MemFolder};
use std::alloc::{AllocError, Global};
use std::process::Abort;
use std::test::Fail;

// A sound of one channel: its rate, its bits a sample, the length that its `data` chunk tells, and its first samples, behind
// which stand zeros.
#[derive(Clone, Copy)]
struct Wav {
    name: &'static str,
    rate: u32,
    bits: u16,
    length: u32,
    samples: &'static [u8],
    zeros: usize,
}

fn long(name: &'static str) -> Wav {
    Wav {
        name,
        rate: 11_025,
        bits: 8,
        length: 150_000,
        samples: b"",
        zeros: 150_000,
    }
}

fn short(name: &'static str, rate: u32, length: u32) -> Wav {
    Wav {
        name,
        rate,
        bits: 8,
        length,
        samples: b"\x80\x81\x7f\0\xff",
        zeros: 0,
    }
}

fn bytes_of(alloc: Global, wav: &Wav) -> Result<Vec<u8>, AllocError> {
    let mut bytes = Vec::from_slice(alloc, b"RIFF\0\0\0\0WAVEfmt \x10\0\0\0\x01\0\x01\0")?;
    bytes.extend_from_slice(&wav.rate.to_le_bytes())?;
    bytes.extend_from_slice(&[0; 6])?;
    bytes.extend_from_slice(&wav.bits.to_le_bytes())?;
    bytes.extend_from_slice(b"data")?;
    bytes.extend_from_slice(&wav.length.to_le_bytes())?;
    bytes.extend_from_slice(wav.samples)?;
    bytes.extend_from_slice(&vec![in alloc; 0u8; wav.zeros]?)?;
    Ok(bytes)
}

// A folder of sounds, whose call of this number fails.
fn folder(rt: &impl Abort, alloc: Global, fails: u64) -> Result<Box<dyn Folder>, AllocError> {
    let wavs = [
        long("sound/s0.wav"),
        long("sound/s1.wav"),
        long("sound/s2.wav"),
        long("sound/s3.wav"),
        long("sound/s4.wav"),
        long("sound/s5.wav"),
        short("sound/x.wav", 22_050, 5),
        short("sound/y.wav", 8000, 5),
        short("sound/z.wav", 22_050, 0x8000_0000),
        Wav {
            name: "sound/big.wav",
            rate: 375,
            bits: 16,
            length: 8_388_608,
            samples: b"",
            zeros: 8_388_608,
        },
    ];
    let mut held = Vec::new(alloc);
    for wav in wavs {
        let bytes = bytes_of(alloc, &wav)?;
        assert!(rt; bytes.len() < 10_000_000);
        held.push(MemFile {
            name: Vec::from_slice(alloc, wav.name.as_bytes())?,
            bytes,
        })?;
    }
    let folder = MemFolder::create(held, Vec::from_slice(alloc, &[fails])?);
    Ok(Box::new(alloc, folder)?)
}

// How a run ends: its code and its line.
type End = (u8, &'static str);

const DONE: End = (0, "");

// Compares what a script prints over those sounds, behind these options, and how it ends.
fn check_sounds(
    rt: &impl Abort,
    alloc: Global,
    options: &[&str],
    fails: u64,
    text: &str,
    put: &str,
    end: End,
) -> Result<(), AllocError> {
    let mut out = sink(alloc)?;
    let folder = folder(rt, alloc, fails)?;
    let status = run_on(rt, alloc, options, folder, text, &mut out)?;
    check_end(rt, &status, &out, end.0, end.1, put);
    Ok(())
}

#[test]
fn sounds_come_and_go(rt: HostRuntime) -> Result<(), Fail> {
    let heap = ["-heapsize", "1024"];
    let cases = [
        (
            "sound s0.wav;sound s1.wav;sound s2.wav;sound s3.wav;sound s4.wav\nsound s0.wav\nsound s5.wav\n\
             info sound s1.wav\nsound s1.wav\ninfo sound s2.wav",
            "sound s0.wav 150020 at 49208 loaded\nsound s1.wav 150020 at 199272 loaded\n\
             sound s2.wav 150020 at 349336 loaded\nsound s3.wav 150020 at 499400 loaded\n\
             sound s4.wav 150020 at 649464 loaded\nsound s0.wav 150020 at 49208 present\n\
             sound s5.wav 150020 at 199272 loaded\ns1.wav is absent\n\
             sound s1.wav 150020 at 349336 loaded\ns2.wav is absent\n",
        ),
        (
            "sound x.wav;dump sound x.wav;info sound x.wav;info sound y.wav\nsound y.wav;sound z.wav;info sound y.wav",
            "sound x.wav 22 at 49208 loaded\ndump x.wav 22\n02000000ffffffff112b0000010000000000000000ff\n\
             sound x.wav length 2 loop none speed 11025 width 1\ny.wav is absent\nbad sound y.wav: rate 8000\n\
             bad sound z.wav: no data\ny.wav is absent\n",
        ),
        (
            "sound x.wav;flush;dump sound x.wav\nsound x.wav;SOUND x.wav;Info sound x.wav",
            "sound x.wav 22 at 49208 loaded\nx.wav is absent\nsound x.wav 22 at 49208 loaded\n\
             sound x.wav 22 at 49208 present\nsound x.wav length 2 loop none speed 11025 width 1\n",
        ),
        (
            "sound;sound ../x;sound none.wav\ninfo;info model x.wav;info Sound x.wav;dump sound ../x;dump sound none",
            "bad name\nbad name\nnot found: sound/none.wav\n\
             bad kind\nx.wav is absent\nbad kind\nbad name\nnone is absent\n",
        ),
        (
            "sound aaaaaaaaaaaaaaaaaaaaaaaaaaaaaaaaaaaaaaaaaaaaaaaaaaaaaaaaaa\n\
             info sound aaaaaaaaaaaaaaaaaaaaaaaaaaaaaaaaaaaaaaaaaaaaaaaaaaaaaaaaaa",
            "bad name\naaaaaaaaaaaaaaaaaaaaaaaaaaaaaaaaaaaaaaaaaaaaaaaaaaaaaaaaaa is absent\n",
        ),
        ("sound big.wav", "failed on 8388672 bytes\n"),
    ];
    for (text, put) in cases {
        check_sounds(&rt, rt.alloc(), &heap, 99, text, put, DONE)?;
    }
    Ok(())
}

#[test]
fn the_speed_of_sounds_is_an_option(rt: HostRuntime) -> Result<(), Fail> {
    let cases: [(&[&str], &str, &str); 3] = [
        (
            &["-speed", "22050"],
            "sound x.wav;info sound x.wav",
            "sound x.wav 25 at 49208 loaded\nsound x.wav length 5 loop none speed 22050 width 1\n",
        ),
        (
            &["-speed", "44100", "-heapsize", "1024"],
            "sound x.wav;sound y.wav",
            "sound x.wav 30 at 49208 loaded\nbad sound y.wav: rate 8000\n",
        ),
        (
            &["-speed", "96000"],
            "sound big.wav;info sound big.wav",
            "failed on 2147483712 bytes\nbig.wav is absent\n",
        ),
    ];
    for (options, text, put) in cases {
        check_sounds(&rt, rt.alloc(), options, 99, text, put, DONE)?;
    }
    Ok(())
}

// The calls of the folder: for `pak0.pak`, for the length of a file, and for its bytes.
#[test]
fn a_sound_that_is_there_asks_no_folder(rt: HostRuntime) -> Result<(), Fail> {
    let script = "sound x.wav\nsound x.wav;info sound x.wav\nsound y.wav;echo b";
    let failed: End = (6, "folder read fault");
    let loaded = "sound x.wav 22 at 49208 loaded\n";
    let present =
        "sound x.wav 22 at 49208 loaded\nsound x.wav 22 at 49208 present\nsound x.wav length 2 loop none speed 11025 width 1\n";
    for (fails, put) in [(1, ""), (2, ""), (3, present), (4, present)] {
        check_sounds(&rt, rt.alloc(), &[], fails, script, put, failed)?;
    }
    check_sounds(&rt, rt.alloc(), &[], 1, "echo a", "a \n", DONE)?;
    check_sounds(&rt, rt.alloc(), &[], 3, "sound x.wav", loaded, DONE)?;
    Ok(())
}
