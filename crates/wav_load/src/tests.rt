use super::*;
use mem_model::Builder;
use std::alloc::{AllocError, Global};

const RIFF: &[u8] = b"RIFF\0\0\0\0WAVE";
// 22050 samples a second, of 8 bits and of 16.
const BYTES: &[u8] = b"fmt \x10\0\0\0\x01\0\x01\0\x22\x56\0\0\x22\x56\0\0\x01\0\x08\0";

const WORDS: &[u8] = b"fmt \x10\0\0\0\x01\0\x01\0\x22\x56\0\0\x44\xac\0\0\x02\0\x10\0";

const SLOW: &[u8] = b"fmt \x10\0\0\0\x01\0\x01\0\x40\x1f\0\0\x40\x1f\0\0\x01\0\x08\0";

const FIVE: &[u8] = b"data\x05\0\0\0\x80\x81\x7f\0\xff\0";
// A loop from sample 1 on, and marks of 2, 3 and 6 samples.
const CUE: &[u8] = b"cue \x1c\0\0\0\x01\0\0\0\0\0\0\0\0\0\0\0data\0\0\0\0\0\0\0\0\x01\0\0\0";

const TWO: &[u8] = b"LIST\x18\0\0\0adtlltxt\x14\0\0\0\0\0\0\0\x02\0\0\0mark";

const SIX: &[u8] = b"LIST\x18\0\0\0adtlltxt\x14\0\0\0\0\0\0\0\x06\0\0\0mark";

// As many as the file has.
const LONGEST: &[u8] = b"data\xff\xff\xff\x7f";

// The parts one behind the other.
fn joined(alloc: Global, parts: &[&[u8]]) -> Result<Vec<u8>, AllocError> {
    let mut file = Vec::new(alloc);
    for part in parts {
        file.extend_from_slice(part)?;
    }
    Ok(file)
}

// The length of a file's image, or its fault.
fn size(file: &[u8], speed: u32) -> Option<Result<u64, WavFault>> {
    if file.len() > 1 << 26 {
        return None;
    }
    Some(WavBuilder { speed }.size(file))
}

// The image of a file.
fn image(alloc: Global, file: &[u8], speed: u32) -> Result<Option<Vec<u8>>, AllocError> {
    let builder = WavBuilder { speed };
    if file.len() > 1 << 26 {
        return Ok(None);
    }
    let Ok(size) = builder.size(file) else {
        return Ok(None);
    };
    let mut block = vec![in alloc; 0; size as usize]?;
    builder.build(file, &mut block);
    Ok(Some(block))
}

fn zeros(alloc: Global, count: usize) -> Result<Vec<u8>, AllocError> {
    vec![in alloc; 0; count]
}

#[test]
fn refuses_by_the_first_fault(rt: HostRuntime) {
    let cases: [(&[&[u8]], WavFault); 17] = [
        (&[b"RIFF\0\0\0\0WAV"], WavFault::NotRiff),
        (&[b"RIFX\0\0\0\0WAVE", BYTES, FIVE], WavFault::NotRiff),
        (&[b"RIFF\0\0\0\0WAVX", BYTES, FIVE], WavFault::NotRiff),
        (&[RIFF, FIVE], WavFault::NoFmt),
        (&[RIFF, FIVE, &BYTES[..23]], WavFault::NoFmt),
        (
            &[RIFF, b"fmt \x10\0\0\0\x02\0\x02\0", &BYTES[12..], FIVE],
            WavFault::NotPcm,
        ),
        (
            &[RIFF, b"fmt \x10\0\0\0\x01\0\x02\0", &BYTES[12..], FIVE],
            WavFault::NotMono,
        ),
        (&[RIFF, &BYTES[..22], b"\x0c\0", FIVE], WavFault::Width),
        (&[RIFF, BYTES], WavFault::NoData),
        (&[RIFF, BYTES, b"data\0\0\0\x80\x80\x81"], WavFault::NoData),
        (&[RIFF, BYTES, b"junk\0\0\0\x80", FIVE], WavFault::NoData),
        (&[RIFF, BYTES, CUE, SIX, FIVE], WavFault::BadLoop),
        (&[RIFF, SLOW, CUE, b"data\0\0\0\0"], WavFault::BadLoop),
        (&[RIFF, WORDS, CUE, SIX, FIVE], WavFault::BadLoop),
        (&[RIFF, SLOW, FIVE], WavFault::Rate { rate: 8000 }),
        (
            &[RIFF, &BYTES[..12], b"\0\0\0\0", &BYTES[16..], FIVE],
            WavFault::Rate { rate: 0 },
        ),
        (
            &[RIFF, &BYTES[..12], b"\x44\x81\0\0", &BYTES[16..], FIVE],
            WavFault::Rate { rate: 33092 },
        ),
    ];
    for (parts, fault) in cases {
        let file = joined(rt.alloc(), parts).expect(&rt, "memory");
        assert_eq!(rt; size(&file, 11025), Some(Err(fault)));
    }
}

#[test]
fn makes_images(rt: HostRuntime) {
    let cases: [(&[&[u8]], u32, &[u8], Option<u32>); 14] = [
        (&[RIFF, BYTES, FIVE], 11025, b"\0\xff", None),
        (&[RIFF, BYTES, FIVE], 22050, b"\0\x01\xff\x80\x7f", None),
        (
            &[RIFF, BYTES, FIVE],
            44100,
            b"\0\0\x01\x01\xff\xff\x80\x80\x7f\x7f",
            None,
        ),
        (
            &[RIFF, b"junk\x03\0\0\0abc\0", BYTES, FIVE],
            11025,
            b"\0\xff",
            None,
        ),
        (
            &[RIFF, BYTES, b"data\x09\0\0\0\x80\x81"],
            22050,
            b"\0\x01",
            None,
        ),
        (
            &[RIFF, BYTES, FIVE, b"data\x01\0\0\0\0\0"],
            11025,
            b"\0\xff",
            None,
        ),
        (
            &[RIFF, BYTES, CUE, FIVE],
            22050,
            b"\0\x01\xff\x80\x7f",
            Some(1),
        ),
        (
            &[RIFF, BYTES, CUE, TWO, FIVE],
            22050,
            b"\0\x01\xff",
            Some(1),
        ),
        (&[RIFF, BYTES, CUE, TWO, FIVE], 11025, b"\0", Some(0)),
        (
            &[RIFF, BYTES, SIX, CUE, TWO, SIX, FIVE],
            22050,
            b"\0\x01\xff",
            Some(1),
        ),
        (
            &[RIFF, BYTES, FIVE, TWO, &CUE[..35]],
            22050,
            b"\0\x01\xff\x80\x7f",
            None,
        ),
        (&[RIFF, WORDS, FIVE], 22050, b"\x80\x81\x7f\0", None),
        (&[RIFF, WORDS, FIVE], 11025, b"\x80\x81", None),
        (
            &[RIFF, WORDS, FIVE],
            44100,
            b"\x80\x81\x80\x81\x7f\0\x7f\0",
            None,
        ),
    ];
    for (parts, speed, samples, loop_start) in cases {
        let file = joined(rt.alloc(), parts).expect(&rt, "memory");
        let image = image(rt.alloc(), &file, speed)
            .expect(&rt, "memory")
            .expect(&rt, "an image");
        assert!(rt; image.len() >= 20);
        assert_eq!(rt; &image[20..], samples);
        let header = sound_header(&image);
        assert_eq!(rt; header.loop_start, loop_start);
        assert_eq!(rt; header.speed, speed);
        assert_eq!(rt;
            u64::from(header.length) * u64::from(header.width),
            samples.len() as u64
        );
    }
}

// 2 ^ 22 samples of 16 bits, 256 times as many at the speed; and one sample more.
#[test]
fn takes_the_longest(rt: HostRuntime) {
    let zeros = zeros(rt.alloc(), 1 << 23).expect(&rt, "memory");
    let mut file = joined(rt.alloc(), &[RIFF, WORDS, LONGEST]).expect(&rt, "memory");
    file.extend_from_slice(&zeros).expect(&rt, "memory");
    assert_eq!(rt; size(&file, 5644800), Some(Ok(2147483668)));
    file.extend_from_slice(b"\0\0").expect(&rt, "memory");
    assert_eq!(rt; size(&file, 5644800), Some(Err(WavFault::TooLong)));
}
