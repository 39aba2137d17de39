ghost use Rattle.std.specs.Prelude.{◌≤◌, ◌^◌, length};

use super::*;
use bsp29_build::BspBuilder;
use mem_model::Builder;
use std::alloc::{AllocError, Global};
use std::process::Abort;
use std::test::Fail;

// A map of 21 leafs, 20 of which can be seen, with these bytes of visibility; the rows of all leafs begin there in them.
fn file(alloc: Global, bytes: &[u8], offset: i32) -> Result<Vec<u8>, AllocError>
    requires { length bytes.now ≤ 100 }
{
    let mut file = Vec::from_slice(alloc, &29u32.to_le_bytes())?;
    for lump in 0..15 {
        let (start, length) = match lump {
            4 => (776, bytes.len() as u32),
            10 => (124, 588),
            14 => (712, 64),
            _ => (0, 0),
        };
        file.extend_from_slice(&u32::to_le_bytes(start))?;
        file.extend_from_slice(&u32::to_le_bytes(length))?;
    }
    for _ in 0..21 {
        file.extend_from_slice(&[255; 4])?;
        file.extend_from_slice(&offset.to_le_bytes())?;
        file.extend_from_slice(&[0; 20])?;
    }
    file.extend_from_slice(&[0; 52])?;
    file.extend_from_slice(&20u32.to_le_bytes())?;
    file.extend_from_slice(&[0; 8])?;
    file.extend_from_slice(bytes)?;
    Ok(file)
}

// Compares the row of a leaf in such a map.
fn tells(
    rt: &impl Abort,
    alloc: Global,
    case: (&[u8], i32, u32),
    told: Result<[u8; 3], VisError>,
) -> Result<(), AllocError> {
    let (bytes, offset, leaf) = case;
    assert!(rt; bytes.len() <= 100);
    let file = file(alloc, bytes, offset)?;
    assert!(rt; file.len() <= 1 << 26);
    let size = BspBuilder.size(&file).expect(rt, "a size");
    let mut image = vec![in alloc; 0; size as usize]?;
    BspBuilder.build(&file, &mut image);
    let mut out = vec![in alloc; 7; 4096]?;
    let found = row(&image, leaf, &mut out);
    match told {
        Ok(row) => {
            assert_eq!(rt; found, Ok(3));
            assert!(rt; out.starts_with(&row));
        }
        Err(error) => assert_eq!(rt; found, Err(error)),
    }
    Ok(())
}

#[test]
fn leafs_have_rows(rt: HostRuntime) -> Result<(), Fail> {
    let all = Ok([255; 3]);
    let cases: [((&[u8], i32, u32), Result<[u8; 3], VisError>); 14] = [
        ((b"\x05\x00\x02", 0, 1), Ok([5, 0, 0])),
        ((b"\x05\x00\x02", 0, 20), Ok([5, 0, 0])),
        ((b"\x05\x00\x09", 0, 1), Ok([5, 0, 0])),
        ((b"\x00\x01\x05\x06\x00", 0, 2), Ok([0, 5, 6])),
        ((b"\x00\x00\x05\x06\x07", 0, 3), Ok([5, 6, 7])),
        ((b"\x00\x01\x05\x06\x07\x08", 3, 1), Ok([6, 7, 8])),
        ((b"\x05\x00\x02", 0, 0), all),
        ((b"\x05\x00\x02", -1, 1), all),
        ((b"\x05\x00\x02", i32::MIN, 1), all),
        ((b"\x05\x00\x02", 3, 1), all),
        ((b"", 0, 1), all),
        ((b"\x05\x00", 0, 1), Err(VisError::Truncated)),
        ((b"\x05\x00\x02", 2, 1), Err(VisError::Truncated)),
        ((b"\x05\x00\x02", 0, 21), Err(VisError::NoLeaf)),
    ];
    for (case, told) in cases {
        tells(&rt, rt.alloc(), case, told)?;
    }
    Ok(())
}
