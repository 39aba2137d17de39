use crate::{Piece, put_all};
use outside_io::MemSink;
use std::test::Fail;

// Each sink has room for so many bytes, and its put of this number fails. Each piece is a put.
#[test]
fn pieces_are_put_in_order(rt: HostRuntime) -> Result<(), Fail> {
    let alloc = rt.alloc();
    let pieces = [
        Piece::Text(b"file "),
        Piece::Number(18446744073709551615),
        Piece::Text(b""),
        Piece::Text(b" at "),
        Piece::Number(0),
    ];
    let cases: [(usize, u64, &[u8], bool); 5] = [
        (100, 9, b"file 18446744073709551615 at 0", true),
        (28, 9, b"file 18446744073709551615 at", false),
        (30, 5, b"file 18446744073709551615 at 0", true),
        (30, 1, b"file ", false),
        (30, 0, b"", false),
    ];
    for (capacity, fails, want, whole) in cases {
        let fails = Vec::from_slice(alloc, &[fails])?;
        let mut out = MemSink::create(alloc, capacity, fails)?;
        assert_eq!(rt; put_all(&mut out, &pieces).is_ok(), whole, "at {capacity}");
        assert_eq!(rt; out.got(), want, "at {capacity}");
    }
    Ok(())
}
