// The rows of a wad's table, each by its number.
ghost use Rattle.std.specs.Prelude.{◌≡◌, length};
ghost use Rattle.wad2_lumps.specs.Wads.{IsWad};
ghost use Rattle.wad2_lumps.specs.Lumps.{row_told, lump_row_in};

use crate::table::{row_at, row_count};
use base_fields::u32_at;

/// A row of a wad's table.
#[derive(Clone, Copy, Debug, PartialEq, Eq)]
pub struct LumpRow {
    /// The name as the table has it, not cleaned.
    pub name: [u8; 16],
    /// The type. A picture has 66.
    pub kind: u8,
    /// The length of the lump in bytes, once it is unpacked.
    pub size: u32,
    /// How the lump is compressed. 0 stands for not at all.
    pub compression: u8,
}

// The row in these 32 bytes.
fn read_row(row: &[u8]) -> LumpRow
    requires { length row.now ≡ 32 }
    ensures { result ≡ row_told row.now }
{
    let mut name = [0; 16];
    name.copy_from_slice(&row[16..32]);
    LumpRow {
        name,
        kind: row[12],
        size: u32_at(row, 8),
        compression: row[13],
    }
}

/// The row of this number, in the bytes of a wad. The first row has the number 0, and there is none past the last.
#[tactic(auto, using(crate::proofs::LumpLaws::row_laws))]
pub fn lump_row(bytes: &[u8], number: u32) -> Option<LumpRow>
    requires { IsWad bytes.now }
    ensures { result ≡ lump_row_in bytes.now number }
{
    if number >= row_count(bytes) {
        return None;
    }
    Some(read_row(row_at(bytes, number)))
}
