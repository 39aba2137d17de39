// The lumps of a wad.
ghost use Rattle.std.specs.Prelude.{◌≡◌, length, bytes_eq};
ghost use Rattle.std.specs.Str.{str_to_ascii_lowercase};
ghost use Rattle.wad2_lumps.specs.Wads.{name_in, IsWad};
ghost use Rattle.wad2_lumps.specs.Lumps.{lump_told, lump_in};

use crate::answers::Lump;
use crate::names::cut;
use crate::table::{row_at, row_count};
use base_fields::u32_at;

// Whether the row has the name that is cut to this text.
fn is_named(row: &[u8], text: &[u8]) -> bool
    requires { length row.now ≡ 32 }
    ensures { result ≡ bytes_eq (name_in row.now) (str_to_ascii_lowercase text.now) }
{
    cut(&row[16..32]).eq_ignore_ascii_case(text)
}

// What the row tells of its lump.
fn told(row: &[u8]) -> Lump
    requires { length row.now ≡ 32 }
    ensures { result ≡ lump_told row.now }
{
    if row[13] != 0 {
        return Lump::Compressed;
    }
    Lump::Found {
        offset: u32_at(row, 0),
        size: u32_at(row, 8),
        kind: row[12],
    }
}

/// The lump of the first row that has the name, in the bytes of a wad. Both names are compared as `cleaned` makes them.
#[tactic(auto, using(crate::proofs::LumpLaws::lump_laws), unfolding(crate::specs::Lumps::lump_in))]
pub fn lump(bytes: &[u8], name: &[u8]) -> Lump
    requires { IsWad bytes.now }
    ensures { result ≡ lump_in bytes.now name.now }
{
    let text = cut(name);
    for number in 0..row_count(bytes) {
        let row = row_at(bytes, number);
        if is_named(row, text) {
            return told(row);
        }
    }
    Lump::Absent
}
