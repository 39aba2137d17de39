// The table of a wad.
ghost use Rattle.std.specs.Prelude.{◌≡◌, ◌+◌, ◌*◌, ◌<◌, OnOk, length};
ghost use Rattle.wad2_lumps.specs.Wads.{count_in, row_in, wad_in, IsWad};

use crate::fault::WadFault;
use base_fields::u32_at;

/// The number of the lumps of a wad, or the first fault of the bytes.
#[tactic(auto, unfolding(crate::specs::Wads::wad_in))]
pub fn check_wad(bytes: &[u8]) -> Result<u32, WadFault>
    ensures value { result ≡ wad_in bytes.now }
    ensures wad { OnOk result (IsWad bytes.now) }
{
    if bytes.len() < 12 || !bytes.starts_with(b"WAD2") {
        return Err(WadFault::NotWad);
    }
    let count = u32_at(bytes, 4);
    let end = u64::from(u32_at(bytes, 8)) + 32 * u64::from(count);
    if end > bytes.len() as u64 {
        return Err(WadFault::TableOutside);
    }
    Ok(count)
}

// How many rows the table has.
#[tactic(auto, using(crate::proofs::WadLaws::table_inside))]
pub(crate) fn row_count(bytes: &[u8]) -> u32
    requires { IsWad bytes.now }
    ensures { result ≡ count_in bytes.now }
{
    u32_at(bytes, 4)
}

// The 32 bytes of a row.
#[tactic(auto, using(crate::proofs::WadLaws::table_inside))]
pub(crate) fn row_at(bytes: &[u8], number: u32) -> &[u8]
    requires wad { IsWad bytes.now }
    requires inside { number < count_in bytes.now }
    ensures value { result.now ≡ row_in bytes.now number }
    ensures sized { length result.now ≡ 32 }
{
    let from = u32_at(bytes, 8) as usize + 32 * number as usize;
    &bytes[from..from + 32]
}
