// The header and the directory of a pack, as bytes.
ghost use Rattle.std.specs.Prelude.{◌≡◌, ◌*◌, ◌≤◌, length, map, IfOk};
ghost use Rattle.std.specs.Simd.{first_chunks};
ghost use Rattle.pack_files.specs.Packs.{row_of, first_rows, table_of, fault_of, directory_at, count_of};

use crate::entries::Entry;
use crate::faults::PackFault;
use crate::names::Name;
use base_fields::{before_zero, u32_at};
use indexmap::IndexMap;
use std::alloc::{AllocError, Global};

const MOST: u32 = 2048;

// The first fault of a pack of this header and this length.
pub(crate) fn first_fault(header: &[u8; 12], whole: u64) -> Option<PackFault>
    ensures { result ≡ fault_of header.now whole }
{
    let count = row_count(header);
    if whole < 12 || !header.starts_with(b"PACK") {
        return Some(PackFault::NotPack);
    }
    if count > MOST {
        return Some(PackFault::TooMany { count });
    }
    if whole < u64::from(directory_place(header)) + 64 * u64::from(count) {
        return Some(PackFault::DirOutside);
    }
    None
}

// Where the directory stands.
pub(crate) fn directory_place(header: &[u8; 12]) -> u32
    ensures { result ≡ directory_at header.now }
{
    u32_at(header, 4)
}

// How many rows it has.
pub(crate) fn row_count(header: &[u8; 12]) -> u32
    ensures { result ≡ count_of header.now }
{
    u32_at(header, 8) / 64
}

// The name in a row.
fn name_in(row: &[u8; 64]) -> &[u8]
    ensures { result.now ≡ (row_of row.now).name }
{
    before_zero(&row[..56])
}

// Where the row's file stands, and how many bytes it has.
fn entry_in(row: &[u8; 64]) -> Entry
    ensures { result ≡ (row_of row.now).entry }
{
    Entry {
        offset: u32_at(row, 56),
        length: u32_at(row, 60),
    }
}

// The entries of these rows of 64 bytes, the first of each name.
pub(crate) fn first_entries(
    alloc: Global,
    rows: &[[u8; 64]],
) -> Result<IndexMap<Name, Entry>, AllocError>
    ensures { IfOk result (λ entries. table_of entries.entries ≡ first_rows (map row_of rows.now)) }
{
    let mut entries = IndexMap::with_capacity(alloc, rows.len())?;
    for row in rows {
        let name = Name::from_bytes(alloc, name_in(row))?;
        entries.entry(name)?.or_insert(entry_in(row));
    }
    Ok(entries)
}
