// The lumps of a file.
ghost use Rattle.std.specs.Prelude.{◌≡◌, ◌≤◌, ◌<◌, ◌^◌, length, OnOk};
ghost use Rattle.bsp29_tables.specs.Lumps.{number_of, row_size, offset_of, length_of, lump_of, count_of};
ghost use Rattle.bsp29_tables.specs.Lumps.{header_check, lump_check, lumps_check, models_check};

use crate::fault::BspFault;
use base_fields::u32_at;

/// The lumps, in the order of the header.
#[derive(Clone, Copy, Debug)]
pub enum Lump {
    Entities,
    Planes,
    Textures,
    Vertexes,
    Visibility,
    Nodes,
    Texinfos,
    Faces,
    Lighting,
    Clipnodes,
    Leafs,
    Marksurfaces,
    Edges,
    Surfedges,
    Models,
}

pub(crate) const LUMPS: [Lump; 15] = [
    Lump::Entities,
    Lump::Planes,
    Lump::Textures,
    Lump::Vertexes,
    Lump::Visibility,
    Lump::Nodes,
    Lump::Texinfos,
    Lump::Faces,
    Lump::Lighting,
    Lump::Clipnodes,
    Lump::Leafs,
    Lump::Marksurfaces,
    Lump::Edges,
    Lump::Surfedges,
    Lump::Models,
];

const VERSION: u32 = 29;

// The bytes of the header, and the most nodes or leafs.
const HEADER: usize = 124;

const MOST: u32 = 32768;

impl Lump {
    /// Its number in the header.
    pub fn number(self) -> u32
        ensures number { result ≡ number_of self }
        ensures below { result < 15 }
    {
        self as u32
    }

    /// The bytes of one of its rows.
    pub fn row_size(self) -> u32
        ensures size { result ≡ row_size self }
        ensures positive { 0 < result }
    {
        match self {
            Lump::Entities | Lump::Textures | Lump::Visibility | Lump::Lighting => 1,
            Lump::Marksurfaces => 2,
            Lump::Edges | Lump::Surfedges => 4,
            Lump::Clipnodes => 8,
            Lump::Vertexes => 12,
            Lump::Planes | Lump::Faces => 20,
            Lump::Nodes => 24,
            Lump::Leafs => 28,
            Lump::Texinfos => 40,
            Lump::Models => 64,
        }
    }
}

// Where a lump begins, as the header says.
fn offset_of(src: &[u8], lump: Lump) -> u32
    requires { 124 ≤ length src.now }
    ensures { result ≡ offset_of src.now lump }
{
    u32_at(src, 8 * lump.number() as usize + 4)
}

// How many bytes a lump has, as the header says.
fn length_of(src: &[u8], lump: Lump) -> u32
    requires { 124 ≤ length src.now }
    ensures { result ≡ length_of src.now lump }
{
    u32_at(src, 8 * lump.number() as usize + 8)
}

/// The bytes of a lump, as far as the file has them.
pub fn lump_bytes(src: &[u8], lump: Lump) -> &[u8]
    requires { 124 ≤ length src.now }
    ensures bytes { result.now ≡ lump_of src.now lump }
    ensures short { length result.now < 2 ^ 32 }
{
    let start = (offset_of(src, lump) as usize).min(src.len());
    let length = (length_of(src, lump) as usize).min(src.len() - start);
    &src[start..start + length]
}

/// How many rows a lump has.
pub fn count(src: &[u8], lump: Lump) -> u32
    requires { 124 ≤ length src.now }
    ensures { result ≡ count_of src.now lump }
{
    lump_bytes(src, lump).len() as u32 / lump.row_size()
}

// The header is there, and has the version.
pub(crate) fn check_header(src: &[u8]) -> Result<(), BspFault>
    ensures first { result ≡ header_check src.now }
    ensures long { OnOk result (124 ≤ length src.now) }
{
    if src.len() < HEADER {
        return Err(BspFault::Short);
    }
    let found = u32_at(src, 0);
    if found != VERSION {
        return Err(BspFault::Version { found });
    }
    Ok(())
}

// A lump lies in the file and has whole rows, and not too many of them.
#[tactic(auto, unfolding(crate::specs::Lumps::lump_check))]
fn check_lump(src: &[u8], lump: Lump) -> Result<(), BspFault>
    requires { 124 ≤ length src.now }
    ensures { result ≡ lump_check src.now lump }
{
    let number = lump.number();
    let length = length_of(src, lump);
    if length != 0 && src.len() < offset_of(src, lump) as usize + length as usize {
        return Err(BspFault::LumpOutside { lump: number });
    }
    if length % lump.row_size() != 0 {
        return Err(BspFault::LumpSize { lump: number });
    }
    if matches!(lump, Lump::Nodes | Lump::Leafs) && length / lump.row_size() > MOST {
        return Err(BspFault::LumpCount { lump: number });
    }
    Ok(())
}

// The lumps, one by one.
pub(crate) fn check_lumps(src: &[u8]) -> Result<(), BspFault>
    requires { 124 ≤ length src.now }
    ensures { result ≡ lumps_check src.now }
{
    for lump in LUMPS {
        check_lump(src, lump)?;
    }
    Ok(())
}

// There is a model.
pub(crate) fn check_models(src: &[u8]) -> Result<(), BspFault>
    requires { 124 ≤ length src.now }
    ensures { result ≡ models_check src.now }
{
    if count(src, Lump::Models) == 0 {
        return Err(BspFault::NoModel);
    }
    Ok(())
}
