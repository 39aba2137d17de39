// The rows that name rows of other lumps.
ghost use Rattle.std.specs.Prelude.{◌≡◌, ◌≤◌, length};
ghost use Rattle.bsp29_tables.specs.Checks.{fine, each_from};
ghost use Rattle.bsp29_tables.specs.Lumps.{row_size, lump_of, rows_of};
ghost use Rattle.bsp29_tables.specs.Textures.{table_check};
ghost use Rattle.bsp29_tables.specs.declared.lumps.Lump.TheVariants.{Textures};
ghost use Rattle.bsp29_tables.specs.Rows.{counts_of, is_child, is_clip_child, is_contents, is_surfedge};
ghost use Rattle.bsp29_tables.specs.Rows.{node_passes, texinfo_passes, face_passes, clipnode_passes};
ghost use Rattle.bsp29_tables.specs.Rows.{leaf_passes, model_passes, row_passes, row_check, rows_check};

use crate::fault::BspFault;
use crate::lumps::{Lump, count, lump_bytes};
use crate::textures::told_count;
use base_fields::{i16_at, i32_at, u16_at, u32_at};

/// How many rows there are that others name.
#[derive(Clone, Copy, Debug)]
pub(crate) struct Counts {
    pub(crate) planes: u32,
    // where there is a texture lump
    pub(crate) textures: Option<u32>,
    pub(crate) vertexes: u32,
    pub(crate) nodes: u32,
    pub(crate) texinfos: u32,
    pub(crate) faces: u32,
    pub(crate) clipnodes: u32,
    pub(crate) leafs: u32,
    pub(crate) marksurfaces: u32,
    pub(crate) edges: u32,
    pub(crate) surfedges: u32,
}

#[tactic(auto, unfolding(crate::specs::Rows::counts_of))]
fn counts_of(src: &[u8]) -> Counts
    requires long { 124 ≤ length src.now }
    requires table { table_check (lump_of src.now Textures) ≡ fine }
    ensures { result ≡ counts_of src.now }
{
    Counts {
        planes: count(src, Lump::Planes),
        textures: told_count(lump_bytes(src, Lump::Textures)),
        vertexes: count(src, Lump::Vertexes),
        nodes: count(src, Lump::Nodes),
        texinfos: count(src, Lump::Texinfos),
        faces: count(src, Lump::Faces),
        clipnodes: count(src, Lump::Clipnodes),
        leafs: count(src, Lump::Leafs),
        marksurfaces: count(src, Lump::Marksurfaces),
        edges: count(src, Lump::Edges),
        surfedges: count(src, Lump::Surfedges),
    }
}

// The child of a node is a node, or below 0 the leaf -1 - c.
fn is_child(counts: &Counts, child: i16) -> bool
    ensures { result ≡ is_child counts.now child }
{
    if child >= 0 {
        (child as u32) < counts.nodes
    } else {
        ((-1 - i32::from(child)) as u32) < counts.leafs
    }
}

fn node_passes(counts: &Counts, row: &[u8]) -> bool
    requires { 24 ≤ length row.now }
    ensures { result ≡ node_passes counts.now row.now }
{
    u32_at(row, 0) < counts.planes
        && is_child(counts, i16_at(row, 4))
        && is_child(counts, i16_at(row, 6))
        && u32::from(u16_at(row, 20)) + u32::from(u16_at(row, 22)) <= counts.faces
}

fn texinfo_passes(counts: &Counts, row: &[u8]) -> bool
    requires { 40 ≤ length row.now }
    ensures { result ≡ texinfo_passes counts.now row.now }
{
    match counts.textures {
        Some(textures) => u32_at(row, 32) < textures,
        None => true,
    }
}

fn face_passes(counts: &Counts, row: &[u8]) -> bool
    requires { 20 ≤ length row.now }
    ensures { result ≡ face_passes counts.now row.now }
{
    u32::from(u16_at(row, 0)) < counts.planes
        && u64::from(u32_at(row, 4)) + u64::from(u16_at(row, 8)) <= u64::from(counts.surfedges)
        && u32::from(u16_at(row, 10)) < counts.texinfos
}

// The child of a clipnode is a clipnode, or below 0 it tells contents.
fn is_clip_child(counts: &Counts, child: i16) -> bool
    ensures { result ≡ is_clip_child counts.now child }
{
    child < 0 || (child as u32) < counts.clipnodes
}

fn clipnode_passes(counts: &Counts, row: &[u8]) -> bool
    requires { 8 ≤ length row.now }
    ensures { result ≡ clipnode_passes counts.now row.now }
{
    u32_at(row, 0) < counts.planes
        && is_clip_child(counts, i16_at(row, 4))
        && is_clip_child(counts, i16_at(row, 6))
}

// What a leaf tells of its contents is a number from -32768 to -1.
fn is_contents(contents: i32) -> bool
    ensures { result ≡ is_contents contents }
{
    (-32768..0).contains(&contents)
}

fn leaf_passes(counts: &Counts, row: &[u8]) -> bool
    requires { 28 ≤ length row.now }
    ensures { result ≡ leaf_passes counts.now row.now }
{
    is_contents(i32_at(row, 0))
        && u32::from(u16_at(row, 20)) + u32::from(u16_at(row, 22)) <= counts.marksurfaces
}

// A surfedge is the number of an edge, below 0 of one that is walked backwards.
fn is_surfedge(counts: &Counts, surfedge: i32) -> bool
    ensures { result ≡ is_surfedge counts.now surfedge }
{
    surfedge.unsigned_abs() < counts.edges
}

// The leafs that are seen are told by the first model.
fn model_passes(counts: &Counts, number: u32, row: &[u8]) -> bool
    requires { 64 ≤ length row.now }
    ensures { result ≡ model_passes counts.now number row.now }
{
    u64::from(u32_at(row, 56)) + u64::from(u32_at(row, 60)) <= u64::from(counts.faces)
        && (number != 0 || u32_at(row, 52) <= counts.leafs)
}

// What a row of a lump names is there.
#[inline(always)]
fn row_passes(counts: &Counts, lump: Lump, number: u32, row: &[u8]) -> bool
    requires { row_size lump ≤ length row.now }
    ensures { result ≡ row_passes counts.now lump number row.now }
{
    match lump {
        Lump::Nodes => node_passes(counts, row),
        Lump::Texinfos => texinfo_passes(counts, row),
        Lump::Faces => face_passes(counts, row),
        Lump::Clipnodes => clipnode_passes(counts, row),
        Lump::Leafs => leaf_passes(counts, row),
        Lump::Marksurfaces => u32::from(u16_at(row, 0)) < counts.faces,
        Lump::Edges => {
            u32::from(u16_at(row, 0)) < counts.vertexes
                && u32::from(u16_at(row, 2)) < counts.vertexes
        }
        Lump::Surfedges => is_surfedge(counts, i32_at(row, 0)),
        Lump::Models => model_passes(counts, number, row),
        _ => true,
    }
}

// The rows of a lump, one by one.
#[inline(always)]
fn check_lump_rows(src: &[u8], counts: &Counts, lump: Lump) -> Result<(), BspFault>
    requires { 124 ≤ length src.now }
    ensures { result ≡ each_from (row_check counts.now lump) 0 (rows_of src.now lump) }
{
    let bytes = lump_bytes(src, lump);
    let size = lump.row_size() as usize;
    for row in 0..bytes.len() / size {
        let start = row * size;
        if !row_passes(counts, lump, row as u32, &bytes[start..start + size]) {
            return Err(BspFault::BadRow {
                lump: lump.number(),
                row: row as u32,
            });
        }
    }
    Ok(())
}

// The rows of the lumps that name others, one lump after the other. Each call is a loop of its own, with the test of its lump alone.
#[tactic(auto, unfolding(crate::specs::Checks::each_from))]
pub(crate) fn check_rows(src: &[u8]) -> Result<(), BspFault>
    requires long { 124 ≤ length src.now }
    requires table { table_check (lump_of src.now Textures) ≡ fine }
    ensures { result ≡ rows_check src.now }
{
    let counts = counts_of(src);
    check_lump_rows(src, &counts, Lump::Nodes)?;
    check_lump_rows(src, &counts, Lump::Texinfos)?;
    check_lump_rows(src, &counts, Lump::Faces)?;
    check_lump_rows(src, &counts, Lump::Clipnodes)?;
    check_lump_rows(src, &counts, Lump::Leafs)?;
    check_lump_rows(src, &counts, Lump::Marksurfaces)?;
    check_lump_rows(src, &counts, Lump::Edges)?;
    check_lump_rows(src, &counts, Lump::Surfedges)?;
    check_lump_rows(src, &counts, Lump::Models)
}
