// A file that passed its tests.
ghost use Rattle.std.specs.Prelude.{◌≡◌, ◌+◌, ◌*◌, ◌≤◌, ◌^◌, length, Result, Err, IfOk, MatchResult};
ghost use Rattle.base_fields.specs.Faults.{first_fault};
ghost use Rattle.part_plan.specs.Plan.{run, seen};
ghost use Rattle.alias_load.specs.Reading.{is_bad_triangle, triangle_tests, header_tests, st_part};
ghost use Rattle.alias_load.specs.Reading.{triangle_part, body, alias};
ghost use Rattle.alias_load.specs.Sizes.{IsFile, IsSound};

use crate::fault::{AliasFault, AliasPart};
use crate::header::{frames_of, header_fault, skins_of};
use crate::reading::count_items;
use base_fields::u32_at;

/// The parts of a file behind one another.
#[derive(Clone, Copy)]
pub(crate) struct File<'a> {
    pub(crate) header: &'a [u8],
    // from the first skin on
    pub(crate) skins: &'a [u8],
    // how many the skins have
    pub(crate) pictures: u32,
    pub(crate) st_vertices: &'a [u8],
    pub(crate) triangles: &'a [u8],
    // from the first frame on
    pub(crate) frames: &'a [u8],
    // how many the frames have
    pub(crate) poses: u32,
}

// The header, and what follows it.
#[tactic(auto, unfolding(crate::specs::Reading::alias))]
fn read_header(source: &[u8]) -> Result<(&[u8], &[u8]), AliasFault>
    ensures value { MatchResult result (λ x. run alias source.now ≡ run (body x.0.now) x.1.now)
        (λ fault. run alias source.now ≡ Err fault) }
    ensures long { IfOk result (λ x. (length x.0.now ≡ 84) × (length x.1.now ≤ length source.now)) }
    ensures passed { IfOk result (λ x. first_fault (header_tests x.0.now) ≡ None) }
{
    if source.len() < 84 {
        return Err(AliasFault::Short);
    }
    let (header, rest) = source.split_at(84);
    match header_fault(header) {
        Some(fault) => Err(fault),
        None => Ok((header, rest)),
    }
}

// The st vertices, and what follows them.
#[tactic(auto, unfolding(crate::specs::Reading::st_part))]
fn read_st_vertices(count: u32, source: &[u8]) -> Result<(&[u8], &[u8]), AliasFault>
    ensures value { seen (λ x. (x.0.now, x.1.now)) result ≡ run (st_part count) source.now }
    ensures taken { IfOk result (λ x. length x.1.now ≤ length source.now) }
{
    let length = 12 * count as usize;
    if source.len() < length {
        return Err(AliasFault::Truncated {
            part: AliasPart::St,
        });
    }
    Ok(source.split_at(length))
}

fn is_bad(triangles: &[u8], row: u32, vertices: u32) -> bool
    requires { 16 * row + 16 ≤ length triangles.now }
    ensures { result ≡ is_bad_triangle vertices triangles.now row }
{
    let at = 16 * row as usize;
    !(u32_at(triangles, at + 4) < vertices
        && u32_at(triangles, at + 8) < vertices
        && u32_at(triangles, at + 12) < vertices)
}

// The first triangle with a vertex that isn't there.
#[tactic(auto, using(part_plan::proofs::CheckLaws::row_laws), unfolding(crate::specs::Reading::triangle_tests))]
fn first_bad(triangles: &[u8], count: u32, vertices: u32) -> Option<AliasFault>
    requires { 16 * count ≤ length triangles.now }
    ensures { result ≡ first_fault (triangle_tests vertices count triangles.now) }
{
    for row in 0..count {
        if is_bad(triangles, row, vertices) {
            return Some(AliasFault::Triangle { row });
        }
    }
    None
}

// The triangles, and what follows them.
#[tactic(auto, unfolding(crate::specs::Reading::triangle_part))]
fn read_triangles(count: u32, vertices: u32, source: &[u8]) -> Result<(&[u8], &[u8]), AliasFault>
    ensures value { seen (λ x. (x.0.now, x.1.now)) result ≡ run (triangle_part vertices count) source.now }
    ensures taken { IfOk result (λ x. length x.1.now ≤ length source.now) }
{
    let length = 16 * count as usize;
    if source.len() < length {
        return Err(AliasFault::Truncated {
            part: AliasPart::Triangle,
        });
    }
    let (triangles, rest) = source.split_at(length);
    match first_bad(triangles, count, vertices) {
        Some(fault) => Err(fault),
        None => Ok((triangles, rest)),
    }
}

/// The parts of a file, or its first fault.
#[tactic(auto, using(crate::proofs::FileLaws::header_laws))]
pub(crate) fn read_file(source: &[u8]) -> Result<File<'_>, AliasFault>
    requires { length source.now ≤ 2 ^ 26 }
    ensures is { MatchResult result (IsFile source.now) (λ fault. run alias source.now ≡ Err fault) }
    ensures sound { IfOk result IsSound }
{
    let (header, skins) = read_header(source)?;
    let vertices = u32_at(header, 60);
    let (pictures, rest) = count_items(skins_of(header), u32_at(header, 48), skins)?;
    let (st_vertices, rest) = read_st_vertices(vertices, rest)?;
    let (triangles, frames) = read_triangles(u32_at(header, 64), vertices, rest)?;
    let (poses, _) = count_items(frames_of(header), u32_at(header, 68), frames)?;
    Ok(File {
        header,
        skins,
        pictures,
        st_vertices,
        triangles,
        frames,
        poses,
    })
}
