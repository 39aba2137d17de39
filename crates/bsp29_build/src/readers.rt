// What an image tells of its model.
ghost use Rattle.std.specs.Prelude.{◌≡◌, ◌<◌, ◌≤◌, ◌+◌, length};
ghost use Rattle.base_fields.specs.Fields.{u32_in};
ghost use Rattle.bsp29_build.specs.Readers.{offset_told, count_told, visleafs_told, leaf_told, visibility_told};
ghost use Rattle.bsp29_build.specs.Readers.{number_told, texture_in, texture_told, IsBrush, TellsSections};

use base_fields::u32_at;
use bsp29_tables::{Cycle, MISSING};

/// A texture of a brush model.
#[derive(Clone, Copy, Debug, PartialEq, Eq)]
pub struct BrushTexture {
    /// The name, with zeros behind its first zero byte.
    pub name: [u8; 16],
    /// The width of its picture in pixels.
    pub width: u32,
    /// The height of its picture in pixels.
    pub height: u32,
    /// Its place in its animation: times of 0 and no textures where it has none.
    pub cycle: Cycle,
}

/// Where a section begins in the image of a brush model. Sections 0 to 14 are those of the lumps, and 15 is hull 0.
#[tactic(auto, using(crate::proofs::ReaderLaws::reader_laws))]
pub fn offset(image: &[u8], section: u32) -> u32
    requires section { section < 16 }
    requires header { 132 ≤ length image.now }
    ensures place { result ≡ offset_told image.now section }
    ensures tells { TellsSections image.now }
{
    u32_at(image, 8 * section as usize + 4)
}

/// How many rows a section of the image of a brush model has: bytes in the sections 0, 4 and 8, and textures in
/// section 2.
#[tactic(auto, using(crate::proofs::ReaderLaws::reader_laws))]
pub fn count(image: &[u8], section: u32) -> u32
    requires section { section < 16 }
    requires header { 132 ≤ length image.now }
    ensures rows { result ≡ count_told image.now section }
    ensures tells { TellsSections image.now }
{
    u32_at(image, 8 * section as usize + 8)
}

/// How many leafs can be seen in the first model.
#[tactic(auto, using(crate::proofs::ReaderLaws::reader_laws))]
pub fn visleafs(image: &[u8]) -> u32
    requires { IsBrush image.now }
    ensures told { result ≡ visleafs_told image.now }
    ensures few { result ≤ 32768 }
{
    u32_at(image, offset(image, 14) as usize + 52)
}

/// The row of a leaf: 32 bytes.
#[tactic(auto, using(crate::proofs::ReaderLaws::reader_laws))]
pub fn leaf(image: &[u8], number: u32) -> &[u8]
    requires image { IsBrush image.now }
    requires below { number < count_told image.now 10 }
    ensures fields { result.now ≡ leaf_told image.now number }
    ensures length { length result.now ≡ 32 }
{
    let start = offset(image, 10) as usize + 32 * number as usize;
    &image[start..start + 32]
}

/// The bytes of all rows of visibility.
#[tactic(auto, using(crate::proofs::ReaderLaws::reader_laws))]
pub fn visibility(image: &[u8]) -> &[u8]
    requires { IsBrush image.now }
    ensures { result.now ≡ visibility_told image.now }
{
    let start = offset(image, 4) as usize;
    &image[start..start + count(image, 4) as usize]
}

// A number, or none.
fn number_at(row: &[u8], at: usize) -> Option<u32>
    requires { at + 4 ≤ length row.now }
    ensures { result ≡ number_told (u32_in row.now at) }
{
    match u32_at(row, at) {
        MISSING => None,
        number => Some(number),
    }
}

// What the row of a texture tells, where it isn't missing.
fn read_texture(row: &[u8]) -> Option<BrushTexture>
    requires { length row.now ≡ 68 }
    ensures { result ≡ texture_in row.now }
{
    if u32_at(row, 0) == 0 {
        return None;
    }
    let mut name = [0; 16];
    name.copy_from_slice(&row[4..20]);
    Some(BrushTexture {
        name,
        width: u32_at(row, 20),
        height: u32_at(row, 24),
        cycle: Cycle {
            total: u32_at(row, 44),
            least: u32_at(row, 48),
            greatest: u32_at(row, 52),
            next: number_at(row, 56),
            alternate: number_at(row, 60),
        },
    })
}

/// The texture of a number, from 0 on: `None` exactly where it is missing.
#[tactic(auto, using(crate::proofs::ReaderLaws::reader_laws))]
pub fn texture(image: &[u8], number: u32) -> Option<BrushTexture>
    requires image { IsBrush image.now }
    requires below { number < count_told image.now 2 }
    ensures { result ≡ texture_told image.now number }
{
    let start = offset(image, 2) as usize + 68 * number as usize;
    read_texture(&image[start..start + 68])
}
