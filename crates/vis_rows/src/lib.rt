//! Visibility in brush models: which leafs are seen from a leaf.
//!
//! The row of a leaf has a bit for each leaf that can be seen in the first model, from leaf 1 on, eight to a byte, the
//! lowest bit first. The model keeps rows packed, one behind the other, in the bytes of its visibility: a zero and the
//! byte n behind it stand for n zeros, and each other byte for itself. The number of four bytes at 4 in the row of a leaf
//! says where its own begins. Leaf 0, which is outside, and a leaf whose row begins nowhere in the bytes see all.
#![tactic(auto)]

ghost use Rattle.std.specs.Prelude.{◌≡◌, ◌+◌, ◌≤◌, ◌<◌, length, take, replicate, ◌++◌, option_map, IfOk};
ghost use Rattle.std.specs.Borrow.{Bor};
ghost use Rattle.std.specs.Prelude.{List, ℕ};
ghost use Rattle.bsp29_build.specs.Readers.{count_told, IsBrush};
ghost use Rattle.vis_rows.specs.Rows.{expand, first, front, row_of, row_width, told_from, whole};

use base_fields::i32_at;
use bsp29_build::{count, visibility, visleafs};
use thiserror::Error;

/// Why a leaf has no row.
#[derive(Clone, Copy, Debug, PartialEq, Eq, Error)]
pub enum VisError {
    /// There is no leaf of that number.
    #[error("no leaf")]
    NoLeaf,
    /// The bytes end before the row does.
    #[error("vis row truncated")]
    Truncated,
}

// Writes n zeros from `at` on.
fn put_zeros(out: &mut [u8], at: usize, n: usize)
    requires { at + n ≤ length out.old }
    ensures { take (at + n) out.new ≡ take at out.old ++ replicate n 0 }
{
    out[at..at + n].fill(0);
}

// Fills `out` with the first bytes that these stand for.
fn expand_into(bytes: &[u8], out: &mut [u8]) -> Result<(), VisError>
    ensures { whole out.new result ≡ first (length out.old) (expand bytes.now) }
{
    let mut at = 0;
    let mut done = 0;
    while done < out.len() {
        if at == bytes.len() {
            return Err(VisError::Truncated);
        }
        let byte = bytes[at];
        at += 1;
        if byte != 0 {
            out[done] = byte;
            done += 1;
        } else {
            if at == bytes.len() {
                return Err(VisError::Truncated);
            }
            let n = usize::from(bytes[at]).min(out.len() - done);
            put_zeros(out, done, n);
            at += 1;
            done += n;
        }
    }
    Ok(())
}

// The bytes that tell what is seen from a leaf, to the end of all; none where it sees all leafs.
fn told_from(image: &[u8], leaf: u32) -> Option<&[u8]>
    requires image { IsBrush image.now }
    requires below { leaf < count_told image.now 10 }
    ensures { option_map (λ (bytes : Bor (List ℕ)). bytes.now) result ≡ told_from image.now leaf }
{
    if leaf == 0 {
        return None;
    }
    let offset = i32_at(bsp29_build::leaf(image, leaf), 4);
    let bytes = visibility(image);
    if offset < 0 || offset as usize >= bytes.len() {
        return None;
    }
    Some(&bytes[offset as usize..])
}

/// Puts the row of a leaf at the front of `out`, and says how many bytes it has. Where there is none, `out` may have been
/// written to.
#[tactic(auto, unfolding(crate::specs::Rows::row_of))]
pub fn row(image: &[u8], leaf: u32, out: &mut [u8]) -> Result<usize, VisError>
    requires image { IsBrush image.now }
    requires room { 4096 ≤ length out.old }
    ensures row { front out.new result ≡ row_of image.now leaf }
    ensures width { IfOk result (λ n. n ≡ row_width image.now) }
    ensures few { IfOk result (λ n. n ≤ 4096) }
{
    if leaf >= count(image, 10) {
        return Err(VisError::NoLeaf);
    }
    let width = (visleafs(image) as usize).div_ceil(8);
    match told_from(image, leaf) {
        Some(bytes) => expand_into(bytes, &mut out[..width])?,
        None => out[..width].fill(255),
    }
    Ok(width)
}

#[cfg(test)]
mod tests;
