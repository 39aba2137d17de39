// Planes: each with the signs of its normal.
ghost use Rattle.std.specs.Prelude.{◌≡◌, ◌≤◌, ◌+◌, ◌*◌, ◌/◌, length};
ghost use Rattle.bsp29_tables.specs.Lumps.{rows_in};
ghost use Rattle.base_fields.specs.Fields.{u32_bytes};
ghost use Rattle.std.specs.Prelude.{◌++◌};
ghost use Rattle.bsp29_build.specs.Rows.{sign_at, sign_bits, with_words};

use base_fields::{fill_u32, u32_at};

// The zero that has the highest bit.
const NEGATIVE_ZERO: u32 = 0x8000_0000;

// 1 where the float is below zero.
fn sign_at(plane: &[u8], at: usize) -> u32
    requires { at + 4 ≤ length plane.now }
    ensures sign { result ≡ sign_at plane.now at }
    ensures bit { result ≤ 1 }
{
    if u32_at(plane, at) > NEGATIVE_ZERO {
        1
    } else {
        0
    }
}

#[tactic(auto, unfolding(crate::specs::Rows::sign_bits))]
fn sign_bits(plane: &[u8]) -> u32
    requires { length plane.now ≡ 20 }
    ensures { result ≡ sign_bits plane.now }
{
    sign_at(plane, 0) + 2 * sign_at(plane, 4) + 4 * sign_at(plane, 8)
}

fn put_plane(plane: &[u8], out: &mut [u8])
    requires plane { length plane.now ≡ 20 }
    requires room { length out.old ≡ 24 }
    ensures { out.new ≡ plane.now ++ u32_bytes (sign_bits plane.now) }
{
    let (row, signs) = out.split_at_mut(20);
    row.copy_from_slice(plane);
    fill_u32(signs, sign_bits(plane));
}

/// The section of the planes.
pub(crate) fn put_planes(planes: &[u8], out: &mut [u8])
    requires { length out.old ≡ 24 * (length planes.now / 20) }
    ensures { out.new ≡ with_words sign_bits (rows_in 20 planes.now) }
{
    for n in 0..planes.len() / 20 {
        put_plane(&planes[n * 20..n * 20 + 20], &mut out[n * 24..n * 24 + 24]);
    }
}
