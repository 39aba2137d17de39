//! Values that lie in blocks of the zone. A value has no zero byte, and one ends it.
#![tactic(auto)]

ghost use Rattle.std.specs.Prelude.{◌≡◌, ◌<◌, ◌^◌, Some, IsSome, length};
ghost use Rattle.mem_model.specs.Answer.{Gives};
ghost use Rattle.mem_model.specs.Laid.{Laid, IsText};
ghost use Rattle.mem_model.specs.Told.{zone_answer};
ghost use Rattle.mem_model.specs.Zone.{zone_bytes};
ghost use Rattle.mem_model.specs.Hunk.{over};
ghost use Rattle.mem_model.specs.Keeps.{beside_zone};
ghost use Rattle.zone_values.specs.Values.{value_at, put_value, replace_value, with_zero};

use base_fields::before_zero;
use mem_model::{Place, Store, ZoneError};

/// The value in a used block of the zone: its bytes up to the first zero.
pub fn value_at<M: Store>(store: &M, place: Place) -> &[u8]
    requires { IsSome (zone_bytes (M.state store.now) place.0) }
    ensures value { value_at (M.state store.now) place.0 ≡ Some result.now }
    ensures text { IsText result.now }
{
    before_zero(store.zone_bytes(place))
}

/// Puts a value into a new block of the zone, and answers its place.
///
/// `Full` tells what the block needs where no free block holds it. It changes nothing but for the event, where events are
/// kept, and want of memory changes nothing at all.
pub fn put_value<M: Store>(store: &mut M, value: &[u8]) -> Result<Place, ZoneError>
    requires short { length value.now < 2 ^ 62 }
    ensures gives { Gives (put_value (M.state store.old) value.now) M.frugal (M.state store.old) (zone_answer result)
        (M.state store.new) }
    ensures beside { beside_zone (M.state store.new) ≡ beside_zone (M.state store.old) }
    ensures was_laid { Laid (M.state store.old) }
    ensures laid { Laid (M.state store.new) }
{
    match store.z_alloc(value.len() as u64 + 1) {
        Ok(place) => {
            write_value(store.zone_bytes_mut(place), value);
            Ok(place)
        }
        Err(error) => Err(error),
    }
}

// Writes a value and its zero over the front of the bytes.
fn write_value(bytes: &mut [u8], value: &[u8])
    requires { length value.now < length bytes.old }
    ensures { bytes.new ≡ over bytes.old (with_zero value.now) }
{
    bytes[..value.len()].copy_from_slice(value);
    bytes[value.len()] = 0;
}

/// Puts a value into a new block of the zone, frees the block of an old one, and answers the new place.
///
/// `Full` tells what the block needs where no free block holds it. It changes nothing but for the event, where events are
/// kept, and want of memory changes nothing at all.
pub fn replace_value<M: Store>(store: &mut M, old: Place, value: &[u8]) -> Result<Place, ZoneError>
    requires short { length value.now < 2 ^ 62 }
    ensures gives { Gives (replace_value (M.state store.old) old.0 value.now) M.frugal (M.state store.old)
        (zone_answer result) (M.state store.new) }
    ensures beside { beside_zone (M.state store.new) ≡ beside_zone (M.state store.old) }
    ensures was_laid { Laid (M.state store.old) }
    ensures laid { Laid (M.state store.new) }
{
    match put_value(store, value) {
        Ok(place) => {
            let _ = store.z_free(old);
            Ok(place)
        }
        Err(refusal) => Err(refusal),
    }
}

#[cfg(test)]
mod tests;
