//! The cvars: variables of the console with values in the zone.
#![tactic(auto)]

ghost use Rattle.std.specs.Prelude.{◌≡◌, ◌≢◌, ℕ, ◌<◌, ◌^◌, true, Some, None, Ok, MatchOption, is_some};
ghost use Rattle.std.specs.Prelude.{IfSome, IfOk, OnErr};
ghost use Rattle.std.specs.Prelude.{length, take, map, position, slice_get, bytes_eq};
ghost use Rattle.std.specs.Option.{option_map};
ghost use Rattle.mem_model.specs.Answer.{Gives};
ghost use Rattle.mem_model.specs.Laid.{Laid, IsText};
ghost use Rattle.mem_model.specs.Keeps.{beside_zone};
ghost use Rattle.cvar_table.specs.Cvars.{defaults, created, cvar_of, cvar_value, set_cvar, places_of, HoldsCvars};
ghost use Rattle.cvar_table.specs.Cvars.{ReadAlike, OthersReadAlike};
ghost use Rattle.zone_values.specs.Held.{OthersStay};
ghost use Rattle.cvar_table.specs.Told.{zone_told};

use mem_model::{Place, Store, ZoneError};
use std::marker::Model;
use zone_values::{put_value, replace_value, value_at};

// The name of each cvar, and the value that it begins with.
const DEFAULTS: [(&[u8], &[u8]); 8] = [
    (b"developer", b"0"),
    (b"volume", b"0.7"),
    (b"bgmvolume", b"1"),
    (b"sensitivity", b"3"),
    (b"viewsize", b"100"),
    (b"crosshair", b"0"),
    (b"gamma", b"1"),
    (b"fov", b"90"),
];

/// The eight cvars, whose values are in blocks of the zone. Contracts see them as a list of names and places.
///
/// The calls after `create` want the store that the cvars were created in.
#[derive(Drop)]
pub struct Cvars {
    places: [Place; 8],
}

impl Model for Cvars {
    ghost use Rattle.std.specs.Prelude.{List};
    ghost use Rattle.cvar_table.specs.Cvars.{Cvar, defaults};
    ghost use Rattle.cvar_table.specs.Told.{listed};

    ghost Value = { List Cvar };

    ghost view = { λ c. listed defaults c.places };
}

// The position of the cvar that has exactly this name.
fn position_of(name: &[u8]) -> Option<usize>
    ensures { result ≡ position (λ own. bytes_eq own.name name.now) defaults }
{
    DEFAULTS.iter().position(|(own, _)| *own == name)
}

// The value that the cvar at a position begins with.
fn first_value(at: usize) -> &'static [u8]
    requires { at < length defaults }
    ensures { slice_get (map (λ own. own.value) defaults) at ≡ Some result.now }
{
    DEFAULTS[at].1
}

impl Cvars {
    /// Puts the value of each default into a zone block of its own, in order.
    ///
    /// `Full` tells what the first block needs that the zone refused; the blocks made before it stay. After want of memory
    /// those that were made stay too.
    pub fn create<M: Store>(store: &mut M) -> Result<Cvars, ZoneError>
        ensures gives { (n : ℕ) × Gives (created (M.state store.old) defaults) M.frugal
            (created (M.state store.old) (take n defaults)).after (zone_told result) (M.state store.new) }
        ensures holds { IfOk result (λ cvars. HoldsCvars (M.state store.new) cvars) }
        ensures beside { beside_zone (M.state store.new) ≡ beside_zone (M.state store.old) }
        ensures was_laid { Laid (M.state store.old) }
        ensures laid { Laid (M.state store.new) }
    {
        let mut places = [Place(0); 8];
        for at in 0..DEFAULTS.len() {
            match put_value(store, first_value(at)) {
                Ok(place) => places[at] = place,
                Err(error) => return Err(error),
            }
        }
        Ok(Cvars { places })
    }

    // Where the value of the cvar of exactly this name is.
    fn place(&self, name: &[u8]) -> Option<Place>
        ensures { option_map (λ cvar. cvar.place) (cvar_of self.now name.now) ≡ option_map (λ place. place.0) result }
    {
        match position_of(name) {
            Some(at) => Some(self.places[at]),
            None => None,
        }
    }

    /// Whether a cvar has exactly this name.
    pub fn contains(&self, name: &[u8]) -> bool
        ensures { result ≡ is_some (cvar_of self.now name.now) }
    {
        self.place(name).is_some()
    }

    /// The value of the cvar of exactly this name, without the zero that ends it: `None` exactly where none has the name.
    pub fn get<'a, M: Store>(&self, store: &'a M, name: &[u8]) -> Option<&'a [u8]>
        requires { HoldsCvars (M.state store.now) self.now }
        ensures value { MatchOption result (cvar_value (M.state store.now) self.now name.now ≡ None)
            (λ value. cvar_value (M.state store.now) self.now name.now ≡ Some value.now) }
        ensures none { is_some result ≡ is_some (cvar_of self.now name.now) }
        ensures text { IfSome result (λ value. IsText value.now) }
    {
        match self.place(name) {
            Some(place) => Some(value_at(store, place)),
            None => None,
        }
    }

    /// Replaces the value of the cvar of exactly this name, and answers whether there is one. The new value gets its block
    /// before that of the old one is freed.
    ///
    /// `Full` tells what that block needs where no free block of the zone holds it. It changes nothing but for the event,
    /// where events are kept, and want of memory changes nothing at all.
    pub fn set<M: Store>(
        &mut self,
        store: &mut M,
        name: &[u8],
        value: &[u8],
    ) -> Result<bool, ZoneError>
        requires holds { HoldsCvars (M.state store.old) self.old }
        requires text { IsText value.now }
        requires short { length value.now < 2 ^ 62 }
        ensures gives { Gives (set_cvar (M.state store.old) self.old name.now value.now).given M.frugal
            (M.state store.old) (zone_told result) (M.state store.new) }
        ensures cvars { IfSome (zone_told result) (λ _.
            self.new ≡ (set_cvar (M.state store.old) self.old name.now value.now).cvars) }
        ensures stays { OnErr result (self.new ≡ self.old) }

        ensures found { IfOk result (λ found. found ≡ is_some (cvar_of self.old name.now)) }

        // What was set is read back, and all else as before.
        ensures read_back { result ≡ Ok true → cvar_value (M.state store.new) self.new name.now ≡ Some value.now }
        ensures others_read { result ≡ Ok true →
            OthersReadAlike (M.state store.old) (M.state store.new) self.old self.new name.now }
        ensures unset_read { result ≢ Ok true → ReadAlike (M.state store.old) (M.state store.new) self.old self.new }

        ensures holds { HoldsCvars (M.state store.new) self.new }
        ensures others { OthersStay (M.state store.old) (M.state store.new) (places_of self.old) (places_of self.new) }
        ensures beside { beside_zone (M.state store.new) ≡ beside_zone (M.state store.old) }
        ensures laid { Laid (M.state store.old) → Laid (M.state store.new) }
    {
        match position_of(name) {
            Some(at) => match replace_value(store, self.places[at], value) {
                Ok(place) => {
                    self.places[at] = place;
                    Ok(true)
                }
                Err(error) => Err(error),
            },
            None => Ok(false),
        }
    }
}

#[cfg(test)]
mod tests;
