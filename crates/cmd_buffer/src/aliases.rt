// The aliases of the console.
ghost use Rattle.std.specs.Prelude.{◌≡◌, ◌<◌, ◌≤◌, ◌^◌, ◌∷◌, Some, None, IsSome, length, drop, find, slice_get, bytes_eq};
ghost use Rattle.std.specs.Prelude.{◌↔◌, Err, MatchOption, IfSome, OnOk, OnErr};
ghost use Rattle.std.specs.Option.{option_map};
ghost use Rattle.mem_model.specs.Zone.{zone_bytes};
ghost use Rattle.mem_model.specs.Hunk.{over};
ghost use Rattle.mem_model.specs.Laid.{Laid, IsText};
ghost use Rattle.mem_model.specs.Keeps.{beside_zone};
ghost use Rattle.zone_values.specs.Held.{OthersStay};
ghost use Rattle.cmd_buffer.specs.Aliases.{place_of, number_of, spelled, aliases_of, alias_places, HoldsAliases, added, set_alias};
ghost use Rattle.cmd_buffer.specs.Aliases.{alias_texts, alias_value, older_than, IsReadBack};
ghost use Rattle.cmd_buffer.specs.AliasCalls.{set_told, GivesSet};
ghost use Rattle.cmd_buffer.specs.AliasRecords.{alias_of, alias_in, is_same};

use base_fields::{before_zero, put_u32, u32_at};
use mem_model::{Place, Store, ZoneError};
use std::error::Error;
use std::fmt;
use std::marker::Model;
use zone_values::{put_value, replace_value, value_at};

// A record has these bytes: the place of the next one, the name, padded with zeros, and the place of the value.
const RECORD_BYTES: u64 = 40;

const NAME_AT: usize = 4;

const NAME_BYTES: usize = 32;

const VALUE_AT: usize = 36;

// A zero ends each name.
const LONGEST_NAME: usize = 31;

// What a record has for the place of the next, where there is none.
const NO_PLACE: u32 = 0xFFFF_FFFF;

/// Why an alias was not set.
#[derive(Clone, Copy, Debug, PartialEq, Eq)]
pub enum AliasError {
    /// The name has more than 31 bytes.
    LongName,
    /// The zone gave no block.
    Zone(ZoneError),
}

/// The aliases of a console: names, each with a text that takes its place. They lie in blocks of the zone, and the place of
/// the newest record alone is kept here. Contracts see that place, or none where there is no alias.
///
/// A record has 40 bytes: the place of the record before it in time, or 0xFFFFFFFF where there is none, in 4 bytes, the
/// lowest first; the name in 32, padded with zeros; and the place of the value in 4. A value ends in a zero.
#[derive(Clone, Copy, Debug)]
pub struct Aliases {
    // the place of the newest record
    newest: Option<u32>,
}

impl fmt::Display for AliasError {
    fn fmt<W: fmt::Write>(&self, f: &mut fmt::Formatter<W>) -> fmt::Result {
        match self {
            AliasError::LongName => f.write_str("Alias name is too long"),
            AliasError::Zone(ZoneError::Full { asked }) => write!(f, "zone full: {asked} bytes"),
            AliasError::Zone(ZoneError::OutOfMemory) => f.write_str("out of memory"),
        }
    }
}

impl Error for AliasError {}

impl From<ZoneError> for AliasError {
    ghost use Rattle.cmd_buffer.specs.declared.aliases.AliasError.{AliasError};
    ghost use Rattle.std.specs.Prelude.{◌≡◌};

    ghost from_gives = { λ error e. e ≡ AliasError.Zone error };

    fn from(error: ZoneError) -> Self {
        AliasError::Zone(error)
    }
}

impl Model for Aliases {
    ghost use Rattle.std.specs.Prelude.{ℕ, Option};

    ghost Value = { Option ℕ };

    ghost view = { λ a. a.newest };

    ghost inverse = { λ newest. record { newest = newest } };
}

impl Aliases {
    /// No alias.
    pub fn create() -> Aliases
        ensures { result ≡ None }
    {
        Aliases { newest: None }
    }

    /// Sets the alias of a name to a value. An alias of exactly this name keeps its place among the others and gets the new
    /// value, which is allocated before the old one is freed; else a new alias is the newest.
    ///
    /// `LongName` comes exactly where the name has more than 31 bytes, and `Full` where the zone refuses a block, with what
    /// that block needs; where it refuses the value of a new name, the record is freed again. Each refusal leaves the
    /// aliases as they were. So does want of memory; it may have allocated a record and freed it again.
    pub fn set<M: Store>(
        &mut self,
        store: &mut M,
        name: &[u8],
        value: &[u8],
    ) -> Result<(), AliasError>
        requires holds { HoldsAliases (M.state store.old) self.old }
        requires texts { IsText name.now × IsText value.now }
        requires short { length value.now < 2 ^ 62 }
        ensures gives { GivesSet (set_alias (M.state store.old) self.old name.now value.now) M.frugal (M.state store.old) self.old (set_told result) (M.state store.new) self.new }

        ensures long_name { (result ≡ Err AliasError.LongName) ↔ (31 < length name.now) }

        // What was set is read back, and all else as before.
        ensures read_back { OnOk result (IsReadBack (alias_texts (M.state store.old) self.old)
            (alias_texts (M.state store.new) self.new) name.now value.now) }
        ensures unset_read { OnErr result (alias_texts (M.state store.new) self.new ≡ alias_texts (M.state store.old) self.old) }

        ensures holds { HoldsAliases (M.state store.new) self.new }
        ensures others { OthersStay (M.state store.old) (M.state store.new) (alias_places (aliases_of (M.state store.old) self.old)) (alias_places (aliases_of (M.state store.new) self.new)) }
        ensures beside { beside_zone (M.state store.new) ≡ beside_zone (M.state store.old) }
        ensures laid { Laid (M.state store.old) → Laid (M.state store.new) }
    {
        if LONGEST_NAME < name.len() {
            return Err(AliasError::LongName);
        }
        match blocks_of(store, self.newest, name) {
            Some(blocks) => {
                let new = replace_value(store, blocks.value_place, value)?;
                put_u32(store.zone_bytes_mut(blocks.record_place), VALUE_AT, new.0);
                Ok(())
            }
            None => self.add(store, name, value),
        }
    }

    /// The value of the newest alias of a name, in any case of its letters: `None` exactly where no alias has it.
    pub fn find<'a, M: Store>(&self, store: &'a M, name: &[u8]) -> Option<&'a [u8]>
        requires holds { HoldsAliases (M.state store.now) self.now }
        ensures value { MatchOption result (alias_value (M.state store.now) self.now name.now ≡ None)
            (λ value. alias_value (M.state store.now) self.now name.now ≡ Some value.now) }
        ensures text { IfSome result (λ value. IsText value.now) }
    {
        match find_record(store, self.newest, Case::Any, name) {
            Some(record) => Some(value_at(store, record.value)),
            None => None,
        }
    }

    /// The name and the value of the alias of a number, counted from the newest: `None` exactly past the last.
    pub fn row<'a, M: Store>(&self, store: &'a M, number: u32) -> Option<(&'a [u8], &'a [u8])>
        requires holds { HoldsAliases (M.state store.now) self.now }
        ensures row { MatchOption result (slice_get (alias_texts (M.state store.now) self.now) number ≡ None)
            (λ row. slice_get (alias_texts (M.state store.now) self.now) number ≡ Some (record { name = row.0.now; value = row.1.now })) }
    {
        let mut place = self.newest;
        for _before in 0..number {
            match place {
                Some(at) => place = record_at(store, at).next,
                None => return None,
            }
        }
        match place {
            Some(at) => {
                let record = record_at(store, at);
                Some((record.name, value_at(store, record.value)))
            }
            None => None,
        }
    }

    /// The aliases behind the newest. A walk over all takes the first row and goes on with these, so that it is linear.
    pub fn older<M: Store>(&self, store: &M) -> Aliases
        requires holds { HoldsAliases (M.state store.now) self.now }
        ensures older { result ≡ older_than (M.state store.now) self.now }
        ensures rest { alias_texts (M.state store.now) result ≡ drop 1 (alias_texts (M.state store.now) self.now) }
        ensures holds { HoldsAliases (M.state store.now) result }
    {
        match self.newest {
            Some(at) => Aliases {
                newest: record_at(store, at).next,
            },
            None => Aliases { newest: None },
        }
    }

    // Sets an alias of a new name.
    fn add<M: Store>(&mut self, store: &mut M, name: &[u8], value: &[u8]) -> Result<(), AliasError>
        requires holds { HoldsAliases (M.state store.old) self.old }
        requires texts { IsText name.now × IsText value.now }
        requires fits { length name.now ≤ 31 }
        requires short { length value.now < 2 ^ 62 }
        ensures gives { GivesSet (added (M.state store.old) self.old name.now value.now) M.frugal (M.state store.old) self.old (set_told result) (M.state store.new) self.new }
        ensures holds { HoldsAliases (M.state store.new) self.new }
        ensures others { OthersStay (M.state store.old) (M.state store.new) (alias_places (aliases_of (M.state store.old) self.old)) (alias_places (aliases_of (M.state store.new) self.new)) }
        ensures was_laid { Laid (M.state store.old) }
        ensures laid { Laid (M.state store.new) }
    {
        let place = store.z_alloc(RECORD_BYTES)?;
        match put_value(store, value) {
            Ok(new) => {
                write_record(store.zone_bytes_mut(place), self.newest, name, new);
                self.newest = Some(place.0);
                Ok(())
            }
            Err(error) => {
                let _ = store.z_free(place);
                Err(AliasError::Zone(error))
            }
        }
    }
}

// How names are compared.
#[derive(Clone, Copy)]
enum Case {
    Any,
    Exact,
}

// A record of an alias, as it stands in its block.
#[derive(Clone, Copy)]
struct Record<'a> {
    place: Place,
    next: Option<u32>,
    name: &'a [u8],
    value: Place,
}

// The blocks of an alias.
#[derive(Clone, Copy)]
struct Blocks {
    record_place: Place,
    value_place: Place,
}

fn same_names(case: Case, own: &[u8], name: &[u8]) -> bool
    ensures { result ≡ is_same case own.now name.now }
{
    match case {
        Case::Any => own.eq_ignore_ascii_case(name),
        Case::Exact => own == name,
    }
}

// The place that a field of a record names.
fn place_in(number: u32) -> Option<u32>
    ensures { result ≡ place_of number }
{
    if number == NO_PLACE {
        None
    } else {
        Some(number)
    }
}

// The record at the place of the newest.
fn record_at<M: Store>(store: &M, place: u32) -> Record<'_>
    requires holds { HoldsAliases (M.state store.now) (Some place) }
    ensures first { aliases_of (M.state store.now) (Some place) ≡ alias_of result ∷ aliases_of (M.state store.now) result.next }
    ensures older { result.next ≡ older_than (M.state store.now) (Some place) }
    ensures holds { HoldsAliases (M.state store.now) result.next }
    ensures value { IsSome (zone_bytes (M.state store.now) result.value.0) }
    ensures laid { Laid (M.state store.now) }
{
    let bytes = store.zone_bytes(Place(place));
    Record {
        place: Place(place),
        next: place_in(u32_at(bytes, 0)),
        name: before_zero(&bytes[NAME_AT..NAME_AT + NAME_BYTES]),
        value: Place(u32_at(bytes, VALUE_AT)),
    }
}

// The newest record of a name.
fn find_record<'a, M: Store>(
    store: &'a M,
    newest: Option<u32>,
    case: Case,
    name: &[u8],
) -> Option<Record<'a>>
    requires holds { HoldsAliases (M.state store.now) newest }
    ensures found { option_map alias_of result ≡ find (λ a. is_same case a.name name.now) (aliases_of (M.state store.now) newest) }
    ensures value { IfSome result (λ found. IsSome (zone_bytes (M.state store.now) found.value.0)) }
{
    let mut place = newest;
    'records: while let Some(at) = place {
        let record = record_at(store, at);
        if same_names(case, record.name, name) {
            return Some(record);
        }
        place = record.next;
    }
    None
}

// The blocks of the alias of exactly this name.
fn blocks_of<M: Store>(store: &M, newest: Option<u32>, name: &[u8]) -> Option<Blocks>
    requires holds { HoldsAliases (M.state store.now) newest }
    ensures found { option_map (alias_in name.now) result ≡ find (λ a. bytes_eq a.name name.now) (aliases_of (M.state store.now) newest) }
{
    match find_record(store, newest, Case::Exact, name) {
        Some(record) => Some(Blocks {
            record_place: record.place,
            value_place: record.value,
        }),
        None => None,
    }
}

// Writes a record over the front of the bytes.
fn write_record(bytes: &mut [u8], next: Option<u32>, name: &[u8], value: Place)
    requires room { 40 ≤ length bytes.old }
    requires fits { length name.now ≤ 31 }
    ensures { bytes.new ≡ over bytes.old (spelled next name.now value.0) }
{
    put_u32(bytes, 0, next.unwrap_or(NO_PLACE));
    bytes[NAME_AT..NAME_AT + name.len()].copy_from_slice(name);
    bytes[NAME_AT + name.len()..VALUE_AT].fill(0);
    put_u32(bytes, VALUE_AT, value.0);
}
