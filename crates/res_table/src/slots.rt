// The names of one table.
ghost use Rattle.std.specs.Prelude.{◌≡◌, ◌<◌, ◌++◌, ◌∷◌, [], IfOk, IfSome, None, length, nat_lt, slice_get};
ghost use Rattle.indexmap.specs.IndexMap.{set_value_at};
ghost use Rattle.res_table.specs.Acquire.{loaded_of};
ghost use Rattle.res_table.specs.Forgotten.{left_below, rows_below};
ghost use Rattle.res_table.specs.Tables.{entered, found_in, slot_for, slot_of};

use crate::answers::Res;
use crate::kinds::Kind;
use base_fields::GameName;
use indexmap::IndexMap;
use mem_model::Place;
use std::alloc::{AllocError, Global};
use std::marker::Model;

/// What was loaded for a name.
#[derive(Clone, Copy, Debug, PartialEq, Eq)]
pub(crate) struct Loaded {
    pub(crate) kind: Kind,
    /// The size of the image in bytes.
    pub(crate) size: u32,
    /// The place of the image, where it lies on the low hunk and not in the cache.
    pub(crate) low: Option<Place>,
}

// How many bytes before its place the header of a low block begins.
const HEADER: u32 = 16;

impl Loaded {
    // What is left of it where the low hunk is freed to a level.
    fn left_below(&self, level: u32) -> Loaded
        ensures { result ≡ left_below level self.now }
    {
        let low = match self.low {
            Some(place) if place.0.saturating_sub(HEADER) < level => Some(place),
            _ => None,
        };
        Loaded { low, ..*self }
    }
}

// What is kept of a resource that was loaded.
pub(crate) fn loaded_of(res: &Res) -> Loaded
    ensures { result ≡ loaded_of res.now }
{
    Loaded {
        kind: res.kind,
        size: res.size,
        low: res.kind.low_at(Place(res.place)),
    }
}

/// The names of a table, in the order of their first loads, and what was loaded for each. The number of a name in that order
/// is its slot.
#[derive(Drop)]
pub(crate) struct Slots {
    names: IndexMap<GameName, Loaded>,
    // For how many names there is room.
    most: usize,
}

impl Model for Slots {
    ghost use Rattle.std.specs.Prelude.{◌≤◌, ◌+◌, length};
    ghost use Rattle.indexmap.specs.IndexMap.{spare};
    ghost use Rattle.res_table.specs.Tables.{SlotTable};

    ghost Value = { SlotTable };

    ghost view = { λ s. record { rows = s.names.entries; most = s.most } };

    ghost invariant = { λ s. (length s.names.entries ≤ s.most) × (s.most ≤ length s.names.entries + spare s.names) };
}

impl Slots {
    // No names, with room for so many.
    pub(crate) fn create(alloc: Global, most: usize) -> Result<Slots, AllocError>
        ensures { IfOk result (λ slots. slots ≡ record { rows = []; most = most }) }
    {
        Ok(Slots {
            names: IndexMap::with_capacity(alloc, most)?,
            most,
        })
    }

    // The slot of a name, or that of a further one.
    pub(crate) fn slot(&self, name: &GameName) -> usize
        ensures { result ≡ slot_for name.now self.now.rows }
    {
        self.names.get_index_of(name).unwrap_or(self.names.len())
    }

    // The slot of a name, and what was loaded for it.
    pub(crate) fn find(&self, name: &GameName) -> Option<(usize, Loaded)>
        ensures found { result ≡ found_in name.now self.now.rows }
        ensures inside { IfSome result (λ found. found.0 < self.now.most) }
    {
        let slot = self.names.get_index_of(name)?;
        let (_, loaded) = self.names.get_index(slot)?;
        Some((slot, *loaded))
    }

    // Whether there is room for a further name.
    pub(crate) fn has_room(&self) -> bool
        ensures { result ≡ nat_lt (length self.now.rows) self.now.most }
    {
        self.names.len() < self.most
    }

    // What was loaded for a name, in its slot or in the next one.
    pub(crate) fn enter(&mut self, name: &GameName, loaded: Loaded)
        requires { slot_for name.now self.old.rows < self.old.most }
        ensures { self.new ≡ record self.old { rows = entered self.old.rows name.now loaded } }
    {
        match self.names.get_index_of(name) {
            Some(slot) => self.set(slot, loaded),
            None => self.add(name, loaded),
        }
    }

    // A further name, in the next slot.
    fn add(&mut self, name: &GameName, loaded: Loaded)
        requires new { slot_of name.now self.old.rows ≡ None }
        requires room { length self.old.rows < self.old.most }
        ensures { self.new ≡ record self.old { rows = self.old.rows ++ (name.now, loaded) ∷ [] } }
    {
        let _ = self.names.insert(name.copied(), loaded);
    }

    // Something else was loaded for the name of a slot.
    #[tactic(auto, using(crate::proofs::Rows::set_laws))]
    fn set(&mut self, slot: usize, loaded: Loaded)
        requires { slot < length self.old.rows }
        ensures { self.new ≡ record self.old { rows = set_value_at self.old.rows slot loaded } }
    {
        *self.names.get_index_mut(slot).unwrap() = loaded;
    }

    // What is left of each where the low hunk is freed to a level.
    pub(crate) fn forget_low(&mut self, level: u32)
        ensures { self.new ≡ record self.old { rows = rows_below level self.old.rows } }
    {
        for slot in 0..self.names.len() {
            self.forget_slot(slot, level);
        }
    }

    // The same of the name of a slot.
    fn forget_slot(&mut self, slot: usize, level: u32)
        requires { slot < length self.old.rows }
        ensures { IfSome (slice_get self.old.rows slot) (λ row.
            self.new ≡ record self.old { rows = set_value_at self.old.rows slot (left_below level row.1) }) }
    {
        let (_, loaded) = self.names.get_index(slot).unwrap();
        let left = loaded.left_below(level);
        self.set(slot, left);
    }
}
