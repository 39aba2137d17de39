//! The zone of a plain store: blocks in rising order of place, and a rover.

ghost use Rattle.std.specs.Prelude.{◌≡◌, ◌+◌, ◌^◌, ◌<◌, ◌≤◌, ◌∷◌, [], length, slice_get, position};
ghost use Rattle.std.specs.Prelude.{IfOk, OnOk, OnErr, IfSome, IsSome, IsSomeAnd, Some};
ghost use Rattle.std.specs.Borrow.{sem, Lends, u8 as byte, Array};
ghost use Rattle.std.specs.List.{AllByRecursion};
ghost use Rattle.mem_model.specs.Zone.{chosen, with_taken, with_free, joined_at, position_of, place_at, rover_place};
ghost use Rattle.mem_model.specs.Zone.{free_block, used_bytes_from};
ghost use Rattle.mem_model.specs.ZoneState.{with_zone_payload};
ghost use Rattle.mem_model.specs.Laid.{IsZoneBlock};
ghost use Rattle.mem_model.specs.Plain.{is_fit, IsUsedAt};
ghost use Rattle.mem_model.specs.Rows.{zone_rows_up};
ghost use Rattle.mem_model.specs.Told.{row_answer};
ghost use Rattle.mem_model.specs.contracts.zone.PlainZone.{the_row as zone_of_row};

use crate::answers::{BlockRow, Place};
use crate::cells::{ZoneCell, add, insert_reserved};
use std::alloc::{AllocError, Global};
use std::marker::Model;

// A rest of at most this many bytes stays with the block from which another would be cut.
const KEPT_REST: u32 = 64;

// A block's header, behind which its payload begins.
const HEADER: u32 = 24;

// Where a rover behind the last block counts as standing: in the zone's own header.
const CAP: u32 = 20;

/// The blocks of a zone, which tile it from place 48 on, and its rover.
#[derive(Drop)]
pub struct PlainZone {
    alloc: Global,
    cells: Vec<ZoneCell>,
    // Where each block stands, so that it is found by its place without a walk over the others.
    places: Vec<u32>,
    // The position of a block, or their number for the cap.
    rover: usize,
}

impl Model for PlainZone {
    ghost use Rattle.mem_model.specs.Memory.{Zone};

    ghost Value = { Zone };

    ghost use Rattle.mem_model.specs.ZoneState.{zone_of, IsPlainZone};

    ghost view = { zone_of };

    ghost invariant = { IsPlainZone };
}

// The position of the first free block of at least `need` bytes.
fn first_fit(cells: &[ZoneCell], need: u64) -> Option<usize>
    ensures { result ≡ position (is_fit need) cells.now }
{
    cells.iter().position(|cell| cell.fits(need))
}

impl PlainZone {
    /// A zone of one free block, on which the rover stands.
    pub fn create(alloc: Global, size: u32) -> Result<PlainZone, AllocError>
        requires { 48 + size ≤ 2 ^ 26 }
        ensures { IfOk result (λ z. z ≡ record { blocks = free_block size ∷ []; rover = 0 }) }
    {
        let mut cells = Vec::new(alloc);
        add(&mut cells, ZoneCell::free(alloc, size))?;
        let mut places = Vec::new(alloc);
        add(&mut places, 48)?;
        Ok(PlainZone {
            alloc,
            cells,
            places,
            rover: 0,
        })
    }

    /// The position of the first free block of at least `need` bytes, in the ring that begins at the rover.
    pub fn chosen(&self, need: u64) -> Option<usize>
        ensures chosen { result ≡ chosen self.now need }
        ensures small { IfSome result (λ at. need ≤ 2 ^ 26) }
        ensures inside { IfSome result (λ at. at < length self.now.blocks) }
        ensures fits { IfSome result (λ at. IsSomeAnd (slice_get self.now.blocks at) (λ b. need ≤ b.size)) }
    {
        let (before, behind) = self.cells.split_at(self.rover);
        match first_fit(behind, need) {
            Some(at) => Some(self.rover + at),
            None => first_fit(before, need),
        }
    }

    /// Takes `need` bytes of the block at a position into use, and answers the place of its payload. A rest of more than
    /// 64 bytes becomes a free block behind it, and a smaller one stays with it. The rover then stands behind it.
    ///
    /// Want of memory changes nothing.
    pub fn take(&mut self, at: usize, need: u32) -> Result<Place, AllocError>
        requires header { 28 ≤ need }
        requires inside { at < length self.old.blocks }
        requires fits { IsSomeAnd (slice_get self.old.blocks at) (λ b. need ≤ b.size) }
        ensures taken { OnOk result (self.new ≡ with_taken self.old at need) }
        ensures place { IfOk result (λ place. place.0 ≡ place_at self.old.blocks at + 24) }
        ensures err { OnErr result (self.new ≡ self.old) }
    {
        let place = self.places[at];
        let size = self.cells[at].size();
        let payload = Place(place + HEADER);
        let rest = size - need;
        let next = at + 1;
        if rest <= KEPT_REST {
            self.cells[at] = ZoneCell::used(self.alloc, size)?;
            self.rover = next;
            return Ok(payload);
        }
        let used = ZoneCell::used(self.alloc, need)?;
        self.cells.reserve(1)?;
        self.places.reserve(1)?;
        self.cells[at] = used;
        insert_reserved(&mut self.cells, next, ZoneCell::free(self.alloc, rest));
        insert_reserved(&mut self.places, next, place + need);
        self.rover = next;
        Ok(payload)
    }

    /// Frees the block at a position, and joins it with its free neighbours.
    pub fn free(&mut self, at: usize)
        requires { at < length self.old.blocks }
        ensures { self.new ≡ with_free self.old at }
    {
        let size = self.cells[at].size();
        self.cells[at] = ZoneCell::free(self.alloc, size);
        self.join(at);
        if 0 < at {
            self.join(at - 1);
        }
    }

    // Joins the block at a position with the next, where both are free. A rover behind the first goes with its block.
    fn join(&mut self, at: usize)
        requires { at < length self.old.blocks }
        ensures { self.new ≡ joined_at self.old at }
    {
        if self.cells.len() == at + 1 {
            return;
        }
        let first = &self.cells[at];
        let second = &self.cells[at + 1];
        if first.is_used() || second.is_used() {
            return;
        }
        let size = first.size() + second.size();
        self.cells[at] = ZoneCell::free(self.alloc, size);
        self.cells.remove(at + 1);
        self.places.remove(at + 1);
        if at < self.rover {
            self.rover -= 1;
        }
    }

    /// The position of the block whose payload is at a place.
    pub fn position_of(&self, place: u32) -> Option<usize>
        requires { AllByRecursion IsZoneBlock self.now.blocks }
        ensures position { result ≡ position_of self.now.blocks place }
        ensures inside { IfSome result (λ at. at < length self.now.blocks) }
    {
        let places = &self.places;
        let header = place.checked_sub(HEADER)?;
        places.binary_search(&header).ok()
    }

    /// The block at a position.
    pub fn cell(&self, at: usize) -> &ZoneCell
        requires { at < length self.now.blocks }
        ensures { slice_get self.now.blocks at ≡ Some result.now }
    {
        &self.cells[at]
    }

    // The position of the block in use whose payload is at a place.
    fn used_position(&self, place: u32) -> usize
        requires there { IsSome (used_bytes_from 48 self.now.blocks place) }
        requires laid { AllByRecursion IsZoneBlock self.now.blocks }
        ensures { IsUsedAt self.now.blocks place result }
    {
        match self.position_of(place) {
            Some(at) => at,
            None => unreachable!(),
        }
    }

    /// The bytes of the block in use whose payload is at a place.
    pub fn bytes(&self, place: u32) -> &[u8]
        requires there { IsSome (used_bytes_from 48 self.now.blocks place) }
        requires laid { AllByRecursion IsZoneBlock self.now.blocks }
        ensures { used_bytes_from 48 self.now.blocks place ≡ Some result.now }
    {
        self.cells[self.used_position(place)].bytes()
    }

    /// The same, to be written.
    pub fn bytes_mut(&mut self, place: u32) -> &mut [u8]
        requires there { IsSome (used_bytes_from 48 self.old.blocks place) }
        requires laid { AllByRecursion IsZoneBlock self.old.blocks }
        ensures* writes_back { sem 𝓛 (Lends zone_of_row (Array byte 0) self.entry result
            (with_zone_payload self.old place)) }
        ensures shows { used_bytes_from 48 self.old.blocks place ≡ Some result.now }
    {
        let at = self.used_position(place);
        self.cells[at].bytes_mut()
    }

    /// The row of the block at a position.
    pub fn row(&self, at: usize) -> Option<BlockRow>
        ensures { row_answer result ≡ slice_get (zone_rows_up 48 self.now.blocks) at }
    {
        if at >= self.cells.len() {
            return None;
        }
        Some(self.cells[at].row(self.places[at]))
    }

    /// Where the header of the rover's block is, or 20 on the cap.
    pub fn rover_place(&self) -> u32
        ensures { result ≡ rover_place self.now }
    {
        if self.rover < self.places.len() {
            self.places[self.rover]
        } else {
            CAP
        }
    }
}
