//! A store over vectors.

ghost use Rattle.std.specs.Prelude.{◌≡◌, ◌<◌, ◌≤◌, ◌^◌, ◌+◌, ◌↔◌, ℕ, List, length, IfOk, IfErr, IsOkAnd, Err, IsSome, MatchOption, Some, None, false, true};
ghost use Rattle.mem_model.specs.Memory.{new_memory};
ghost use Rattle.mem_model.specs.Hunk.{bytes_above, bytes_down, cut_above, cut_from, last_bytes, low_bytes, over, without_temp};
ghost use Rattle.mem_model.specs.Images.{HasBytes, front_of};
ghost use Rattle.mem_model.specs.Operations.{cache_alloc, high_taken};
ghost use Rattle.mem_model.specs.Answer.{Gives};
ghost use Rattle.mem_model.specs.Told.{cache_answer, room_answer};
ghost use Rattle.mem_model.specs.Places.{hunk_need, zone_need, cache_need};
ghost use Rattle.mem_model.specs.Plain.{IsAt, IsCut, IsGiven, IsHighAt, IsHighCut, IsLast};
ghost use Rattle.mem_model.specs.Laid.{Laid, IsMultiple, IsText};

use crate::answers::{
    BadMark, BlockRow, CacheError, FreeError, Place, RoomError, StoreStart, ZoneError,
};
use crate::builder::Builder;
use crate::cache::PlainCache;
use crate::cells::{CacheCell, HunkCell, add};
use crate::store::Store;
use crate::zone::PlainZone;
use std::alloc::Global;
use std::marker::Model;

/// A store that keeps each block in vectors of its own. It may run out of memory, and keeps no events.
#[derive(Drop)]
pub struct PlainStore {
    alloc: Global,
    size: u32,
    users: u32,
    low: Vec<HunkCell>,
    low_used: u32,
    // Where each low block ends, so that a row is read, and a block or a mark found, without a walk over the others.
    low_ends: Vec<u32>,
    high: Vec<HunkCell>,
    high_used: u32,
    // The same, from the arena's end down.
    high_ends: Vec<u32>,
    temp: Option<u32>,
    zone: PlainZone,
    cache: PlainCache,
}

impl Model for PlainStore {
    ghost use Rattle.mem_model.specs.Memory.{Memory};

    ghost Value = { Memory };

    ghost use Rattle.mem_model.specs.PlainState.{state_of, IsPlain};

    ghost view = { state_of };

    ghost invariant = { IsPlain };
}

// What a hunk block with a payload of this size takes.
fn hunk_need(size: u64) -> u64
    requires { size ≤ 2 ^ 62 }
    ensures { result ≡ hunk_need size }
{
    16 + size.div_ceil(16) * 16
}

// What a zone block with a payload of this size takes.
fn zone_need(size: u64) -> u64
    requires { size ≤ 2 ^ 62 }
    ensures { result ≡ zone_need size }
{
    (size + 28).div_ceil(8) * 8
}

// What a cache block with a payload of this size takes.
fn cache_need(size: u64) -> u64
    requires { size ≤ 2 ^ 62 }
    ensures { result ≡ cache_need size }
{
    (size + 40).div_ceil(16) * 16
}

// The position of the newest block.
fn last_of(cells: &[HunkCell]) -> usize
    requires { IsSome (last_bytes cells.now) }
    ensures { IsLast cells.now result }
{
    cells.len() - 1
}

// The first bytes of the newest block.
fn newest_front(cells: &[HunkCell], len: usize) -> &[u8]
    requires { HasBytes (last_bytes cells.now) len }
    ensures { result.now ≡ front_of (last_bytes cells.now) len }
{
    &cells[last_of(cells)].bytes()[..len]
}

// The front of the bytes becomes that of a source.
fn copy_front(bytes: &mut [u8], source: &[u8])
    requires { length source.now ≤ length bytes.old }
    ensures { bytes.new ≡ over bytes.old source.now }
{
    bytes[..source.len()].copy_from_slice(source);
}

// The front of the bytes becomes the image of a source.
fn build_front<B: Builder>(bytes: &mut [u8], source: &[u8], builder: &B)
    requires small { length source.now ≤ 2 ^ 26 }
    requires image { IsOkAnd (B.image_of builder.now source.now) (λ image. length image ≤ length bytes.old) }
    ensures { IfOk (B.image_of builder.now source.now) (λ image. bytes.new ≡ over bytes.old image) }
{
    let size = builder.length(source) as usize;
    builder.build(source, &mut bytes[..size]);
}

impl PlainStore {
    /// A store of `size` bytes with a zone of `zone` bytes, all free, and an empty cache for this many users.
    ///
    /// `TooSmall` comes exactly where the zone's block, with its header of 16 bytes, exceeds the size, whatever memory
    /// there is.
    pub fn create(alloc: Global, size: u32, zone: u32, users: u32) -> Result<PlainStore, StoreStart>
        requires size { (IsMultiple 16 size) × (size ≤ 2 ^ 26) }
        requires zone { (IsMultiple 16 zone) × (64 ≤ zone) × (zone ≤ 2 ^ 26) }
        requires users { users ≤ 1024 }
        ensures ok { IfOk result (λ store. store ≡ new_memory size zone users 0) }
        ensures too_small { (result ≡ Err StoreStart.TooSmall) ↔ (size < hunk_need zone) }
    {
        if size < zone + 16 {
            return Err(StoreStart::TooSmall);
        }
        let mut low = Vec::new(alloc);
        add(&mut low, HunkCell::bare(alloc, zone + 16, b"zone"))?;
        let mut low_ends = Vec::new(alloc);
        add(&mut low_ends, zone + 16)?;
        Ok(PlainStore {
            alloc,
            size,
            users,
            low,
            low_used: zone + 16,
            low_ends,
            high: Vec::new(alloc),
            high_used: 0,
            high_ends: Vec::new(alloc),
            temp: None,
            zone: PlainZone::create(alloc, zone - 32)?,
            cache: PlainCache::create(alloc),
        })
    }

    // The position of the low block above the zone whose payload is at this place. It stands behind the one that ends
    // where its header is.
    fn low_position(&self, place: u32) -> usize
        requires { IsSome (bytes_above self.now.low place) }
        ensures { IsAt self.now.low place result }
    {
        match self.low_ends.binary_search(&(place - 16)) {
            Ok(before) => before + 1,
            Err(_) => unreachable!(),
        }
    }

    // The position of the high block whose payload is at this place. It ends where its header is.
    fn high_position(&self, place: u32) -> usize
        requires { IsSome (bytes_down self.now.size self.now.high place) }
        ensures { IsHighAt self.now.size self.now.high place result }
    {
        match self.high_ends.binary_search(&(self.size + 16 - place)) {
            Ok(at) => at,
            Err(_) => unreachable!(),
        }
    }

    // How many low blocks a mark keeps, the zone's among them.
    fn low_kept(&self, mark: u32) -> Option<usize>
        ensures { MatchOption result (cut_above self.now.low mark ≡ None) (λ n. IsCut self.now.low mark n) }
    {
        let last = self.low_ends.binary_search(&mark).ok()?;
        Some(last + 1)
    }

    // How many high blocks a mark keeps.
    fn high_kept(&self, mark: u32) -> Option<usize>
        ensures { MatchOption result (cut_from 0 self.now.high mark ≡ None) (λ n. IsHighCut self.now.high mark n) }
    {
        if mark == 0 {
            return Some(0);
        }
        let last = self.high_ends.binary_search(&mark).ok()?;
        Some(last + 1)
    }

    // The bytes of the low block at a mark, to which the low hunk is freed.
    fn take_low(&mut self, mark: u32) -> Vec<u8>
        requires { IsSome (low_bytes self.old (mark + 16)) }
        ensures bytes { low_bytes self.old (mark + 16) ≡ Some result.items }
        ensures cut { cut_above self.old.low mark ≡ Some self.new.low }
        ensures rest { self.new ≡ record self.old { low = self.new.low } }
    {
        let Some(kept) = self.low_kept(mark) else {
            unreachable!()
        };
        self.low.truncate(kept + 1);
        let Some(cell) = self.low.pop() else {
            unreachable!()
        };
        self.low_ends.truncate(kept);
        self.low_used = mark;
        cell.into_bytes()
    }

    // What a new block of a user takes, or why it gets none, whatever memory there is.
    fn block_need(&self, user: u32, size: u64) -> Result<u32, CacheError>
        requires { size ≤ 2 ^ 62 }
        ensures need { IfOk result (IsGiven self.now user size) }
        ensures refused { IfErr result (λ error. (name : List ℕ) →
            Gives (cache_alloc self.now user size name) true self.now (cache_answer (Err error)) self.now) }
    {
        if self.cache.has(user) {
            return Err(CacheError::Occupied { user });
        }
        if size == 0 {
            return Err(CacheError::BadSize);
        }
        let asked = cache_need(size);
        let room = u64::from(self.room());
        if asked > room {
            return Err(CacheError::NoRoom { asked, room });
        }
        Ok(asked as u32)
    }

    // Frees the temporary block, where one is active.
    fn free_temp(&mut self)
        ensures freed { self.new ≡ without_temp self.old }
        ensures was_laid { Laid self.old }
        ensures quiet { self.old.event_room ≡ 0 }
    {
        if let Some(older) = self.temp {
            let newest = self.high.len() - 1;
            self.high.truncate(newest);
            self.high_ends.truncate(newest);
            self.high_used = older;
            self.temp = None;
        }
    }

    // Adds a high block, where no temporary block is active.
    fn take_high(&mut self, size: u64, name: &[u8]) -> Result<Place, RoomError>
        requires size { size ≤ 2 ^ 62 }
        requires name { IsText name.now }
        requires no_temp { self.old.temp ≡ None }
        ensures gives { Gives (high_taken self.old size name.now) false self.old (room_answer result) self.new }
        ensures laid { Laid self.new }
    {
        let asked = hunk_need(size);
        let room = u64::from(self.room());
        if asked > room {
            return Err(RoomError::NoRoom { asked, room });
        }
        let used = self.high_used + asked as u32;
        let cell = HunkCell::zeroed(self.alloc, asked as u32, name)?;
        self.high_ends.reserve(1)?;
        add(&mut self.high, cell)?;
        self.high_ends.push_reserved(used);
        self.high_used = used;
        self.cache.push_down(self.size - used);
        Ok(Place(self.size - used + 16))
    }
}

impl Store for PlainStore {
    ghost use Rattle.std.specs.Prelude.{false, refl};
    ghost use Rattle.mem_model.specs.Hunk.{with_low_bytes, with_high_bytes, with_temp_bytes};
    ghost use Rattle.mem_model.specs.Zone.{with_zone_bytes};

    ghost state = { λ m. m };

    ghost frugal = { false };

    ghost low_written = { with_low_bytes };

    ghost high_written = { with_high_bytes };

    ghost temp_written = { with_temp_bytes };

    ghost zone_written = { with_zone_bytes };

    fn low_alloc(&mut self, size: u64, name: &[u8]) -> Result<Place, RoomError> {
        let need = hunk_need(size);
        let room = u64::from(self.room());
        if room < need {
            return Err(RoomError::NoRoom { asked: need, room });
        }
        let place = Place(self.low_used + 16);
        let end = self.low_used + need as u32;
        let cell = HunkCell::zeroed(self.alloc, need as u32, name)?;
        self.low_ends.reserve(1)?;
        add(&mut self.low, cell)?;
        self.low_ends.push_reserved(end);
        self.low_used = end;
        self.cache.push_up(end, self.size - self.high_used);
        Ok(place)
    }

    fn low_mark(&self) -> u32 {
        self.low_used
    }

    fn low_free(&mut self, mark: u32) -> Result<(), BadMark> {
        let Some(kept) = self.low_kept(mark) else {
            return Err(BadMark { mark });
        };
        self.low.truncate(kept);
        self.low_ends.truncate(kept);
        self.low_used = mark;
        Ok(())
    }

    fn low_bytes(&self, place: Place) -> &[u8] {
        self.low[self.low_position(place.0)].bytes()
    }

    fn low_bytes_mut(&mut self, place: Place) -> &mut [u8] {
        let at = self.low_position(place.0);
        self.low[at].bytes_mut()
    }

    fn high_alloc(&mut self, size: u64, name: &[u8]) -> Result<Place, RoomError> {
        self.free_temp();
        self.take_high(size, name)
    }

    fn high_bytes(&self, place: Place) -> &[u8] {
        self.high[self.high_position(place.0)].bytes()
    }

    fn high_bytes_mut(&mut self, place: Place) -> &mut [u8] {
        let at = self.high_position(place.0);
        self.high[at].bytes_mut()
    }

    fn high_mark(&mut self) -> u32 {
        self.free_temp();
        self.high_used
    }

    fn high_free(&mut self, mark: u32) -> Result<(), BadMark> {
        self.free_temp();
        match self.high_kept(mark) {
            Some(kept) => {
                self.high.truncate(kept);
                self.high_ends.truncate(kept);
                self.high_used = mark;
                Ok(())
            }
            None => Err(BadMark { mark }),
        }
    }

    fn temp_alloc(&mut self, size: u64) -> Result<Place, RoomError> {
        self.free_temp();
        let mark = self.high_used;
        match self.take_high(size.div_ceil(16) * 16, b"temp") {
            Ok(place) => {
                self.temp = Some(mark);
                Ok(place)
            }
            Err(error) => Err(error),
        }
    }

    fn temp_bytes(&self) -> Option<&[u8]> {
        match self.temp {
            Some(_) => Some(self.high[last_of(&self.high)].bytes()),
            None => None,
        }
    }

    fn temp_bytes_mut(&mut self) -> &mut [u8] {
        let last = last_of(&self.high);
        self.high[last].bytes_mut()
    }

    fn build_low<B: Builder>(&mut self, place: Place, len: usize, builder: &B) {
        let at = self.low_position(place.0);
        let source = newest_front(&self.high, len);
        build_front(self.low[at].bytes_mut(), source, builder);
    }

    fn high_used(&self) -> u32 {
        self.high_used
    }

    fn temp_active(&self) -> bool {
        self.temp.is_some()
    }

    fn low_row(&self, number: u32) -> Option<BlockRow> {
        let at = number as usize;
        if at >= self.low.len() {
            return None;
        }
        let cell = &self.low[at];
        Some(cell.row(self.low_ends[at] - cell.size()))
    }

    fn high_row(&self, number: u32) -> Option<BlockRow> {
        let number = number as usize;
        let count = self.high.len();
        if number >= count {
            return None;
        }
        let at = count - 1 - number;
        Some(self.high[at].row(self.size - self.high_ends[at]))
    }

    fn z_alloc(&mut self, size: u64) -> Result<Place, ZoneError> {
        let asked = zone_need(size);
        let Some(at) = self.zone.chosen(asked) else {
            return Err(ZoneError::Full { asked });
        };
        Ok(self.zone.take(at, asked as u32)?)
    }

    fn z_free(&mut self, place: Place) -> Result<(), FreeError> {
        let place = place.0;
        let Some(at) = self.zone.position_of(place) else {
            return Err(FreeError::NotZone { place });
        };
        if !self.zone.cell(at).is_used() {
            return Err(FreeError::AlreadyFree { place });
        }
        self.zone.free(at);
        Ok(())
    }

    fn zone_bytes(&self, place: Place) -> &[u8] {
        self.zone.bytes(place.0)
    }

    fn zone_bytes_mut(&mut self, place: Place) -> &mut [u8] {
        self.zone.bytes_mut(place.0)
    }

    fn zone_row(&self, number: u32) -> Option<BlockRow> {
        self.zone.row(number as usize)
    }

    fn rover(&self) -> u32 {
        self.zone.rover_place()
    }

    fn cache_alloc(&mut self, user: u32, size: u64, name: &[u8]) -> Result<(), CacheError> {
        let need = self.block_need(user, size)?;
        let cell = CacheCell::zeroed(self.alloc, need, user, name)?;
        let top = self.size - self.high_used;
        self.cache.add(self.low_used, top, cell)?;
        Ok(())
    }

    fn check(&mut self, user: u32) -> Option<Place> {
        let place = self.peek_place(user)?;
        self.cache.touch(user);
        Some(place)
    }

    fn peek(&self, user: u32) -> Option<&[u8]> {
        match self.cache.cell_of(user) {
            Some(cell) => Some(cell.bytes()),
            None => None,
        }
    }

    fn peek_place(&self, user: u32) -> Option<Place> {
        self.cache.peek_place(user)
    }

    fn build_cache<B: Builder>(&mut self, user: u32, len: usize, builder: &B) {
        let source = newest_front(&self.high, len);
        build_front(self.cache.bytes_mut(user), source, builder);
    }

    fn copy_low_to_cache(&mut self, place: Place, user: u32, size: u32) {
        let at = self.low_position(place.0);
        copy_front(
            self.cache.bytes_mut(user),
            &self.low[at].bytes()[..size as usize],
        );
    }

    fn move_low_to_cache(
        &mut self,
        mark: u32,
        user: u32,
        size: u32,
        name: &[u8],
    ) -> Result<(), CacheError> {
        let bottom = self.low_used;
        let top = self.size - self.high_used;
        let need = self.block_need(user, u64::from(size));
        let mut bytes = self.take_low(mark);
        bytes.truncate(size as usize);
        let cell = CacheCell::filled(self.alloc, need?, user, name, bytes)?;
        self.cache.add(bottom, top, cell)?;
        Ok(())
    }

    fn cache_free(&mut self, user: u32) -> bool {
        self.cache.free(user)
    }

    fn flush(&mut self) {
        self.cache.flush();
    }

    fn cache_row(&self, number: u32) -> Option<BlockRow> {
        self.cache.row(number as usize)
    }

    fn lru_user(&self, number: u32) -> Option<u32> {
        self.cache.user(number as usize)
    }

    fn size(&self) -> u32 {
        self.size
    }

    fn room(&self) -> u32 {
        self.size - self.high_used - self.low_used
    }

    ghost low_writes = { λ s place bytes. refl };

    ghost high_writes = { λ s place bytes. refl };

    ghost temp_writes = { λ s bytes. refl };

    ghost zone_writes = { λ s place bytes. refl };
}
