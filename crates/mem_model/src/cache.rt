//! The cache of a plain store: blocks in rising order of place, and their users by use.

ghost use Rattle.std.specs.Prelude.{◌≡◌, ◌+◌, ◌-◌, ◌^◌, ◌<◌, ◌≤◌, ◌∷◌, [], length, slice_get, slice_index_or, drop, vec_len, vec_capacity};
ghost use Rattle.std.specs.Prelude.{ℕ, List, map, is_some, IfOk, OnOk, OnErr, IfSome, IsSome, Some, None, MatchOption};
ghost use Rattle.std.specs.List.{AllByRecursion, insert, remove};
ghost use Rattle.std.specs.Borrow.{sem, Lends, u8 as byte, Array};
ghost use Rattle.mem_model.specs.Blocks.{CacheBlock};
ghost use Rattle.mem_model.specs.Cache.{without_user, without, moved, lowest_below, pushed_up, highest_above, pushed_down, block_of, find_block, with_fitted, touched, peek_place, peek_bytes};
ghost use Rattle.mem_model.specs.Images.{with_user_bytes};
ghost use Rattle.mem_model.specs.Rows.{cache_row};
ghost use Rattle.mem_model.specs.Told.{row_answer, place_answer};
ghost use Rattle.mem_model.specs.Laid.{AreBetween, IsCache, IsCacheBlock};
ghost use Rattle.mem_model.specs.Memory.{cache_of};
ghost use Rattle.mem_model.specs.Gaps.{gap_from, IsGap, HasSize, start_of, size_of_cache};
ghost use Rattle.mem_model.specs.Tables.{IsTable, IsOwn};
ghost use Rattle.mem_model.specs.Turns.{IsMove, IsRise, IsFall, IsAround, IsEvicted, IsRoom, shifted, edge};
ghost use Rattle.mem_model.specs.contracts.cache.PlainCache.{the_row as cache_of_row};

use crate::answers::{BlockRow, Place};
use crate::cells::{CacheCell, insert_reserved};
use std::alloc::{AllocError, Global};
use std::marker::Model;

/// A place for a block, and the position at which it comes to stand.
#[derive(Clone, Copy)]
pub struct Gap {
    at: usize,
    place: u32,
}

// The first gap of `size` bytes, from `start` on.
fn first_gap(cells: &[CacheCell], start: u32, size: u32, top: u32) -> Option<Gap>
    requires sized { AllByRecursion HasSize cells.now }
    requires between { AreBetween start top cells.now }
    requires small { (size ≤ 2 ^ 26) × (top ≤ 2 ^ 26) }
    requires some { 0 < size }
    ensures { MatchOption result (gap_from start size top cells.now ≡ None)
        (λ gap. IsGap cells.now start size top gap.at gap.place) }
{
    let mut place = start;
    for at in 0..cells.len() {
        let cell = &cells[at];
        if place + size <= cell.place() {
            return Some(Gap { at, place });
        }
        place = cell.end();
    }
    if place + size <= top {
        Some(Gap {
            at: cells.len(),
            place,
        })
    } else {
        None
    }
}

// Moves a block to a place, where it comes to stand at position `to` among the others.
fn shift(cells: &mut Vec<CacheCell>, from: usize, to: usize, place: u32)
    requires from { from < vec_len cells.old }
    requires to { to < vec_len cells.old }
    ensures { (b : CacheBlock) → slice_get cells.old.items from ≡ Some b →
        cells.new.items ≡ insert (remove cells.old.items from) to (record b { place = place }) }
{
    let mut cell = cells.remove(from);
    cell.set_place(place);
    insert_reserved(cells, to, cell);
}

// A user that is no longer used.
fn forget(recency: &mut Vec<u32>, user: u32)
    ensures { recency.new.items ≡ without_user recency.old.items user }
{
    recency.retain(|other| *other != user);
}

// The user, which is in use, becomes the most recently used.
fn touch(recency: &mut [u32], user: u32)
    ensures { recency.new ≡ shifted user user recency.old }
{
    let mut carried = user;
    for i in 0..recency.len() {
        let here = recency[i];
        recency[i] = carried;
        if here == user {
            return;
        }
        carried = here;
    }
}

// Where a user's block stands, by the table of places.
fn place_in(places: &[Option<u32>], user: u32) -> Option<u32>
    ensures { result ≡ slice_index_or places.now user None }
{
    match places.get(user as usize) {
        Some(place) => *place,
        None => None,
    }
}

// The position of a user's block: the first that doesn't start below its place.
fn position_of(cells: &[CacheCell], places: &[Option<u32>], user: u32) -> Option<usize>
    requires sized { AllByRecursion HasSize cells.now }
    requires between { AreBetween 0 (2 ^ 26) cells.now }
    requires places { IsTable places.now cells.now }
    ensures { MatchOption result (find_block user cells.now ≡ None) (λ at. IsOwn cells.now user at) }
{
    let place = place_in(places, user)?;
    Some(cells.partition_point(|cell| cell.place() < place))
}

// The table has an entry for the user, and more entries say nothing new.
fn reach(places: &mut Vec<Option<u32>>, user: u32) -> Result<(), AllocError>
    ensures reached { OnOk result (user < length places.new.items) }
    ensures same { (u : ℕ) → slice_index_or places.new.items u None ≡ slice_index_or places.old.items u None }
{
    let count = user as usize + 1;
    if places.len() < count {
        places.resize(count, None)?;
    }
    Ok(())
}

// Where the first of some blocks starts, or the top.
fn start_of(cells: &[CacheCell], top: u32) -> u32
    ensures { result ≡ start_of top cells.now }
{
    match cells.first() {
        Some(first) => first.place(),
        None => top,
    }
}

// Where the block before a position ends, or `start` before the first.
fn end_before(cells: &[CacheCell], at: usize, start: u32, top: u32) -> u32
    requires inside { at ≤ length cells.now }
    requires between { AreBetween start top cells.now }
    requires small { top ≤ 2 ^ 26 }
    ensures { result ≡ edge start cells.now at }
{
    if at == 0 {
        return start;
    }
    cells[at - 1].end()
}

// Where the block at a position starts, or the top behind the last.
fn start_at(cells: &[CacheCell], at: usize, top: u32) -> u32
    ensures { result ≡ start_of top (drop at cells.now) }
{
    if at < cells.len() {
        return cells[at].place();
    }
    top
}

// The gap at a position, where a block has left.
fn gap_around(cells: &[CacheCell], at: usize, start: u32, size: u32, top: u32) -> Option<Gap>
    requires inside { at ≤ length cells.now }
    requires between { AreBetween start top cells.now }
    requires small { (size ≤ 2 ^ 26) × (top ≤ 2 ^ 26) }
    requires around { IsAround cells.now start size top at }
    ensures { MatchOption result (gap_from start size top cells.now ≡ None)
        (λ gap. IsGap cells.now start size top gap.at gap.place) }
{
    let place = end_before(cells, at, start, top);
    if place + size > start_at(cells, at, top) {
        return None;
    }
    Some(Gap { at, place })
}

// The least recently used user leaves with its block. The gap where that was is told, if it is now large enough.
fn evict(
    cells: &mut Vec<CacheCell>,
    recency: &mut Vec<u32>,
    places: &mut [Option<u32>],
    used: &mut u32,
    bottom: u32,
    size: u32,
    top: u32,
) -> Option<Gap>
    requires order { IsCache (cache_of cells.old.items recency.old.items) (2 ^ 32) bottom top }
    requires places { IsTable places.old cells.old.items }
    requires used { used.old ≡ size_of_cache cells.old.items }
    requires small { (size ≤ 2 ^ 26) × (top ≤ 2 ^ 26) }
    requires fits { (0 < size) × (bottom + size ≤ top) }
    requires full { gap_from bottom size top cells.old.items ≡ None }
    ensures gap { MatchOption result (gap_from bottom size top cells.new.items ≡ None)
        (λ gap. IsGap cells.new.items bottom size top gap.at gap.place) }
    ensures evicted { IsEvicted bottom top size (cache_of cells.old.items recency.old.items)
        (cache_of cells.new.items recency.new.items) }
    ensures places { IsTable places.new cells.new.items }
    ensures used { used.new ≡ size_of_cache cells.new.items }
    ensures cells { (vec_capacity cells.new ≡ vec_capacity cells.old) × (vec_len cells.new ≤ vec_len cells.old) }
    ensures recency { (vec_capacity recency.new ≡ vec_capacity recency.old)
        × (vec_len recency.new ≤ vec_len recency.old) }
{
    let Some(user) = recency.pop() else {
        unreachable!()
    };
    let Some(at) = position_of(cells, places, user) else {
        unreachable!()
    };
    let cell = cells.remove(at);
    places[user as usize] = None;
    *used -= cell.size();
    gap_around(cells, at, bottom, size, top)
}

// A gap that is there without an eviction.
fn fit(cells: &[CacheCell], used: u32, bottom: u32, size: u32, top: u32) -> Option<Gap>
    requires sized { AllByRecursion HasSize cells.now }
    requires between { AreBetween bottom top cells.now }
    requires used { used ≡ size_of_cache cells.now }
    requires small { (size ≤ 2 ^ 26) × (top ≤ 2 ^ 26) }
    requires some { 0 < size }
    ensures { MatchOption result (gap_from bottom size top cells.now ≡ None)
        (λ gap. IsGap cells.now bottom size top gap.at gap.place) }
{
    if bottom + size + used > top {
        return None;
    }
    first_gap(cells, bottom, size, top)
}

// A gap, for which as few of the least recently used leave as have to.
fn make_room(
    cells: &mut Vec<CacheCell>,
    recency: &mut Vec<u32>,
    places: &mut [Option<u32>],
    used: &mut u32,
    bottom: u32,
    size: u32,
    top: u32,
) -> Gap
    requires order { IsCache (cache_of cells.old.items recency.old.items) (2 ^ 32) bottom top }
    requires places { IsTable places.old cells.old.items }
    requires used { used.old ≡ size_of_cache cells.old.items }
    requires small { (size ≤ 2 ^ 26) × (top ≤ 2 ^ 26) }
    requires fits { (0 < size) × (bottom + size ≤ top) }
    requires cells { vec_len cells.old < vec_capacity cells.old }
    requires recency { vec_len recency.old < vec_capacity recency.old }
    ensures gap { IsGap cells.new.items bottom size top result.at result.place }
    ensures room { IsRoom bottom top size (cache_of cells.old.items recency.old.items)
        (cache_of cells.new.items recency.new.items) }
    ensures places { IsTable places.new cells.new.items }
    ensures used { used.new ≡ size_of_cache cells.new.items }
    ensures cells { vec_len cells.new < vec_capacity cells.new }
    ensures recency { vec_len recency.new < vec_capacity recency.new }
{
    let mut gap = fit(cells, *used, bottom, size, top);
    loop {
        match gap {
            Some(found) => return found,
            None => gap = evict(cells, recency, places, used, bottom, size, top),
        }
    }
}

/// The blocks of a cache, and their users by use.
#[derive(Drop)]
pub struct PlainCache {
    cells: Vec<CacheCell>,
    recency: Vec<u32>,
    // Where each user's block stands, by user, so that it is found without a walk over the others. Users that never had
    // a block may lie past the end.
    places: Vec<Option<u32>>,
    // The sizes of the blocks, added up, so that a search that must fail is not begun.
    used: u32,
}

impl Model for PlainCache {
    ghost use Rattle.mem_model.specs.Memory.{Cache};

    ghost Value = { Cache };

    ghost use Rattle.mem_model.specs.CacheState.{cache_in, IsPlainCache};

    ghost view = { cache_in };

    ghost invariant = { IsPlainCache };
}

impl PlainCache {
    /// An empty cache.
    pub fn create(alloc: Global) -> PlainCache
        ensures { result ≡ record { blocks = []; recency = [] } }
    {
        PlainCache {
            cells: Vec::new(alloc),
            recency: Vec::new(alloc),
            places: Vec::new(alloc),
            used: 0,
        }
    }

    // The block at a position leaves with its user.
    fn leave(&mut self, at: usize)
        requires { at < length self.old.blocks }
        ensures { (b : CacheBlock) → slice_get self.old.blocks at ≡ Some b → self.new ≡ without self.old b.user }
    {
        let cell = self.cells.remove(at);
        self.used -= cell.size();
        forget(&mut self.recency, cell.user());
        self.places[cell.user() as usize] = None;
    }

    // The block at a position moves, and its user becomes the most recently used.
    fn hop(&mut self, from: usize, gap: Gap)
        requires from { from < length self.old.blocks }
        requires moves { (b : CacheBlock) → slice_get self.old.blocks from ≡ Some b →
            IsMove self.old.blocks b gap.at gap.place }
        ensures { (b : CacheBlock) → slice_get self.old.blocks from ≡ Some b →
            self.new ≡ moved self.old b gap.place }
    {
        let mover = self.cells[from].user();
        touch(&mut self.recency, mover);
        shift(&mut self.cells, from, gap.at, gap.place);
        self.places[mover as usize] = Some(gap.place);
    }

    // Whether the lowest block starts below a place.
    fn starts_below(&self, bottom: u32) -> bool
        ensures { result ≡ is_some (lowest_below bottom self.now.blocks) }
    {
        match self.cells.first() {
            Some(first) => first.place() < bottom,
            None => false,
        }
    }

    // Where the lowest block goes, which starts below the bottom: as far as all its hops inside the gap behind it bring
    // it, where that is far enough, or else to a later gap. None where it has to leave.
    fn rise(&self, bottom: u32, top: u32) -> Option<Gap>
        requires below { IsSome (lowest_below bottom self.now.blocks) }
        requires between { AreBetween 0 top self.now.blocks }
        requires bounds { (bottom ≤ top) × (top ≤ 2 ^ 26) }
        ensures { (b : CacheBlock) (bs : List CacheBlock) → self.now.blocks ≡ b ∷ bs →
            MatchOption result (IsRise bottom top self.now (without self.now b.user))
            (λ gap. IsMove self.now.blocks b gap.at gap.place
            × IsRise bottom top self.now (moved self.now b gap.place)) }
    {
        let (first, rest) = self.cells.split_first()?;
        let start = first.place();
        let size = first.size();
        let limit = start_of(rest, top);
        let hops = (bottom - start - 1) / size + 1;
        let place = start + hops * size;
        if place + size <= limit {
            return Some(Gap { at: 0, place });
        }
        if limit + self.used > top {
            return None;
        }
        first_gap(rest, limit, size, top)
    }

    /// The cache is pushed up to where no block starts below `bottom`. Each block that does hops upwards, or leaves where
    /// it has no place to hop to.
    pub fn push_up(&mut self, bottom: u32, top: u32)
        requires between { AreBetween 0 top self.old.blocks }
        requires bounds { (bottom ≤ top) × (top ≤ 2 ^ 26) }
        ensures { self.new ≡ pushed_up self.old bottom top }
    {
        while self.starts_below(bottom) {
            match self.rise(bottom, top) {
                Some(gap) => self.hop(0, gap),
                None => self.leave(0),
            }
        }
    }

    // Whether the highest block ends above a place.
    fn ends_above(&self, top: u32) -> bool
        ensures { result ≡ is_some (highest_above top self.now.blocks) }
    {
        match self.cells.split_last() {
            Some((last, _)) => last.end() > top,
            None => false,
        }
    }

    // Where the highest block goes, which ends above the top: to the first gap below it. None where it has to leave.
    fn fall(&self, top: u32) -> Option<Gap>
        requires above { IsSome (highest_above top self.now.blocks) }
        requires small { top ≤ 2 ^ 26 }
        ensures { (b : CacheBlock) → highest_above top self.now.blocks ≡ Some b →
            MatchOption result (IsFall top self.now (without self.now b.user))
            (λ gap. IsMove self.now.blocks b gap.at gap.place × IsFall top self.now (moved self.now b gap.place)) }
    {
        let (last, front) = self.cells.split_last()?;
        let (first, middle) = front.split_first()?;
        if first.place() + self.used > last.place() {
            return None;
        }
        let gap = first_gap(middle, first.end(), last.size(), last.place())?;
        Some(Gap {
            at: gap.at + 1,
            place: gap.place,
        })
    }

    // The position of the highest block.
    fn last(&self) -> usize
        requires { 0 < length self.now.blocks }
        ensures { result + 1 ≡ length self.now.blocks }
    {
        self.cells.len() - 1
    }

    /// The cache is pushed down to where no block ends above `top`. Each block that does hops downwards, or leaves where
    /// it has no place to hop to.
    pub fn push_down(&mut self, top: u32)
        requires small { top ≤ 2 ^ 26 }
        ensures { (size : ℕ) → AreBetween 0 size self.old.blocks → top ≤ size →
            self.new ≡ pushed_down self.old size top }
    {
        while self.ends_above(top) {
            let last = self.last();
            match self.fall(top) {
                Some(gap) => self.hop(last, gap),
                None => self.leave(last),
            }
        }
    }

    /// The block of a user that has none comes to stand at the first gap that is large enough. Where there is none, as few
    /// of the least recently used leave as have to.
    ///
    /// Want of memory changes nothing.
    pub fn add(&mut self, bottom: u32, top: u32, cell: CacheCell) -> Result<(), AllocError>
        requires between { AreBetween bottom top self.old.blocks }
        requires small { top ≤ 2 ^ 26 }
        requires block { IsCacheBlock (2 ^ 32) cell }
        requires fits { bottom + cell.size ≤ top }
        requires free { block_of self.old cell.user ≡ None }
        ensures ok { OnOk result (self.new ≡ with_fitted self.old bottom top cell) }
        ensures err { OnErr result (self.new ≡ self.old) }
    {
        let user = cell.user();
        let size = cell.size();
        let mut cell = cell;
        self.cells.reserve(1)?;
        self.recency.reserve(1)?;
        reach(&mut self.places, user)?;
        let gap = make_room(
            &mut self.cells,
            &mut self.recency,
            &mut self.places,
            &mut self.used,
            bottom,
            size,
            top,
        );
        cell.set_place(gap.place);
        insert_reserved(&mut self.cells, gap.at, cell);
        insert_reserved(&mut self.recency, 0, user);
        self.places[user as usize] = Some(gap.place);
        self.used += size;
        Ok(())
    }

    /// The block of a user, where it has one.
    pub fn cell_of(&self, user: u32) -> Option<&CacheCell>
        ensures { MatchOption result (block_of self.now user ≡ None) (λ cell. block_of self.now user ≡ Some cell.now) }
    {
        match position_of(&self.cells, &self.places, user) {
            Some(at) => Some(&self.cells[at]),
            None => None,
        }
    }

    // The position of the block of a user that has one.
    fn own_position(&self, user: u32) -> usize
        requires { IsSome (block_of self.now user) }
        ensures { IsOwn self.now.blocks user result }
    {
        match position_of(&self.cells, &self.places, user) {
            Some(at) => at,
            None => unreachable!(),
        }
    }

    /// The bytes of the block of a user that has one, to be written.
    pub fn bytes_mut(&mut self, user: u32) -> &mut [u8]
        requires { IsSome (block_of self.old user) }
        ensures* writes_back { sem 𝓛 (Lends cache_of_row (Array byte 0) self.entry result
            (with_user_bytes self.old user)) }
        ensures shows { peek_bytes self.old user ≡ Some result.now }
    {
        let at = self.own_position(user);
        self.cells[at].bytes_mut()
    }

    /// Whether a user has a block.
    pub fn has(&self, user: u32) -> bool
        ensures { result ≡ is_some (block_of self.now user) }
    {
        place_in(&self.places, user).is_some()
    }

    /// The place of the payload of a user's block, where it has one.
    pub fn peek_place(&self, user: u32) -> Option<Place>
        ensures { place_answer result ≡ peek_place self.now user }
    {
        match place_in(&self.places, user) {
            Some(place) => Some(Place(place + 40)),
            None => None,
        }
    }

    /// A user that has a block becomes the most recently used.
    pub fn touch(&mut self, user: u32)
        requires { IsSome (block_of self.old user) }
        ensures { self.new ≡ touched self.old user }
    {
        touch(&mut self.recency, user);
    }

    /// A user's block leaves, where it has one, and whether it had is told.
    pub fn free(&mut self, user: u32) -> bool
        ensures had { result ≡ is_some (block_of self.old user) }
        ensures left { self.new ≡ without self.old user }
    {
        match position_of(&self.cells, &self.places, user) {
            Some(at) => {
                self.leave(at);
                true
            }
            None => false,
        }
    }

    /// Every block leaves.
    pub fn flush(&mut self)
        ensures { self.new ≡ record { blocks = []; recency = [] } }
    {
        self.cells.clear();
        self.recency.clear();
        self.places.clear();
        self.used = 0;
    }

    /// The row of the block at a position.
    pub fn row(&self, at: usize) -> Option<BlockRow>
        ensures { row_answer result ≡ slice_get (map cache_row self.now.blocks) at }
    {
        if at >= self.cells.len() {
            return None;
        }
        Some(self.cells[at].row())
    }

    /// The user at a position, the most recently used first.
    pub fn user(&self, at: usize) -> Option<u32>
        ensures { result ≡ slice_get self.now.recency at }
    {
        self.recency.get(at).copied()
    }
}
