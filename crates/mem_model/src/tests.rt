//! What no clause says: that calls succeed, and numbers from outside.
//!
//! A function over any store `M` is a test that every store has to pass. The tests at the top run each on a plain store.

ghost use Rattle.std.specs.Prelude.{◌≡◌, ◌≢◌, ◌≤◌, ◌<◌, ◌^◌, ℕ, List, [], ◌∷◌, length, true, IfOk, IfSome, IsSome, OnSome, Ok, Some, None};
ghost use Rattle.mem_model.specs.Memory.{new_memory};
ghost use Rattle.mem_model.specs.Keeps.{AreLow, Keeps};
ghost use Rattle.mem_model.specs.Cache.{peek_bytes};
ghost use Rattle.mem_model.specs.Hunk.{lasting_bytes, low_bytes, temp_bytes};
ghost use Rattle.mem_model.specs.Zone.{zone_bytes};
ghost use Rattle.mem_model.specs.Images.{HasBytes, front_of};

use crate::{
    BadMark, BlockRow, Builder, CacheError, FreeError, Place, PlainStore, RoomError, Store,
    StoreStart, ZoneError,
};
use std::alloc::Global;
use std::process::Abort;
use std::test::Fail;

// A plain store of the size that most tests ask for.
fn plain(alloc: Global) -> Result<PlainStore, StoreStart>
    ensures { IfOk result (λ store. store ≡ new_memory 65536 49152 8 0) }
{
    PlainStore::create(alloc, 65_536, 49_152, 8)
}

#[test]
fn a_store_holds_its_zone(rt: HostRuntime) -> Result<(), Fail> {
    let small = PlainStore::create(rt.alloc(), 4096, 4096, 8);
    assert!(rt; matches!(small, Err(StoreStart::TooSmall)));
    let full = PlainStore::create(rt.alloc(), 4112, 4096, 8)?;
    assert_eq!(rt;
        (full.size(), full.low_mark(), full.room()),
        (4112, 4112, 0)
    );
    Ok(())
}

#[test]
fn low_blocks_of_a_plain_store(rt: HostRuntime) -> Result<(), Fail> {
    low_blocks_fill_the_room(&rt, PlainStore::create(rt.alloc(), 1_048_576, 49_152, 768)?);
    the_low_hunk_is_freed_to_marks(&rt, plain(rt.alloc())?)?;
    low_blocks_keep_what_is_written(&rt, plain(rt.alloc())?)
}

#[test]
fn high_blocks_of_a_plain_store(rt: HostRuntime) -> Result<(), Fail> {
    high_blocks_keep_what_is_written(&rt, plain(rt.alloc())?)?;
    the_high_hunk_has_one_temporary_block(&rt, plain(rt.alloc())?)?;
    rows_go_upwards(&rt, plain(rt.alloc())?)
}

#[test]
fn zone_blocks_of_a_plain_store(rt: HostRuntime) -> Result<(), Fail> {
    a_zone_block_takes_a_small_rest(&rt, plain(rt.alloc())?);
    a_zone_block_leaves_a_large_rest(&rt, plain(rt.alloc())?);
    freed_zone_blocks_are_joined(&rt, plain(rt.alloc())?);
    zone_blocks_keep_what_is_written(&rt, plain(rt.alloc())?)
}

#[test]
fn cache_blocks_of_a_plain_store(rt: HostRuntime) -> Result<(), Fail> {
    cache_blocks_hop_up(&rt, plain(rt.alloc())?)?;
    cache_blocks_hop_down(&rt, plain(rt.alloc())?);
    a_cache_block_without_a_gap_leaves(&rt, plain(rt.alloc())?);
    the_cache_refuses_and_evicts(&rt, plain(rt.alloc())?)?;
    images_come_to_the_front_of_blocks(&rt, plain(rt.alloc())?)?;
    an_image_goes_through_the_low_hunk(&rt, plain(rt.alloc())?)?;
    an_image_is_moved_to_the_cache(&rt, plain(rt.alloc())?)?;
    a_refused_image_leaves_the_low_hunk(&rt, plain(rt.alloc())?)
}

#[test]
fn blocks_of_a_plain_store_stay_whole(rt: HostRuntime) -> Result<(), Fail> {
    let mut store = plain(rt.alloc())?;
    fill(&rt, &mut store, &[56, 216, 56]);
    stir_all(&mut store, 1);
    assert_eq!(rt; store.peek(2), Some([0; 56].as_slice()));
    let mut other = plain(rt.alloc())?;
    stir_cache(&mut other, 0);
    assert_eq!(rt; other.lru_user(0), None);
    Ok(())
}

fn low_blocks_fill_the_room<M: Store>(rt: &impl Abort, mut store: M) {
    let no_room = |asked, room| Err(RoomError::NoRoom { asked, room });
    for (size, answer, mark) in [
        (1_000_000, no_room(1_000_016, 999_408), 49_168),
        (999_392, Ok(Place(49_184)), 1_048_576),
        (0, no_room(16, 0), 1_048_576),
    ] {
        assert_eq!(rt; store.low_alloc(size, b"big"), answer, "at {size}");
        assert_eq!(rt; store.low_mark(), mark, "at {size}");
    }
}

fn the_low_hunk_is_freed_to_marks<M: Store>(rt: &impl Abort, mut store: M) -> Result<(), Fail> {
    store.low_alloc(100, b"first")?;
    store.low_alloc(32, b"second")?;
    for (mark, answer, end) in [
        (0, Err(BadMark { mark: 0 }), 49_344),
        (49_152, Err(BadMark { mark: 49_152 }), 49_344),
        (49_336, Err(BadMark { mark: 49_336 }), 49_344),
        (49_360, Err(BadMark { mark: 49_360 }), 49_344),
        (49_344, Ok(()), 49_344),
        (49_296, Ok(()), 49_296),
        (49_344, Err(BadMark { mark: 49_344 }), 49_296),
        (49_168, Ok(()), 49_168),
        (49_168, Ok(()), 49_168),
    ] {
        assert_eq!(rt; store.low_free(mark), answer, "at {mark}");
        assert_eq!(rt; store.low_mark(), end, "at {mark}");
    }
    Ok(())
}

// Puts a text into a new low block, and reads it back.
#[tactic(auto, using(crate::proofs::Laws::store_laws))]
fn reads_back<M: Store>(store: &mut M, text: &[u8]) -> Result<bool, RoomError>
    requires small { length text.now ≤ 2 ^ 20 }
{
    let place = store.low_alloc(text.len() as u64, b"a long name")?;
    put(store.low_bytes_mut(place), text);
    Ok(store.low_bytes(place).starts_with(text))
}

// Puts a text into a new low block, and gives the block back.
#[tactic(auto, using(crate::proofs::Laws::store_laws))]
fn gives_back<M: Store>(store: &mut M, text: &[u8]) -> Result<bool, RoomError>
    requires small { length text.now ≤ 2 ^ 20 }
    ensures { IfOk result (λ done. (done ≡ true) × ((M.state store.new).low ≡ (M.state store.old).low)) }
{
    let mark = store.low_mark();
    let place = store.low_alloc(text.len() as u64, b"brief")?;
    put(store.low_bytes_mut(place), text);
    Ok(store.low_free(mark).is_ok())
}

// Writes a text over the front of the bytes.
fn put(bytes: &mut [u8], text: &[u8])
    requires { length text.now ≤ length bytes.old }
{
    bytes[..text.len()].copy_from_slice(text);
}

#[tactic(auto, using(crate::proofs::Laws::store_laws))]
fn low_blocks_keep_what_is_written<M: Store>(rt: &impl Abort, mut store: M) -> Result<(), Fail> {
    assert!(rt; reads_back(&mut store, b"hello")?);
    assert!(rt; gives_back(&mut store, b"a longer text, of more than one line")?);
    assert_eq!(rt; (store.low_mark(), store.room()), (49_200, 16_336));
    let next = store.low_alloc(20, b"next")?;
    assert_eq!(rt; next, Place(49_216));
    assert_eq!(rt; store.low_bytes(next), [0; 32].as_slice());
    Ok(())
}

// Puts a text into a new temporary block, and reads it back.
#[tactic(auto, using(crate::proofs::Laws::store_laws))]
fn reads_back_high<M: Store>(store: &mut M, text: &[u8]) -> Result<bool, RoomError>
    requires small { length text.now ≤ 2 ^ 20 }
{
    store.temp_alloc(text.len() as u64)?;
    put(store.temp_bytes_mut(), text);
    match store.temp_bytes() {
        Some(bytes) => Ok(bytes.starts_with(text)),
        None => Ok(false),
    }
}

// Puts a text into a new high block, which lasts.
#[tactic(auto, using(crate::proofs::HighLaws::high_laws))]
fn puts_high<M: Store>(store: &mut M, text: &[u8]) -> Result<Place, RoomError>
    requires small { length text.now ≤ 2 ^ 20 }
    ensures { IfOk result (λ place. IsSome (lasting_bytes (M.state store.new) place.0)) }
{
    let place = store.high_alloc(text.len() as u64, b"video")?;
    put(store.high_bytes_mut(place), text);
    Ok(place)
}

// Reads it back behind a temporary block.
#[tactic(auto, using(crate::proofs::HighLaws::high_laws))]
fn reads_back_lasting<M: Store>(store: &mut M, text: &[u8]) -> Result<bool, RoomError>
    requires small { length text.now ≤ 2 ^ 20 }
{
    let place = puts_high(store, text)?;
    store.temp_alloc(100)?;
    Ok(store.high_bytes(place).starts_with(text))
}

fn high_blocks_keep_what_is_written<M: Store>(rt: &impl Abort, mut store: M) -> Result<(), Fail> {
    assert!(rt; reads_back_lasting(&mut store, b"pixels")?);
    assert!(rt; reads_back_lasting(&mut store, b"more pixels than a header has")?);
    Ok(())
}

fn the_high_hunk_has_one_temporary_block<M: Store>(
    rt: &impl Abort,
    mut store: M,
) -> Result<(), Fail> {
    assert!(rt; reads_back_high(&mut store, b"seventeen letters")?);
    assert_eq!(rt;
        (store.temp_alloc(16_000), store.temp_active()),
        (Ok(Place(49_536)), true)
    );
    assert_eq!(rt; (store.high_used(), store.room()), (16_016, 352));
    let large = store.high_alloc(16_000, b"video");
    assert_eq!(rt; (large, store.temp_active()), (Ok(Place(49_536)), false));
    assert!(rt; store.temp_bytes().is_none());
    let short = Err(RoomError::NoRoom {
        asked: 416,
        room: 352,
    });
    assert_eq!(rt; store.high_alloc(400, b"more"), short);
    assert_eq!(rt; store.temp_alloc(320), Ok(Place(49_200)));
    assert_eq!(rt;
        (store.temp_alloc(400), store.temp_active()),
        (short, false)
    );
    assert_eq!(rt; store.temp_alloc(16), Ok(Place(49_504)));
    assert_eq!(rt; (store.high_mark(), store.temp_active()), (16_016, false));
    for (mark, answer, used) in [
        (8, Err(BadMark { mark: 8 }), 16_016),
        (16_032, Err(BadMark { mark: 16_032 }), 16_016),
        (16_016, Ok(()), 16_016),
        (0, Ok(()), 0),
        (16_016, Err(BadMark { mark: 16_016 }), 0),
    ] {
        assert_eq!(rt; store.high_free(mark), answer, "at {mark}");
        assert_eq!(rt; store.high_used(), used, "at {mark}");
    }
    Ok(())
}

// The place, the size and the first letter of a row.
fn brief(row: Option<BlockRow>) -> Option<(u32, u32, u8)> {
    match row {
        Some(row) => Some((row.place, row.size, row.name[0])),
        None => None,
    }
}

fn rows_go_upwards<M: Store>(rt: &impl Abort, mut store: M) -> Result<(), Fail> {
    store.low_alloc(100, b"first")?;
    store.high_alloc(16, b"video")?;
    store.temp_alloc(1)?;
    for (number, low, high) in [
        (0, Some((0, 49_168, b'z')), Some((65_472, 32, b't'))),
        (1, Some((49_168, 128, b'f')), Some((65_504, 32, b'v'))),
        (2, None, None),
    ] {
        assert_eq!(rt; brief(store.low_row(number)), low, "low {number}");
        assert_eq!(rt; brief(store.high_row(number)), high, "high {number}");
    }
    Ok(())
}

// The place, the size and the use of a row of the zone.
fn brief_zone(row: Option<BlockRow>) -> Option<(u32, u32, bool)> {
    match row {
        Some(row) => Some((row.place, row.size, row.used)),
        None => None,
    }
}

fn a_zone_block_takes_a_small_rest<M: Store>(rt: &impl Abort, mut store: M) {
    assert_eq!(rt; store.z_alloc(49_028), Ok(Place(72)));
    assert_eq!(rt; brief_zone(store.zone_row(0)), Some((48, 49_120, true)));
    assert!(rt; store.zone_row(1).is_none());
    assert_eq!(rt; store.rover(), 20);
    assert_eq!(rt; store.z_alloc(1), Err(ZoneError::Full { asked: 32 }));
}

fn a_zone_block_leaves_a_large_rest<M: Store>(rt: &impl Abort, mut store: M) {
    assert_eq!(rt; store.z_alloc(49_020), Ok(Place(72)));
    assert_eq!(rt; brief_zone(store.zone_row(0)), Some((48, 49_048, true)));
    assert_eq!(rt; brief_zone(store.zone_row(1)), Some((49_096, 72, false)));
    assert_eq!(rt; store.rover(), 49_096);
    assert_eq!(rt; store.z_alloc(1), Ok(Place(49_120)));
}

fn freed_zone_blocks_are_joined<M: Store>(rt: &impl Abort, mut store: M) {
    for place in [72, 112, 152] {
        assert_eq!(rt; store.z_alloc(10), Ok(Place(place)));
    }
    let again = Err(FreeError::AlreadyFree { place: 72 });
    let nowhere = Err(FreeError::NotZone { place: 73 });
    for (place, answer, rover, first) in [
        (72, Ok(()), 168, 40),
        (152, Ok(()), 128, 40),
        (112, Ok(()), 48, 49_120),
        (72, again, 48, 49_120),
        (73, nowhere, 48, 49_120),
    ] {
        assert_eq!(rt; store.z_free(Place(place)), answer, "of {place}");
        assert_eq!(rt; store.rover(), rover, "of {place}");
        let row = brief_zone(store.zone_row(0));
        assert_eq!(rt; row, Some((48, first, false)), "of {place}");
    }
    assert!(rt; store.zone_row(1).is_none());
}

// Puts a text into a new block of the zone, and reads it back.
#[tactic(auto, using(crate::proofs::ZoneLaws::zone_laws))]
fn reads_back_zone<M: Store>(store: &mut M, text: &[u8]) -> Result<bool, ZoneError>
    requires small { length text.now ≤ 2 ^ 20 }
{
    let place = store.z_alloc(text.len() as u64)?;
    put(store.zone_bytes_mut(place), text);
    Ok(store.zone_bytes(place).starts_with(text))
}

fn zone_blocks_keep_what_is_written<M: Store>(rt: &impl Abort, mut store: M) -> Result<(), Fail> {
    assert!(rt; reads_back_zone(&mut store, b"hello")?);
    assert!(rt; reads_back_zone(&mut store, b"a longer text, of more than one line")?);
    assert_eq!(rt; store.rover(), 48 + 40 + 64);
    Ok(())
}

// The image of bytes is these twice.
#[derive(Drop)]
struct Doubled;

impl Builder for Doubled {
    type Fault = ();

    ghost use Rattle.std.specs.Prelude.{◌++◌, Ok};

    ghost image_of = { λ _ source. Ok (source ++ source) };

    fn size(&self, source: &[u8]) -> Result<u64, ()> {
        Ok(2 * source.len() as u64)
    }

    fn build(&self, source: &[u8], block: &mut [u8]) {
        let (front, back) = block.split_at_mut(source.len());
        front.copy_from_slice(source);
        back.copy_from_slice(source);
    }
}

// Builds the image of the first temporary bytes in a new low block.
#[tactic(auto, using(crate::proofs::Laws::store_laws, crate::proofs::Keeping::keeping_laws))]
fn builds_low<M: Store, B: Builder>(store: &mut M, len: usize, builder: &B) -> Option<Place>
    requires { HasBytes (temp_bytes (M.state store.old)) len }
    ensures built { IfSome result (λ place. (image : List ℕ) →
        B.image_of builder.now (front_of (temp_bytes (M.state store.old)) len) ≡ Ok image →
        front_of (low_bytes (M.state store.new) place.0) (length image) ≡ image) }
    ensures there { IfSome result (λ place. IsSome (low_bytes (M.state store.new) place.0)) }
    ensures kept { (lows : List ℕ) → AreLow (M.state store.old) lows →
        Keeps lows [] (M.state store.old) (M.state store.new) }
    ensures temp { temp_bytes (M.state store.new) ≡ temp_bytes (M.state store.old) }
{
    let source = store.temp_bytes()?;
    let size = builder.size(&source[..len]).ok()?;
    if size > 65_536 {
        return None;
    }
    let Ok(place) = store.low_alloc(size, b"image") else {
        return None;
    };
    store.build_low(place, len, builder);
    Some(place)
}

// Builds the image of the first temporary bytes in a user's block, where that has room for it.
#[tactic(auto, using(crate::proofs::CacheLaws::cache_laws, crate::proofs::Laws::store_laws))]
fn builds_cache<M: Store, B: Builder>(
    store: &mut M,
    user: u32,
    len: usize,
    builder: &B,
) -> Option<()>
    requires { HasBytes (temp_bytes (M.state store.old)) len }
    ensures built { OnSome result ((image : List ℕ) →
        B.image_of builder.now (front_of (temp_bytes (M.state store.old)) len) ≡ Ok image →
        front_of (peek_bytes (M.state store.new).cache user) (length image) ≡ image) }
    ensures others { (other : ℕ) → other ≢ user →
        peek_bytes (M.state store.new).cache other ≡ peek_bytes (M.state store.old).cache other }
    ensures low { (place : ℕ) → low_bytes (M.state store.new) place ≡ low_bytes (M.state store.old) place }
    ensures temp { temp_bytes (M.state store.new) ≡ temp_bytes (M.state store.old) }
{
    let source = store.temp_bytes()?;
    let size = builder.size(&source[..len]).ok()?;
    if (store.peek(user)?.len() as u64) < size {
        return None;
    }
    store.build_cache(user, len, builder);
    Some(())
}

// Builds the image of the first temporary bytes in a new low block, copies it to a new block of a user, and frees the low
// block.
#[tactic(auto, using(crate::proofs::CacheLaws::cache_laws, crate::proofs::Laws::store_laws))]
fn builds_through_low<M: Store, B: Builder>(
    store: &mut M,
    user: u32,
    len: usize,
    builder: &B,
) -> Option<()>
    requires source { HasBytes (temp_bytes (M.state store.old)) len }
    requires user { user < (M.state store.old).users }
    ensures kept { (lows : List ℕ) → AreLow (M.state store.old) lows →
        Keeps lows (user ∷ []) (M.state store.old) (M.state store.new) }
{
    let source = store.temp_bytes()?;
    let size = builder.size(&source[..len]).ok()?;
    if size > 65_536 {
        return None;
    }
    let mark = store.low_mark();
    let Ok(place) = store.low_alloc(size, b"image") else {
        return None;
    };
    store.build_low(place, len, builder);
    if store.cache_alloc(user, size, b"image").is_err() {
        let _ = store.low_free(mark);
        return None;
    }
    store.copy_low_to_cache(place, user, size as u32);
    let _ = store.low_free(mark);
    Some(())
}

// The same without a copy: the low block's bytes are moved.
#[tactic(auto, using(crate::proofs::CacheLaws::cache_laws, crate::proofs::Laws::store_laws))]
fn moves_through_low<M: Store, B: Builder>(
    store: &mut M,
    user: u32,
    len: usize,
    builder: &B,
) -> Option<()>
    requires source { HasBytes (temp_bytes (M.state store.old)) len }
    requires user { user < (M.state store.old).users }
    ensures kept { (lows : List ℕ) → AreLow (M.state store.old) lows →
        Keeps lows (user ∷ []) (M.state store.old) (M.state store.new) }
{
    let source = store.temp_bytes()?;
    let size = builder.size(&source[..len]).ok()?;
    if size > 65_536 {
        return None;
    }
    let mark = store.low_mark();
    let Ok(place) = store.low_alloc(size, b"image") else {
        return None;
    };
    store.build_low(place, len, builder);
    store
        .move_low_to_cache(mark, user, size as u32, b"image")
        .ok()
}

// Copies the first bytes of a low block to a user's block, where both have as many.
#[tactic(auto, using(crate::proofs::CacheLaws::cache_laws))]
fn copies<M: Store>(store: &mut M, place: Place, user: u32, size: u32) -> Option<()>
    requires { IsSome (low_bytes (M.state store.old) place.0) }
    ensures copied { OnSome result (front_of (peek_bytes (M.state store.new).cache user) size
        ≡ front_of (low_bytes (M.state store.old) place.0) size) }
    ensures others { (other : ℕ) → other ≢ user →
        peek_bytes (M.state store.new).cache other ≡ peek_bytes (M.state store.old).cache other }
    ensures low { (place : ℕ) → low_bytes (M.state store.new) place ≡ low_bytes (M.state store.old) place }
{
    let room = store.peek(user)?.len().min(store.low_bytes(place).len());
    if room < size as usize {
        return None;
    }
    store.copy_low_to_cache(place, user, size);
    Some(())
}

// Asks for a block of the cache of 8 users.
fn ask<M: Store>(store: &mut M, user: u32, size: u32) -> Result<(), CacheError>
    requires users { (M.state store.old).users ≡ 8 }
    requires user { user < 8 }
    ensures { (M.state store.new).users ≡ 8 }
{
    store.cache_alloc(user, u64::from(size), b"sound")
}

// Gives each user from 0 on a block of the next of these sizes.
fn fill<M: Store>(rt: &impl Abort, store: &mut M, sizes: &[u32])
    requires users { (M.state store.old).users ≡ 8 }
    requires few { length sizes.now ≤ 8 }
    ensures { (M.state store.new).users ≡ 8 }
{
    for user in 0..sizes.len() {
        assert_eq!(rt; ask(store, user as u32, sizes[user]), Ok(()), "of {user}");
    }
}

// The places and users of the cache's blocks are these, and so are the users by use.
fn assert_cache<M: Store>(rt: &impl Abort, store: &M, blocks: &[(u32, u32)], users: &[u32])
    requires { length blocks.now ≤ 8 }
{
    for number in 0..=blocks.len() {
        let row = match store.cache_row(number as u32) {
            Some(row) => Some((row.place, row.user)),
            None => None,
        };
        assert_eq!(rt; row, blocks.get(number).copied(), "block {number}");
        assert_eq!(rt;
            store.lru_user(number as u32),
            users.get(number).copied(),
            "user {number}"
        );
    }
}

fn cache_blocks_hop_up<M: Store>(rt: &impl Abort, mut store: M) -> Result<(), Fail>
    requires { (M.state store).users ≡ 8 }
{
    fill(rt, &mut store, &[56, 216, 56]);
    assert_cache(
        rt,
        &store,
        &[(49_168, 0), (49_264, 1), (49_520, 2)],
        &[2, 1, 0],
    );
    assert!(rt; store.cache_free(1));
    assert!(rt; !store.cache_free(1));
    store.low_alloc(192, b"map")?;
    assert_cache(rt, &store, &[(49_520, 2), (49_616, 0)], &[0, 2]);
    assert_eq!(rt; store.peek_place(0), Some(Place(49_656)));
    assert_eq!(rt; store.peek_place(1), None);
    Ok(())
}

fn cache_blocks_hop_down<M: Store>(rt: &impl Abort, mut store: M)
    requires { (M.state store).users ≡ 8 }
{
    fill(rt, &mut store, &[56, 216, 15_864, 56]);
    assert_eq!(rt; store.check(0), Some(Place(49_208)));
    assert!(rt; store.cache_free(1));
    assert_cache(
        rt,
        &store,
        &[(49_168, 0), (49_520, 2), (65_424, 3)],
        &[0, 3, 2],
    );
    assert_eq!(rt; store.high_alloc(16, b"video"), Ok(Place(65_520)));
    assert_cache(
        rt,
        &store,
        &[(49_168, 0), (49_264, 3), (49_520, 2)],
        &[3, 0, 2],
    );
    store.flush();
    assert_cache(rt, &store, &[], &[]);
}

fn a_cache_block_without_a_gap_leaves<M: Store>(rt: &impl Abort, mut store: M)
    requires { (M.state store).users ≡ 8 }
{
    fill(rt, &mut store, &[56, 15_960, 56]);
    assert!(rt; store.cache_free(1));
    assert_eq!(rt; store.high_alloc(16_208, b"video"), Ok(Place(49_328)));
    assert_cache(rt, &store, &[(49_168, 0)], &[0]);
}

#[tactic(auto, using(crate::proofs::CacheLaws::cache_laws))]
fn the_cache_refuses_and_evicts<M: Store>(rt: &impl Abort, mut store: M) -> Result<(), Fail>
    requires { (M.state store).users ≡ 8 }
{
    fill(rt, &mut store, &[56]);
    let no_room = CacheError::NoRoom {
        asked: 16_448,
        room: 16_368,
    };
    assert_eq!(rt; ask(&mut store, 1, 16_400), Err(no_room));
    assert_eq!(rt;
        ask(&mut store, 0, 0),
        Err(CacheError::Occupied { user: 0 })
    );
    assert_eq!(rt; ask(&mut store, 1, 0), Err(CacheError::BadSize));
    assert_cache(rt, &store, &[(49_168, 0)], &[0]);
    ask(&mut store, 1, 8_000)?;
    ask(&mut store, 2, 8_000)?;
    assert_eq!(rt; store.check(0), Some(Place(49_208)));
    ask(&mut store, 3, 8_000)?;
    assert_cache(
        rt,
        &store,
        &[(49_168, 0), (49_264, 3), (57_312, 2)],
        &[3, 0, 2],
    );
    assert_eq!(rt; store.peek(3), Some([0; 8_008].as_slice()));
    assert_eq!(rt; store.peek(1), None);
    Ok(())
}

#[tactic(auto, using(crate::proofs::Laws::store_laws))]
fn images_come_to_the_front_of_blocks<M: Store>(rt: &impl Abort, mut store: M) -> Result<(), Fail>
    requires { (M.state store).users ≡ 8 }
{
    fill(rt, &mut store, &[8, 8]);
    store.temp_alloc(16)?;
    put(store.temp_bytes_mut(), b"quake");
    let place = builds_low(&mut store, 5, &Doubled).expect(rt, "there is room");
    assert_eq!(rt;
        store.low_bytes(place),
        b"quakequake\0\0\0\0\0\0".as_slice()
    );
    assert_eq!(rt; builds_cache(&mut store, 0, 4, &Doubled), Some(()));
    assert_eq!(rt; builds_cache(&mut store, 0, 1, &Doubled), Some(()));
    assert_eq!(rt; builds_cache(&mut store, 0, 5, &Doubled), None);
    let built = *b"qqakquak";
    assert_eq!(rt; store.peek(0), Some(built.as_slice()));
    assert_eq!(rt; copies(&mut store, place, 1, 7), Some(()));
    assert_eq!(rt; copies(&mut store, place, 1, 9), None);
    let copied = *b"quakequ\0";
    assert_eq!(rt; store.peek(1), Some(copied.as_slice()));
    assert_cache(rt, &store, &[(49_216, 1), (49_264, 0)], &[0, 1]);
    Ok(())
}

#[tactic(auto, using(crate::proofs::CacheLaws::cache_laws, crate::proofs::Laws::store_laws))]
fn an_image_goes_through_the_low_hunk<M: Store>(rt: &impl Abort, mut store: M) -> Result<(), Fail>
    requires { (M.state store).users ≡ 8 }
{
    store.temp_alloc(16)?;
    put(store.temp_bytes_mut(), b"quake");
    assert_eq!(rt; builds_through_low(&mut store, 2, 3, &Doubled), Some(()));
    let copied = *b"quaqua\0\0";
    assert_eq!(rt; store.peek(2), Some(copied.as_slice()));
    assert_eq!(rt; (store.low_mark(), store.temp_active()), (49_168, true));
    Ok(())
}

#[tactic(auto, using(crate::proofs::CacheLaws::cache_laws, crate::proofs::Laws::store_laws))]
fn an_image_is_moved_to_the_cache<M: Store>(rt: &impl Abort, mut store: M) -> Result<(), Fail>
    requires { (M.state store).users ≡ 8 }
{
    store.temp_alloc(16)?;
    put(store.temp_bytes_mut(), b"quake");
    assert_eq!(rt; moves_through_low(&mut store, 2, 5, &Doubled), Some(()));
    let moved = *b"quakequake\0\0\0\0\0\0\0\0\0\0\0\0\0\0";
    assert_eq!(rt; store.peek(2), Some(moved.as_slice()));
    assert_cache(rt, &store, &[(49_200, 2)], &[2]);
    assert_eq!(rt; (store.low_mark(), store.temp_active()), (49_168, true));
    Ok(())
}

#[tactic(auto, using(crate::proofs::CacheLaws::cache_laws, crate::proofs::Laws::store_laws))]
fn a_refused_image_leaves_the_low_hunk<M: Store>(rt: &impl Abort, mut store: M) -> Result<(), Fail>
    requires { (M.state store).users ≡ 8 }
{
    fill(rt, &mut store, &[8]);
    store.temp_alloc(16)?;
    put(store.temp_bytes_mut(), b"quake");
    assert_eq!(rt; moves_through_low(&mut store, 0, 5, &Doubled), None);
    assert_eq!(rt; store.peek(0), Some([0; 8].as_slice()));
    assert_eq!(rt; (store.low_mark(), store.temp_active()), (49_168, true));
    Ok(())
}

// Calls of every part, which may move each block of the cache and free it. One that is still there holds what it held.
fn stir_all<M: Store>(store: &mut M, user: u32)
    ensures kept { (lows : List ℕ) → Keeps lows [] (M.state store.old) (M.state store.new) }
    ensures bytes { (other : ℕ) (bytes : List ℕ) → peek_bytes (M.state store.new).cache other ≡ Some bytes →
        peek_bytes (M.state store.old).cache other ≡ Some bytes }
{
    let _ = store.low_alloc(192, b"map");
    let _ = store.high_alloc(16, b"video");
    let _ = store.temp_alloc(32);
    let _ = store.z_alloc(10);
    store.check(user);
    store.cache_free(user);
}

// Calls of the cache, which leave the bytes of all other parts.
fn stir_cache<M: Store>(store: &mut M, user: u32)
    requires { user < (M.state store.old).users }
    ensures low { (place : ℕ) → low_bytes (M.state store.new) place ≡ low_bytes (M.state store.old) place }
    ensures temp { temp_bytes (M.state store.new) ≡ temp_bytes (M.state store.old) }
    ensures zone { (place : ℕ) → zone_bytes (M.state store.new) place ≡ zone_bytes (M.state store.old) place }
{
    let _ = store.cache_alloc(user, 64, b"sound");
    store.check(user);
    store.cache_free(user);
    store.flush();
}
