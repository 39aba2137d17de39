//! One arena with a low hunk, a high hunk, a zone and a cache.

ghost use Rattle.std.specs.Prelude.{◌≡◌, ℕ, ◌+◌, ◌<◌, ◌≤◌, ◌^◌, List, Bool, Some, None, IsSome, is_some, MatchOption, IsOkAnd, length, slice_get};
ghost use Rattle.std.specs.Borrow.{sem, Lends, u8 as byte, Array};
ghost use Rattle.mem_model.specs.Memory.{Memory, low_used, high_used, room};
ghost use Rattle.mem_model.specs.Answer.{Answers, Gives};
ghost use Rattle.mem_model.specs.Told.{room_answer, zone_answer, cache_answer, place_answer, free_answer, mark_answer, row_answer};
ghost use Rattle.mem_model.specs.Rows.{low_rows, high_rows, zone_rows, cache_rows};
ghost use Rattle.mem_model.specs.Operations.{low_alloc, low_free, high_alloc, high_mark, high_free, temp_alloc, z_alloc, z_free, cache_alloc, check, cache_free, flush};
ghost use Rattle.mem_model.specs.Operations.{build_low, build_cache, copy_low_to_cache, move_low_to_cache};
ghost use Rattle.mem_model.specs.Images.{HasBytes, front_of};
ghost use Rattle.mem_model.specs.Cache.{peek_bytes, peek_place};
ghost use Rattle.mem_model.specs.Hunk.{low_bytes, with_low_bytes, high_bytes, with_high_bytes, temp_bytes, with_temp_bytes, without_temp};
ghost use Rattle.mem_model.specs.Zone.{zone_bytes, with_zone_bytes, rover_place};
ghost use Rattle.mem_model.specs.Laid.{Laid, IsText};

use crate::answers::{BadMark, BlockRow, CacheError, FreeError, Place, RoomError, ZoneError};
use crate::builder::Builder;

/// A keeper of one arena. A block is known by the place of its payload. Sizes, places and marks are in bytes.
pub trait Store: Drop {
    /// The memory that the store stands for.
    ghost state: { Self → Memory };

    /// No call runs out of memory.
    ghost frugal: { Bool };

    /// The store with these bytes in a low block.
    ghost low_written: { Self → ℕ → List ℕ → Self };

    /// The store with these bytes in a high block.
    ghost high_written: { Self → ℕ → List ℕ → Self };

    /// The store with these bytes in the active temporary block.
    ghost temp_written: { Self → List ℕ → Self };

    /// The store with these bytes in a used block of the zone.
    ghost zone_written: { Self → ℕ → List ℕ → Self };

    /// Allocates `size` zero bytes at the end of the low hunk, with the first 8 bytes of a name, and answers their
    /// place. The block takes `size` rounded up to a multiple of 16, and a header of 16.
    ///
    /// `NoRoom` tells that need and the room where it is less; it adds its event where events are kept, and changes
    /// nothing else. Want of memory changes nothing.
    fn low_alloc(&mut self, size: u64, name: &[u8]) -> Result<Place, RoomError>
        requires size { size ≤ 2 ^ 62 }
        requires name { IsText name.now }
        ensures gives { Gives (low_alloc (state self.old) size name.now) frugal (state self.old)
            (room_answer result) (state self.new) }
        ensures was_laid { Laid (state self.old) }
        ensures laid { Laid (state self.new) };

    /// Frees the blocks of the low hunk above a mark, which is where the zone's block ends or one above it, as
    /// `low_mark` told once.
    ///
    /// Any other mark is a `BadMark`, and the store is as before.
    fn low_free(&mut self, mark: u32) -> Result<(), BadMark>
        ensures gives { Answers (low_free (state self.old) mark) (mark_answer result) (state self.new) }
        ensures laid { Laid (state self.new) };

    /// Where the low hunk ends: the sizes of its blocks, added up.
    fn low_mark(&self) -> u32
        ensures mark { result ≡ low_used (state self.now) }
        ensures laid { Laid (state self.now) };

    /// The bytes of a low block above the zone.
    fn low_bytes(&self, place: Place) -> &[u8]
        requires { IsSome (low_bytes (state self.now) place.0) }
        ensures shows { low_bytes (state self.now) place.0 ≡ Some result.now }
        ensures laid { Laid (state self.now) };

    /// The bytes of a low block above the zone, to be written.
    fn low_bytes_mut(&mut self, place: Place) -> &mut [u8]
        requires { IsSome (low_bytes (state self.old) place.0) }
        ensures* writes_back { sem 𝓛 (Lends Self.row (Array byte 0) self.entry result
            (low_written self.old place.0)) }
        ensures shows { low_bytes (state self.old) place.0 ≡ Some result.now }
        ensures laid { Laid (state self.old) };

    /// Allocates `size` zero bytes at the low end of the high hunk, with the first 8 bytes of a name, and answers their
    /// place. The block takes `size` rounded up to a multiple of 16, and a header of 16. An active temporary block is
    /// freed first.
    ///
    /// `NoRoom` tells that need and the room where it is less, the temporary block not counted; it adds its event where
    /// events are kept. It and want of memory change nothing else.
    fn high_alloc(&mut self, size: u64, name: &[u8]) -> Result<Place, RoomError>
        requires size { size ≤ 2 ^ 62 }
        requires name { IsText name.now }
        ensures gives { Gives (high_alloc (state self.old) size name.now) frugal (without_temp (state self.old))
            (room_answer result) (state self.new) }
        ensures was_laid { Laid (state self.old) }
        ensures laid { Laid (state self.new) };

    /// The bytes of a high block, or of the active temporary block at its place.
    fn high_bytes(&self, place: Place) -> &[u8]
        requires { IsSome (high_bytes (state self.now) place.0) }
        ensures shows { high_bytes (state self.now) place.0 ≡ Some result.now }
        ensures laid { Laid (state self.now) };

    /// The bytes of a high block, or of the active temporary block at its place, to be written.
    fn high_bytes_mut(&mut self, place: Place) -> &mut [u8]
        requires { IsSome (high_bytes (state self.old) place.0) }
        ensures* writes_back { sem 𝓛 (Lends Self.row (Array byte 0) self.entry result
            (high_written self.old place.0)) }
        ensures shows { high_bytes (state self.old) place.0 ≡ Some result.now }
        ensures laid { Laid (state self.old) };

    /// Frees an active temporary block, and answers the sizes of the high hunk's blocks, added up.
    fn high_mark(&mut self) -> u32
        ensures gives { Answers (high_mark (state self.old)) result (state self.new) }
        ensures laid { Laid (state self.new) };

    /// Frees an active temporary block, and the blocks of the high hunk that came after a mark, which is 0 or where a
    /// block ended, as `high_mark` told once.
    ///
    /// Any other mark is a `BadMark`, and frees the temporary block alone.
    fn high_free(&mut self, mark: u32) -> Result<(), BadMark>
        ensures gives { Answers (high_free (state self.old) mark) (mark_answer result) (state self.new) }
        ensures laid { Laid (state self.new) };

    /// Allocates the temporary block in the high hunk, of `size` zero bytes, and answers their place. It lasts until
    /// the next call that allocates high, marks or frees the high hunk, or allocates a temporary block again, which
    /// first frees it.
    ///
    /// `NoRoom` is as in `high_alloc`. After it, and after want of memory, no temporary block is active.
    fn temp_alloc(&mut self, size: u64) -> Result<Place, RoomError>
        requires { size ≤ 2 ^ 62 }
        ensures gives { Gives (temp_alloc (state self.old) size) frugal (without_temp (state self.old))
            (room_answer result) (state self.new) }
        ensures was_laid { Laid (state self.old) }
        ensures laid { Laid (state self.new) };

    /// The bytes of the active temporary block: none exactly where none is active.
    fn temp_bytes(&self) -> Option<&[u8]>
        ensures shows { MatchOption result (temp_bytes (state self.now) ≡ None)
            (λ bytes. temp_bytes (state self.now) ≡ Some bytes.now) }
        ensures laid { Laid (state self.now) };

    /// The bytes of the active temporary block, to be written.
    fn temp_bytes_mut(&mut self) -> &mut [u8]
        requires { IsSome (temp_bytes (state self.old)) }
        ensures* writes_back { sem 𝓛 (Lends Self.row (Array byte 0) self.entry result (temp_written self.old)) }
        ensures shows { temp_bytes (state self.old) ≡ Some result.now }
        ensures laid { Laid (state self.old) };

    /// Builds the image of the first `len` temporary bytes at the front of a low block above the zone, which is large
    /// enough for it. All else stays, the bytes behind the image too.
    fn build_low<B: Builder>(&mut self, place: Place, len: usize, builder: &B)
        requires source { HasBytes (temp_bytes (state self.old)) len }
        requires image { IsOkAnd (B.image_of builder.now (front_of (temp_bytes (state self.old)) len)) (λ image.
            HasBytes (low_bytes (state self.old) place.0) (length image)) }
        ensures gives { Answers (build_low (state self.old) place.0 len (B.image_of builder.now)) tt (state self.new) }
        ensures laid { Laid (state self.new) };

    /// The sizes of the high hunk's blocks, added up, that of an active temporary block included.
    fn high_used(&self) -> u32
        ensures used { result ≡ high_used (state self.now) }
        ensures laid { Laid (state self.now) };

    /// Whether a temporary block is active.
    fn temp_active(&self) -> bool
        ensures active { result ≡ is_some (state self.now).temp }
        ensures laid { Laid (state self.now) };

    /// The block of a number among the low ones, from the lowest place upwards: `None` exactly past the last.
    ///
    /// The place is that of the header, the user is 0, and each block is in use.
    fn low_row(&self, number: u32) -> Option<BlockRow>
        ensures row { row_answer result ≡ slice_get (low_rows (state self.now)) number }
        ensures laid { Laid (state self.now) };

    /// The same among the high blocks, which go from the newest, since that has the lowest place.
    fn high_row(&self, number: u32) -> Option<BlockRow>
        ensures row { row_answer result ≡ slice_get (high_rows (state self.now)) number }
        ensures laid { Laid (state self.now) };

    /// Allocates `size` zero bytes in the zone, and answers their place. The block takes `size` and 28 bytes, rounded up
    /// to a multiple of 8. It is cut from the first free block that holds this, in the ring that begins at the rover; a
    /// rest of 64 bytes or less stays with it. The rover then stands behind it.
    ///
    /// `Full` comes exactly where no free block holds it. It adds its event where events are kept, and changes nothing
    /// else. Want of memory changes nothing.
    fn z_alloc(&mut self, size: u64) -> Result<Place, ZoneError>
        requires { size ≤ 2 ^ 62 }
        ensures gives { Gives (z_alloc (state self.old) size) frugal (state self.old) (zone_answer result)
            (state self.new) }
        ensures was_laid { Laid (state self.old) }
        ensures laid { Laid (state self.new) };

    /// Frees the block of the zone whose payload is at a place, and joins it with its free neighbours. A rover on a block
    /// that was joined to another stands on the joined one.
    ///
    /// `NotZone` comes exactly where no block has its payload there, and `AlreadyFree` exactly where that block is free.
    /// After either the store is as before, but for the event where events are kept.
    fn z_free(&mut self, place: Place) -> Result<(), FreeError>
        ensures gives { Answers (z_free (state self.old) place.0) (free_answer result) (state self.new) }
        ensures was_laid { Laid (state self.old) }
        ensures laid { Laid (state self.new) };

    /// The bytes of a used block of the zone: its size less 28.
    fn zone_bytes(&self, place: Place) -> &[u8]
        requires { IsSome (zone_bytes (state self.now) place.0) }
        ensures shows { zone_bytes (state self.now) place.0 ≡ Some result.now }
        ensures laid { Laid (state self.now) };

    /// The bytes of a used block of the zone, to be written.
    fn zone_bytes_mut(&mut self, place: Place) -> &mut [u8]
        requires { IsSome (zone_bytes (state self.old) place.0) }
        ensures* writes_back { sem 𝓛 (Lends Self.row (Array byte 0) self.entry result
            (zone_written self.old place.0)) }
        ensures shows { zone_bytes (state self.old) place.0 ≡ Some result.now }
        ensures laid { Laid (state self.old) };

    /// The block of a number among those of the zone, from the lowest place upwards: `None` exactly past the last.
    ///
    /// The place is that of the header, the size counts the header and the end mark, there is no name and the user is 0.
    fn zone_row(&self, number: u32) -> Option<BlockRow>
        ensures row { row_answer result ≡ slice_get (zone_rows (state self.now)) number }
        ensures laid { Laid (state self.now) };

    /// The place of the header of the block on which the rover stands, or 20 where it stands on the cap behind the last.
    fn rover(&self) -> u32
        ensures rover { result ≡ rover_place (state self.now).zone }
        ensures laid { Laid (state self.now) };

    /// A user without a block gets one of `size` zero bytes, with the first 15 bytes of a name, and becomes the most
    /// recently used. The block takes `size` and 40 bytes, rounded up to a multiple of 16. It stands at the first gap
    /// between the hunks that is large enough. Where there is none, as few of the least recently used leave with their
    /// blocks as have to.
    ///
    /// `Occupied` comes exactly where the user has a block, `BadSize` exactly where it has none and the size is 0, and
    /// `NoRoom` exactly where neither comes and the room is less than the need. Each adds its event where events are kept,
    /// and changes nothing else. Want of memory changes nothing.
    fn cache_alloc(&mut self, user: u32, size: u64, name: &[u8]) -> Result<(), CacheError>
        requires user { user < (state self.old).users }
        requires size { size ≤ 2 ^ 62 }
        requires name { IsText name.now }
        ensures gives { Gives (cache_alloc (state self.old) user size name.now) frugal (state self.old)
            (cache_answer result) (state self.new) }
        ensures was_laid { Laid (state self.old) }
        ensures laid { Laid (state self.new) };

    /// The place of a user's block, which makes the user the most recently used: `None` exactly where it has none.
    fn check(&mut self, user: u32) -> Option<Place>
        ensures gives { Answers (check (state self.old) user) (place_answer result) (state self.new) }
        ensures laid { Laid (state self.new) };

    /// The bytes of a user's block, which is no use of it: `None` exactly where it has none.
    fn peek(&self, user: u32) -> Option<&[u8]>
        ensures shows { MatchOption result (peek_bytes (state self.now).cache user ≡ None)
            (λ bytes. peek_bytes (state self.now).cache user ≡ Some bytes.now) }
        ensures laid { Laid (state self.now) };

    /// The place of a user's block, which is no use of it: `None` exactly where it has none.
    fn peek_place(&self, user: u32) -> Option<Place>
        ensures place { place_answer result ≡ peek_place (state self.now).cache user }
        ensures laid { Laid (state self.now) };

    /// Builds the image of the first `len` temporary bytes at the front of a user's block, which is large enough for it.
    /// This is no use of the block. All else stays, the bytes behind the image too.
    fn build_cache<B: Builder>(&mut self, user: u32, len: usize, builder: &B)
        requires source { HasBytes (temp_bytes (state self.old)) len }
        requires image { IsOkAnd (B.image_of builder.now (front_of (temp_bytes (state self.old)) len)) (λ image.
            HasBytes (peek_bytes (state self.old).cache user) (length image)) }
        ensures gives { Answers (build_cache (state self.old) user len (B.image_of builder.now)) tt (state self.new) }
        ensures laid { Laid (state self.new) };

    /// Copies the first `size` bytes of a low block above the zone to the front of a user's block, where both have as
    /// many. This is no use of the block. All else stays, the bytes behind the copy too.
    fn copy_low_to_cache(&mut self, place: Place, user: u32, size: u32)
        requires low { HasBytes (low_bytes (state self.old) place.0) size }
        requires user { HasBytes (peek_bytes (state self.old).cache user) size }
        ensures gives { Answers (copy_low_to_cache (state self.old) place.0 user size) tt (state self.new) }
        ensures laid { Laid (state self.new) };

    /// A user without a block gets one with the first `size` bytes of the low block above the zone whose header is at a
    /// mark, as `cache_alloc` and `copy_low_to_cache` give it. The low hunk is freed down to that mark, whether or not
    /// there is a block. A store may hand the bytes over and copy none.
    ///
    /// The refusals are those of `cache_alloc`, by the room before the freeing. Each adds the events of that call and of
    /// `low_free` where events are kept. It and want of memory change nothing else.
    fn move_low_to_cache(
        &mut self,
        mark: u32,
        user: u32,
        size: u32,
        name: &[u8],
    ) -> Result<(), CacheError>
        requires user { user < (state self.old).users }
        requires name { IsText name.now }
        requires low { HasBytes (low_bytes (state self.old) (mark + 16)) size }
        ensures gives { Gives (move_low_to_cache (state self.old) mark user size name.now) frugal
            (low_free (state self.old) mark).after (cache_answer result) (state self.new) }
        ensures was_laid { Laid (state self.old) }
        ensures laid { Laid (state self.new) };

    /// Frees a user's block, and answers whether there was one.
    fn cache_free(&mut self, user: u32) -> bool
        ensures gives { Answers (cache_free (state self.old) user) result (state self.new) }
        ensures laid { Laid (state self.new) };

    /// Frees every block of the cache.
    fn flush(&mut self)
        ensures gives { Answers (flush (state self.old)) tt (state self.new) }
        ensures laid { Laid (state self.new) };

    /// The block of a number in the cache, from the lowest place upwards: `None` exactly past the last.
    ///
    /// The place is that of the header, and each block is in use.
    fn cache_row(&self, number: u32) -> Option<BlockRow>
        ensures row { row_answer result ≡ slice_get (cache_rows (state self.now)) number }
        ensures laid { Laid (state self.now) };

    /// The user of a number among those that have a block in the cache, the most recently used first: `None` exactly past
    /// the last.
    fn lru_user(&self, number: u32) -> Option<u32>
        ensures user { result ≡ slice_get (state self.now).cache.recency number }
        ensures laid { Laid (state self.now) };

    /// The size of the arena.
    fn size(&self) -> u32
        ensures size { result ≡ (state self.now).size }
        ensures laid { Laid (state self.now) };

    /// What lies between the two hunks, whatever the cache has there.
    fn room(&self) -> u32
        ensures room { result ≡ room (state self.now) }
        ensures laid { Laid (state self.now) };

    /// What is written through the bytes that a call lends becomes the bytes of that block, and all else stays.
    ghost low_writes: { (s : Self) (place : ℕ) (bytes : List ℕ) →
        state (low_written s place bytes) ≡ with_low_bytes (state s) place bytes };

    /// The same of a high block.
    ghost high_writes: { (s : Self) (place : ℕ) (bytes : List ℕ) →
        state (high_written s place bytes) ≡ with_high_bytes (state s) place bytes };

    /// The same of the temporary block.
    ghost temp_writes: { (s : Self) (bytes : List ℕ) →
        state (temp_written s bytes) ≡ with_temp_bytes (state s) bytes };

    /// The same of a used block of the zone.
    ghost zone_writes: { (s : Self) (place : ℕ) (bytes : List ℕ) →
        state (zone_written s place bytes) ≡ with_zone_bytes (state s) place bytes };
}
