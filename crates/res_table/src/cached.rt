// An image in a block of the cache.
ghost use Rattle.std.specs.Prelude.{◌≡◌, ◌<◌, ◌+◌, [], ◌∷◌, IfOk, OnOk};
ghost use Rattle.mem_model.specs.Answer.{Gives};
ghost use Rattle.mem_model.specs.Cache.{peek_bytes};
ghost use Rattle.mem_model.specs.Hunk.{low_bytes};
ghost use Rattle.mem_model.specs.Images.{HasBytes};
ghost use Rattle.mem_model.specs.Keeps.{KeepsAll, beside_high};
ghost use Rattle.mem_model.specs.Laid.{Laid, IsText};
ghost use Rattle.mem_model.specs.Operations.{cache_alloc, low_free, move_low_to_cache};
ghost use Rattle.mem_model.specs.Told.{cache_answer, room_answer};
ghost use Rattle.res_table.specs.Kept.{BeginsWith, made_for};
ghost use Rattle.res_table.specs.Placed.{cached};
ghost use Rattle.res_table.specs.Ready.{IsFree, IsReady, image_in};
ghost use Rattle.res_table.specs.Refusals.{IsOfRoom, block_answer};

use crate::builder::NewImage;
use mem_model::{CacheError, Place, RoomError, Store};

// What is told of a new block, which nothing was missing for but room or memory.
fn block_told(given: Result<(), CacheError>) -> Result<(), RoomError>
    requires { IsOfRoom given }
    ensures { block_answer result ≡ cache_answer given }
{
    match given {
        Ok(()) => Ok(()),
        Err(CacheError::NoRoom { asked, room }) => Err(RoomError::NoRoom { asked, room }),
        Err(CacheError::OutOfMemory) => Err(RoomError::OutOfMemory),
        Err(CacheError::Occupied { .. }) => unreachable!(),
        Err(CacheError::BadSize) => unreachable!(),
    }
}

// A new block of a user that has none.
fn take_block<M: Store>(store: &mut M, user: u32, size: u32, name: &[u8]) -> Result<(), RoomError>
    requires free { IsFree (M.state store.old) user }
    requires some { 0 < size }
    requires name { IsText name.now }
    ensures gives { Gives (cache_alloc (M.state store.old) user size name.now) M.frugal (M.state store.old)
        (block_answer result) (M.state store.new) }
    ensures was_laid { Laid (M.state store.old) }
    ensures laid { Laid (M.state store.new) }
{
    block_told(store.cache_alloc(user, size as u64, name))
}

// A new block of a user that has none, with the first `size` bytes of the low block at a mark. The low hunk is freed to
// that mark.
pub(crate) fn move_block<M: Store>(
    store: &mut M,
    mark: u32,
    user: u32,
    size: u32,
    name: &[u8],
) -> Result<(), RoomError>
    requires free { IsFree (M.state store.old) user }
    requires low { HasBytes (low_bytes (M.state store.old) (mark + 16)) size }
    requires some { 0 < size }
    requires name { IsText name.now }
    ensures gives { Gives (move_low_to_cache (M.state store.old) mark user size name.now) M.frugal
        (low_free (M.state store.old) mark).after (block_answer result) (M.state store.new) }
    ensures was_laid { Laid (M.state store.old) }
    ensures laid { Laid (M.state store.new) }
{
    block_told(store.move_low_to_cache(mark, user, size, name))
}

// Builds the image in a new block of a user that has none.
pub(crate) fn build_cached<M: Store>(
    store: &mut M,
    user: u32,
    image: &NewImage,
    name: &[u8],
) -> Result<Place, RoomError>
    requires free { IsFree (M.state store.old) user }
    requires ready { IsReady (M.state store.old) image.now }
    requires name { IsText name.now }
    ensures gives { IfOk (image_in (M.state store.old) image.now) (λ made. Gives
        (cached (M.state store.old) user made name.now) M.frugal (M.state store.old) (room_answer result)
        (M.state store.new)) }
    ensures built { OnOk result (IfOk (image_in (M.state store.old) image.now)
        (BeginsWith (peek_bytes (M.state store.new).cache user))) }
    ensures keeps { KeepsAll (made_for (user ∷ []) result) (M.state store.old) (M.state store.new) }
    ensures beside { beside_high (M.state store.new) ≡ beside_high (M.state store.old) }
    ensures laid { Laid (M.state store.new) }
{
    take_block(store, user, image.size, name)?;
    store.build_cache(user, image.length, &image.builder);
    Ok(store.peek_place(user).unwrap())
}
