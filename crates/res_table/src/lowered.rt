// An image on the low hunk, and one that is put into the cache by way of it.
ghost use Rattle.std.specs.Prelude.{◌≡◌, ◌+◌, [], ◌∷◌, IfOk, IfErr, OnOk};
ghost use Rattle.mem_model.specs.Answer.{Gives};
ghost use Rattle.mem_model.specs.Cache.{peek_bytes};
ghost use Rattle.mem_model.specs.Hunk.{low_bytes};
ghost use Rattle.mem_model.specs.Keeps.{KeepsAll, beside_low};
ghost use Rattle.mem_model.specs.Laid.{IsText, Laid};
ghost use Rattle.mem_model.specs.Memory.{low_used};
ghost use Rattle.mem_model.specs.Told.{room_answer};
ghost use Rattle.res_table.specs.Kept.{BeginsWith, GrowsLow, made_for};
ghost use Rattle.res_table.specs.Placed.{GivesOrEnds, lowered, through_low};
ghost use Rattle.res_table.specs.Ready.{IsFree, IsReady, image_in};

use crate::builder::NewImage;
use crate::cached::move_block;
use mem_model::{Place, RoomError, Store};

// Builds the image in a new low block.
pub(crate) fn build_lowered<M: Store>(
    store: &mut M,
    image: &NewImage,
    name: &[u8],
) -> Result<Place, RoomError>
    requires ready { IsReady (M.state store.old) image.now }
    requires name { IsText name.now }
    ensures gives { IfOk (image_in (M.state store.old) image.now) (λ made. Gives
        (lowered (M.state store.old) made name.now) M.frugal (M.state store.old) (room_answer result)
        (M.state store.new)) }
    ensures built { IfOk result (λ place. IfOk (image_in (M.state store.old) image.now)
        (BeginsWith (low_bytes (M.state store.new) place.0))) }
    ensures place { IfOk result (λ place. place.0 ≡ low_used (M.state store.old) + 16) }
    ensures keeps { KeepsAll [] (M.state store.old) (M.state store.new) }
    ensures low { GrowsLow (M.state store.old) (M.state store.new) }
    ensures refused { IfErr result (λ _. (M.state store.new).low ≡ (M.state store.old).low) }
    ensures beside { beside_low (M.state store.new) ≡ beside_low (M.state store.old) }
    ensures laid { Laid (M.state store.new) }
{
    let place = store.low_alloc(image.size as u64, name)?;
    store.build_low(place, image.length, &image.builder);
    Ok(place)
}

// Builds the image in a low block, and moves it to a new block of a user that has none.
pub(crate) fn build_through_low<M: Store>(
    store: &mut M,
    user: u32,
    image: &NewImage,
    name: &[u8],
) -> Result<Place, RoomError>
    requires free { IsFree (M.state store.old) user }
    requires ready { IsReady (M.state store.old) image.now }
    requires name { IsText name.now }
    ensures gives { IfOk (image_in (M.state store.old) image.now) (λ made. GivesOrEnds
        (through_low (M.state store.old) user made name.now) M.frugal (room_answer result)
        (M.state store.new)) }
    ensures built { OnOk result (IfOk (image_in (M.state store.old) image.now)
        (BeginsWith (peek_bytes (M.state store.new).cache user))) }
    ensures keeps { KeepsAll (made_for (user ∷ []) result) (M.state store.old) (M.state store.new) }
    ensures low { (M.state store.new).low ≡ (M.state store.old).low }
    ensures zone { (M.state store.new).zone ≡ (M.state store.old).zone }
    ensures laid { Laid (M.state store.new) }
{
    let mark = store.low_mark();
    build_lowered(store, image, name)?;
    move_block(store, mark, user, image.size, name)?;
    Ok(store.peek_place(user).unwrap())
}
