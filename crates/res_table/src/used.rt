// The use of a resource that is there.
ghost use Rattle.std.specs.Prelude.{◌≡◌, [], MatchOption, IfSome, false, option_map};
ghost use Rattle.mem_model.specs.Keeps.{KeepsAll, beside_high};
ghost use Rattle.mem_model.specs.Laid.{Laid};
ghost use Rattle.res_table.specs.Acquire.{place_of, used, old_res};

use crate::answers::Res;
use crate::slots::Loaded;
use mem_model::{Place, Store};

// A resource that was loaded before, at its place.
fn old_res(loaded: &Loaded, place: Place) -> Res
    ensures { result ≡ old_res loaded.now place.0 }
{
    Res {
        kind: loaded.kind,
        size: loaded.size,
        place: place.0,
        loaded: false,
    }
}

// The resource that was loaded for a user, where it is there still. In the cache it is used once.
#[tactic(auto, using(crate::proofs::Kept::kept_laws))]
pub(crate) fn used<M: Store>(store: &mut M, user: u32, loaded: &Loaded) -> Option<Res>
    ensures there { result ≡ option_map (old_res loaded.now) (place_of (M.state store.old) user loaded.now.low) }
    ensures after { MatchOption result (M.state store.new ≡ M.state store.old)
        (λ _. M.state store.new ≡ used (M.state store.old) user loaded.now.low) }
    ensures old { IfSome result (λ res. res.loaded ≡ false) }
    ensures keeps { KeepsAll [] (M.state store.old) (M.state store.new) }
    ensures beside { beside_high (M.state store.new) ≡ beside_high (M.state store.old) }
    ensures laid { Laid (M.state store.old) → Laid (M.state store.new) }
{
    match loaded.low {
        Some(place) => Some(old_res(loaded, place)),
        None => {
            let place = store.peek_place(user)?;
            let _ = store.check(user);
            Some(old_res(loaded, place))
        }
    }
}
