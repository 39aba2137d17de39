// The bytes of a resource.
ghost use Rattle.std.specs.Prelude.{◌≡◌, IfSome, IsSome, MatchOption, None, Some};
ghost use Rattle.mem_model.specs.Hunk.{low_bytes};
ghost use Rattle.res_table.specs.Held.{bytes_at};

use mem_model::{Place, Store};

// The bytes of the block that a resource is in: at its low place, or the user's. This is no use of it.
pub(crate) fn bytes_at<'a, M: Store>(
    store: &'a M,
    user: u32,
    low: Option<Place>,
) -> Option<&'a [u8]>
    requires { IfSome low (λ place. IsSome (low_bytes (M.state store.now) place.0)) }
    ensures { MatchOption result (bytes_at (M.state store.now) user low ≡ None)
        (λ bytes. bytes_at (M.state store.now) user low ≡ Some bytes.now) }
{
    match low {
        Some(place) => Some(store.low_bytes(place)),
        None => store.peek(user),
    }
}
