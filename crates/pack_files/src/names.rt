// The names of a directory, as keys. A name is hashed in one write, where a slice would be byte by byte.
ghost use Rattle.std.specs.Prelude.{◌≡◌, ◌∷◌, [], ℕ, List, IfOk, nat_eq};
ghost use Rattle.std.proofs.Common.{ap};
ghost use Rattle.std.specs.Cmp.Lexicographic.{pointwise, bytes_decides, nat_list_eq_equiv};

use indexmap::Equivalent;
use smallvec::SmallVec;
use std::alloc::{AllocError, Global};
use std::hash::{Hash, Hasher};

// A name of so many bytes takes no memory beside its key.
const INLINE: usize = 16;

/// A name of a row. It is found by a `Sought`.
#[derive(PartialEq, Eq, Drop)]
pub(crate) struct Name {
    bytes: SmallVec<u8, INLINE>,
}

impl Name {
    /// The name of these bytes.
    pub(crate) fn from_bytes(alloc: Global, bytes: &[u8]) -> Result<Name, AllocError>
        ensures { IfOk result (λ name. name.bytes.items ≡ bytes.now) }
    {
        Ok(Name {
            bytes: SmallVec::from_slice(alloc, bytes)?,
        })
    }

    /// Its bytes.
    pub(crate) fn as_bytes(&self) -> &[u8]
        ensures { result.now ≡ self.now.bytes.items }
    {
        self.bytes.as_slice()
    }
}

impl Hash for Name {
    ghost hash_input = { λ k. k.bytes.items ∷ [] };

    ghost respects_eq = { λ x y same.
        ap (λ (bytes : List ℕ). bytes ∷ []) ((bytes_decides x.bytes.items y.bytes.items).0 same) };

    fn hash<H: Hasher>(&self, state: &mut H) {
        state.write(self.as_bytes());
    }
}

/// The bytes of a name that is looked for. They may be more than 56.
#[derive(Clone, Copy, PartialEq, Eq)]
pub(crate) struct Sought<'a> {
    pub(crate) bytes: &'a [u8],
}

impl<'a> Hash for Sought<'a> {
    ghost hash_input = { λ q. q.bytes.now ∷ [] };

    ghost respects_eq = { λ x y same. ap (λ (bytes : List ℕ). bytes ∷ []) ((bytes_decides x.bytes.now y.bytes.now).0 same) };

    fn hash<H: Hasher>(&self, state: &mut H) {
        state.write(self.bytes);
    }
}

impl<'a> Equivalent<Name> for Sought<'a> {
    ghost equivalent = { λ q k. pointwise nat_eq q.bytes.now k.bytes.items };

    ghost respects_hash = { λ q k same.
        ap (λ (bytes : List ℕ). bytes ∷ []) ((bytes_decides q.bytes.now k.bytes.items).0 same) };

    ghost respects_eq = { λ q x y. nat_list_eq_equiv.congr q.bytes.now x.bytes.items y.bytes.items };

    fn equivalent(&self, key: &Name) -> bool {
        self.bytes == key.as_bytes()
    }
}
