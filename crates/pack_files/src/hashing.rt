// Hashes of names.
ghost use Rattle.std.specs.Prelude.{◌≡◌};
ghost use Rattle.pack_files.specs.Hashes.{hash_of};

/// The hash of a name, by which packs look it up.
#[tactic(auto, unfolding(crate::specs::Hashes::hash_of))]
pub fn name_hash(name: &[u8]) -> u32
    ensures { result ≡ hash_of name.now }
{
    let mut hash: u64 = 0;
    for byte in name {
        hash = (hash + u64::from(*byte)) * 2_654_435_761 % 4_294_967_296;
    }
    hash as u32
}
