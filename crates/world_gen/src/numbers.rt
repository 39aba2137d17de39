// Numbers in bytes, the lowest first.
ghost use Rattle.std.specs.Prelude.{◌≡◌, ◌++◌, OnOk};
ghost use Rattle.world_gen.specs.Numbers.{half, word, words};

use std::alloc::AllocError;

/// Appends a number in two bytes.
#[tactic(auto, unfolding(crate::specs::Numbers::half))]
pub fn append_half(bytes: &mut Vec<u8>, value: u16) -> Result<(), AllocError>
    ensures { OnOk result (bytes.new.items ≡ bytes.old.items ++ half value) }
{
    bytes.extend_from_slice(&value.to_le_bytes())
}

/// Appends a number in four bytes.
#[tactic(auto, unfolding(crate::specs::Numbers::word))]
pub fn append_word(bytes: &mut Vec<u8>, value: u32) -> Result<(), AllocError>
    ensures { OnOk result (bytes.new.items ≡ bytes.old.items ++ word value) }
{
    bytes.extend_from_slice(&value.to_le_bytes())
}

/// Appends numbers in four bytes each.
pub fn append_words(bytes: &mut Vec<u8>, values: &[u32]) -> Result<(), AllocError>
    ensures { OnOk result (bytes.new.items ≡ bytes.old.items ++ words values.now) }
{
    for value in values {
        append_word(bytes, *value)?;
    }
    Ok(())
}
