// Numbers in bytes, the lowest byte first.
ghost use Rattle.std.specs.Prelude.{◌≡◌, ◌+◌, ◌≤◌, length};
ghost use Rattle.base_fields.specs.Fields.{u16_in, i16_in, u32_in, i32_in, u32_bytes, with_field};

use byteorder::{ByteOrder, LittleEndian};

/// The number in the two bytes from `at` on, the lowest first.
#[tactic(auto, unfolding(crate::specs::Fields::u16_in))]
pub fn u16_at(bytes: &[u8], at: usize) -> u16
    requires { at + 2 ≤ length bytes.now }
    ensures { result ≡ u16_in bytes.now at }
{
    LittleEndian::read_u16(&bytes[at..])
}

/// The signed number in the two bytes from `at` on, the lowest first, as two's complement.
pub fn i16_at(bytes: &[u8], at: usize) -> i16
    requires { at + 2 ≤ length bytes.now }
    ensures { result ≡ i16_in bytes.now at }
{
    u16_at(bytes, at).cast_signed()
}

/// The number in the four bytes from `at` on, the lowest first.
#[tactic(auto, unfolding(crate::specs::Fields::u32_in))]
pub fn u32_at(bytes: &[u8], at: usize) -> u32
    requires { at + 4 ≤ length bytes.now }
    ensures { result ≡ u32_in bytes.now at }
{
    LittleEndian::read_u32(&bytes[at..])
}

/// The signed number in the four bytes from `at` on, the lowest first, as two's complement.
pub fn i32_at(bytes: &[u8], at: usize) -> i32
    requires { at + 4 ≤ length bytes.now }
    ensures { result ≡ i32_in bytes.now at }
{
    u32_at(bytes, at).cast_signed()
}

/// Writes the number into the four bytes from `at` on, the lowest first. The others stay.
pub fn put_u32(bytes: &mut [u8], at: usize, value: u32)
    requires { at + 4 ≤ length bytes.old }
    ensures { bytes.new ≡ with_field bytes.old at (u32_bytes value) }
{
    LittleEndian::write_u32(&mut bytes[at..at + 4], value);
}

/// Fills the four bytes with the number, the lowest first.
pub fn fill_u32(word: &mut [u8], value: u32)
    requires { length word.old ≡ 4 }
    ensures { word.new ≡ u32_bytes value }
{
    LittleEndian::write_u32(word, value);
}
