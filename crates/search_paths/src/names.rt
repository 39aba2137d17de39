// The names of packs.
ghost use Rattle.std.specs.Prelude.{◌≡◌};
ghost use Rattle.search_paths.specs.Mounts.{pack_name};

use arrayvec::ArrayString;
use itoa::Buffer;

// The name of the pack of this number in its folder.
pub(crate) fn name_of_pack(number: u32) -> ArrayString<17>
    ensures { result.bytes ≡ pack_name number }
{
    let mut name = ArrayString::new();
    name.push_str("pak");
    name.push_str(Buffer::new().format(number));
    name.push_str(".pak");
    name
}
