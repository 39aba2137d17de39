// The names of lumps, as they are shown.
ghost use Rattle.std.specs.Prelude.{◌≡◌, ◌≤◌, length};
ghost use Rattle.info_text.specs.LumpNames.{shown, shown_byte};

use arrayvec::ArrayVec;
use base_fields::before_zero;

// The byte, or `?` for one outside 32 to 126.
fn shown_byte(byte: u8) -> u8
    ensures { result ≡ shown_byte byte }
{
    if matches!(byte, b' '..=b'~') {
        byte
    } else {
        b'?'
    }
}

// The bytes before the first zero, each as it is shown.
#[tactic(auto, unfolding(crate::specs::LumpNames::shown))]
pub(crate) fn shown(name: &[u8]) -> ArrayVec<u8, 16>
    requires { length name.now ≤ 16 }
    ensures { result.items ≡ shown name.now }
{
    let mut shown = ArrayVec::new();
    for byte in before_zero(name) {
        shown.push(shown_byte(*byte));
    }
    shown
}
