// Tests that several formats share.
ghost use Rattle.std.specs.Prelude.{◌≡◌, ◌+◌, ◌*◌, ◌≤◌, length};
ghost use Rattle.part_plan.specs.Checks.{is_between, is_wrong, has_wrong};

use base_fields::u32_at;

/// Whether the number lies between these two, of which each is taken too.
pub fn is_between(low: u32, high: u32, number: u32) -> bool
    ensures { result ≡ is_between low high number }
{
    low <= number && number <= high
}

// Whether interval `i` isn't above 0.
fn is_wrong_at(intervals: &[u8], i: usize) -> bool
    requires { 4 * i + 4 ≤ length intervals.now }
    ensures { result ≡ is_wrong intervals.now i }
{
    let interval = u32_at(intervals, 4 * i);
    !(interval > 0 && interval < 1 << 31)
}

/// Whether one of so many intervals isn't above 0, as a signed number. Each has four bytes, the lowest first.
#[tactic(auto, using(crate::proofs::CheckLaws::interval_laws))]
pub fn any_wrong(count: u32, intervals: &[u8]) -> bool
    requires { length intervals.now ≡ 4 * count }
    ensures { result ≡ has_wrong count intervals.now }
{
    for i in 0..count as usize {
        if is_wrong_at(intervals, i) {
            return true;
        }
    }
    false
}
