// Skins and frames, read one behind the other.
ghost use Rattle.std.specs.Prelude.{◌≡◌, ◌==◌, ℕ, ◌+◌, ◌*◌, ◌≤◌, ◌^◌, length, false, Result, IfOk};
ghost use Rattle.base_fields.specs.Fields.{u32_in};
ghost use Rattle.part_plan.specs.Plan.{run, seen, folding};
ghost use Rattle.alias_load.specs.Reading.{group, head, many, is_single, series, all_series};
ghost use Rattle.alias_load.specs.Sizes.{IsSeries};
ghost use Rattle.alias_load.specs.Views.{add_count, head_of, series_of};

use crate::fault::AliasFault;
use crate::header::Kind;
use base_fields::u32_at;
use part_plan::{any_wrong, is_between};

/// A skin's or a frame's word, and a group's count and intervals.
#[derive(Clone, Copy)]
pub(crate) struct HeadView<'a> {
    pub(crate) word: &'a [u8],
    // with a group's bounds behind it
    pub(crate) count: &'a [u8],
    pub(crate) intervals: &'a [u8],
    pub(crate) single: bool,
    // how many pictures or poses follow
    pub(crate) number: u32,
}

/// A skin or a frame, with its pictures or poses one behind the other.
#[derive(Clone, Copy)]
pub(crate) struct SeriesView<'a> {
    pub(crate) head: HeadView<'a>,
    pub(crate) items: &'a [u8],
}

// What a group has behind its word and before its pictures or poses, and what follows it.
#[tactic(auto, unfolding(crate::specs::Reading::group))]
fn read_group<'a>(
    kind: Kind,
    row: u32,
    word: &'a [u8],
    behind: &'a [u8],
) -> Result<(HeadView<'a>, &'a [u8]), AliasFault>
    requires bounds { kind.bounds ≤ 8 }
    requires group { (u32_in word.now 0 == 0) ≡ false }
    ensures value { seen (λ x. (head_of x.0, x.1.now)) result ≡ run (group kind row word.now) behind.now }
    ensures taken { IfOk result (λ x. 4 * x.0.number + length x.1.now ≤ length behind.now) }
    ensures single { IfOk result (λ x. x.0.single ≡ is_single (head_of x.0)) }
    ensures few { IfOk result (λ x. x.0.number ≤ 1024) }
    ensures number { IfOk result (λ x. x.0.number ≡ many (head_of x.0)) }
{
    if behind.len() < 4 + kind.bounds {
        return Err(AliasFault::Truncated { part: kind.part });
    }
    let (count, rest) = behind.split_at(4 + kind.bounds);
    let number = u32_at(count, 0);
    if !is_between(1, 1024, number) {
        return Err(AliasFault::Group {
            part: kind.part,
            row,
        });
    }
    let length = 4 * number as usize;
    if rest.len() < length {
        return Err(AliasFault::Truncated { part: kind.part });
    }
    let (intervals, rest) = rest.split_at(length);
    if any_wrong(number, intervals) {
        return Err(AliasFault::Interval {
            part: kind.part,
            row,
        });
    }
    Ok((
        HeadView {
            word,
            count,
            intervals,
            single: false,
            number,
        },
        rest,
    ))
}

// What a skin or a frame has before its pictures or poses, and what follows it.
#[tactic(auto, unfolding(crate::specs::Reading::head))]
fn read_head(kind: Kind, row: u32, source: &[u8]) -> Result<(HeadView<'_>, &[u8]), AliasFault>
    requires { kind.bounds ≤ 8 }
    ensures value { seen (λ x. (head_of x.0, x.1.now)) result ≡ run (head kind row) source.now }
    ensures taken { IfOk result (λ x. 4 * x.0.number + length x.1.now ≤ length source.now) }
    ensures single { IfOk result (λ x. x.0.single ≡ is_single (head_of x.0)) }
    ensures few { IfOk result (λ x. x.0.number ≤ 1024) }
    ensures number { IfOk result (λ x. x.0.number ≡ many (head_of x.0)) }
{
    if source.len() < 4 {
        return Err(AliasFault::Truncated { part: kind.part });
    }
    let (word, rest) = source.split_at(4);
    if u32_at(word, 0) != 0 {
        return read_group(kind, row, word, rest);
    }
    let head = HeadView {
        word,
        count: &[],
        intervals: &[],
        single: true,
        number: 1,
    };
    Ok((head, rest))
}

/// The next skin or frame, and what follows it.
#[tactic(auto, using(crate::proofs::SeriesLaws::series_laws))]
pub(crate) fn read_series(
    kind: Kind,
    row: u32,
    source: &[u8],
) -> Result<(SeriesView<'_>, &[u8]), AliasFault>
    requires bounds { kind.bounds ≤ 8 }
    requires small { kind.item ≤ 2 ^ 24 }
    ensures value { seen (λ x. (series_of kind x.0, x.1.now)) result ≡ run (series kind row) source.now }
    ensures taken { IfOk result (λ x. 4 * x.0.head.number + length x.1.now ≤ length source.now) }
    ensures few { IfOk result (λ x. x.0.head.number ≤ 1024) }
    ensures items { IfOk result (λ x. length x.0.items.now ≡ kind.item * x.0.head.number) }
    ensures single { IfOk result (λ x. x.0.head.single ≡ is_single (head_of x.0.head)) }
    ensures is { IfOk result (λ x. IsSeries kind (series_of kind x.0)) }
{
    let (head, rest) = read_head(kind, row, source)?;
    let length = kind.item * head.number as usize;
    if rest.len() < length {
        return Err(AliasFault::Truncated { part: kind.part });
    }
    let (items, rest) = rest.split_at(length);
    Ok((SeriesView { head, items }, rest))
}

/// How many pictures or poses so many skins or frames have, and what follows them.
#[tactic(auto, using(crate::proofs::SeriesLaws::count_laws), unfolding(crate::specs::Reading::all_series))]
pub(crate) fn count_items(kind: Kind, count: u32, source: &[u8]) -> Result<(u32, &[u8]), AliasFault>
    requires bounds { kind.bounds ≤ 8 }
    requires small { kind.item ≤ 2 ^ 24 }
    requires source { length source.now ≤ 2 ^ 26 }
    ensures value { seen (λ x. (x.0, x.1.now)) result ≡ folding add_count 0 (run (all_series kind count) source.now) }
    ensures taken { IfOk result (λ x. 4 * x.0 + length x.1.now ≤ length source.now) }
{
    let mut items = 0;
    let mut rest = source;
    for row in 0..count {
        let (series, after) = read_series(kind, row, rest)?;
        items += series.head.number;
        rest = after;
    }
    Ok((items, rest))
}
