// The sections of an image that have a piece for each skin, or for each frame.
ghost use Rattle.std.specs.Prelude.{◌≡◌, ◌+◌, ◌-◌, ◌*◌, ◌≤◌, ◌^◌, ◌++◌, length, take, if◌then◌else◌, IfOk, IsOkAnd};
ghost use Rattle.base_fields.specs.Fields.{u32_bytes};
ghost use Rattle.part_plan.specs.Plan.{run};
ghost use Rattle.alias_load.specs.Reading.{is_single, all_series};
ghost use Rattle.alias_load.specs.Images.{pieces, pose_rows, bounds_of, intervals_of, vertices_in};
ghost use Rattle.alias_load.specs.Views.{cut, head_of, series_of};
ghost use Rattle.alias_load.specs.Sizes.{IsSeries};
ghost use Rattle.alias_load.specs.Sections.{IsOfPoses, Suits, piece_of, fixed, per_item, bytes_of};

use crate::header::Kind;
use crate::reading::{SeriesView, read_series};
use base_fields::fill_u32;

/// What is written of each skin or frame.
#[derive(Clone, Copy, Debug)]
pub(crate) enum Section {
    SkinRows,
    FrameRows,
    Intervals,
    PoseRows,
    Pictures,
    Vertices,
}

// The interval of a single picture or pose.
const NO_INTERVAL: [u8; 4] = [0; 4];

/// The bytes of the section for so many skins or frames, with so many pictures or poses.
#[tactic(auto, using(crate::proofs::PieceLaws::bytes_few))]
pub(crate) fn section_length(section: Section, kind: Kind, count: u32, items: u32) -> usize
    requires suits { Suits section kind }
    requires count { count ≤ 2 ^ 16 }
    requires items { items ≤ 2 ^ 24 }
    requires small { kind.item ≤ 2 ^ 24 }
    ensures value { result ≡ bytes_of section kind count items }
    ensures few { result ≤ 2 ^ 49 }
{
    let (count, items) = (count as usize, items as usize);
    match section {
        Section::SkinRows => 12 * count,
        Section::FrameRows => 20 * count,
        Section::Intervals => 4 * items,
        Section::PoseRows => 28 * items,
        Section::Pictures => kind.item * items,
        Section::Vertices => (kind.item - 24) * items,
    }
}

fn group_word(single: bool) -> u32
    ensures { result ≡ (if single then 0 else 1) }
{
    if single { 0 } else { 1 }
}

// The row of a skin, and the front of that of a frame.
fn put_row(block: &mut [u8], series: &SeriesView, first: u32)
    requires len { length block.old ≡ 12 }
    ensures { block.new ≡ u32_bytes (if series.now.head.single then 0 else 1)
        ++ (u32_bytes first ++ u32_bytes series.now.head.number) }
{
    let (group, rest) = block.split_at_mut(4);
    let (start, count) = rest.split_at_mut(4);
    fill_u32(group, group_word(series.head.single));
    fill_u32(start, first);
    fill_u32(count, series.head.number);
}

// The bounds of a frame, 8 bytes.
fn bounds<'a>(kind: Kind, series: &SeriesView<'a>) -> &'a [u8]
    requires is { IsSeries kind (series_of kind series.now) }
    requires single { series.now.head.single ≡ is_single (head_of series.now.head) }
    requires items { length series.now.items.now ≡ kind.item * series.now.head.number }
    requires poses { IsOfPoses kind }
    ensures value { result.now ≡ bounds_of (series_of kind series.now) }
    ensures len { length result.now ≡ 8 }
{
    if series.head.single {
        &series.items[..8]
    } else {
        &series.head.count[4..12]
    }
}

// The intervals, four bytes for each picture or pose.
fn intervals<'a>(kind: Kind, series: &SeriesView<'a>) -> &'a [u8]
    requires is { IsSeries kind (series_of kind series.now) }
    requires single { series.now.head.single ≡ is_single (head_of series.now.head) }
    ensures value { result.now ≡ intervals_of (series_of kind series.now) }
    ensures len { length result.now ≡ 4 * series.now.head.number }
{
    if series.head.single {
        &NO_INTERVAL
    } else {
        series.head.intervals
    }
}

fn put_pose_row(block: &mut [u8], interval: &[u8], pose: &[u8])
    requires len { length block.old ≡ 28 }
    requires interval { 4 ≤ length interval.now }
    requires pose { 24 ≤ length pose.now }
    ensures { block.new ≡ take 4 interval.now ++ take 24 pose.now }
{
    let (front, back) = block.split_at_mut(4);
    front.copy_from_slice(&interval[..4]);
    back.copy_from_slice(&pose[..24]);
}

// A row for each pose.
#[tactic(auto, using(crate::proofs::PoseLaws::row_laws))]
fn put_pose_rows(block: &mut [u8], intervals: &[u8], item: usize, number: u32, items: &[u8])
    requires len { length block.old ≡ 28 * number }
    requires intervals { length intervals.now ≡ 4 * number }
    requires items { length items.now ≡ item * number }
    requires poses { 24 ≤ item }
    requires few { number ≤ 2 ^ 24 }
    ensures { block.new ≡ pose_rows intervals.now (cut item number items.now) }
{
    let mut rest = items;
    for i in 0..number as usize {
        let (pose, after) = rest.split_at(item);
        put_pose_row(&mut block[28 * i..28 * i + 28], &intervals[4 * i..], pose);
        rest = after;
    }
}

// The vertices of each pose.
#[tactic(auto, using(crate::proofs::PoseLaws::vertex_laws))]
fn put_vertices(block: &mut [u8], item: usize, number: u32, items: &[u8])
    requires len { length block.old ≡ (item - 24) * number }
    requires items { length items.now ≡ item * number }
    requires poses { 24 ≤ item }
    ensures { block.new ≡ vertices_in (cut item number items.now) }
{
    let length = item - 24;
    let mut at = 0;
    let mut rest = items;
    for _ in 0..number {
        let (pose, after) = rest.split_at(item);
        block[at..at + length].copy_from_slice(&pose[24..]);
        at += length;
        rest = after;
    }
}

// The piece of a skin or a frame.
#[tactic(auto, using(crate::proofs::PieceLaws::piece_laws))]
fn put_piece(block: &mut [u8], section: Section, kind: Kind, series: &SeriesView, first: u32)
    requires suits { Suits section kind }
    requires is { IsSeries kind (series_of kind series.now) }
    requires single { series.now.head.single ≡ is_single (head_of series.now.head) }
    requires items { length series.now.items.now ≡ kind.item * series.now.head.number }
    requires few { series.now.head.number ≤ 1024 }
    requires len { length block.old ≡ fixed section + per_item section kind * series.now.head.number }
    ensures { block.new ≡ piece_of section first (series_of kind series.now) }
{
    let number = series.head.number;
    match section {
        Section::SkinRows => put_row(block, series, first),
        Section::FrameRows => {
            let (row, limits) = block.split_at_mut(12);
            put_row(row, series, first);
            limits.copy_from_slice(bounds(kind, series));
        }
        Section::Intervals => block.copy_from_slice(intervals(kind, series)),
        Section::PoseRows => {
            put_pose_rows(
                block,
                intervals(kind, series),
                kind.item,
                number,
                series.items,
            );
        }
        Section::Pictures => block.copy_from_slice(series.items),
        Section::Vertices => put_vertices(block, kind.item, number, series.items),
    }
}

/// The section, over so many skins or frames.
#[tactic(auto, unfolding(crate::specs::Reading::all_series))]
pub(crate) fn put_section(block: &mut [u8], section: Section, kind: Kind, count: u32, source: &[u8])
    requires suits { Suits section kind }
    requires bounds { kind.bounds ≤ 8 }
    requires small { kind.item ≤ 2 ^ 24 }
    requires source { length source.now ≤ 2 ^ 26 }
    requires room { IsOkAnd (run (all_series kind count) source.now)
        (λ x. length (pieces (piece_of section) 0 x.0) ≡ length block.old) }
    ensures { IfOk (run (all_series kind count) source.now) (λ x. block.new ≡ pieces (piece_of section) 0 x.0) }
{
    let mut first = 0;
    let mut at = 0;
    let mut rest = source;
    for row in 0..count {
        let (series, after) = match read_series(kind, row, rest) {
            Ok(read) => read,
            Err(_) => return,
        };
        let number = series.head.number;
        let end = at + section_length(section, kind, 1, number);
        put_piece(&mut block[at..end], section, kind, &series, first);
        first += number;
        at = end;
        rest = after;
    }
}
