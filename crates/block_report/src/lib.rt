//! The report of a memory: its sizes, and a line for each block and for each user of the cache.
#![tactic(auto)]

ghost use Rattle.std.specs.Prelude.{◌≡◌, slice_get};
ghost use Rattle.mem_model.specs.Told.{row_of, row_answer};
ghost use Rattle.reply_pieces.specs.Pieces.{PutsText};
ghost use Rattle.block_report.specs.Reports.{rows_of, title, label, row_line, part_lines};
ghost use Rattle.block_report.specs.Reports.{sizes_line, rover_line, user_line, user_lines, section_text, report_text};

use mem_model::{BlockRow, Store};
use outside_io::{Sink, SinkFailed};
use reply_pieces::{Piece, put_all};

/// A part of the memory that has blocks of its own.
#[derive(Clone, Copy)]
enum Part {
    Low,
    High,
    Zone,
    Cache,
}

/// What a report says of one thing.
#[derive(Clone, Copy)]
enum Section {
    /// The sizes, and whether a temporary block is active.
    Sizes,
    /// The blocks of a part.
    Blocks(Part),
    /// The rover of the zone.
    Rover,
    /// The users of the cache.
    Users,
}

// The sections in the order of a report.
const SECTIONS: [Section; 7] = [
    Section::Sizes,
    Section::Blocks(Part::Low),
    Section::Blocks(Part::High),
    Section::Blocks(Part::Zone),
    Section::Rover,
    Section::Blocks(Part::Cache),
    Section::Users,
];

impl Part {
    // The block of a number, from the lowest place upwards.
    fn row<M: Store>(self, store: &M, number: u32) -> Option<BlockRow>
        ensures { row_answer result ≡ slice_get (rows_of (M.state store.now) self) number }
    {
        match self {
            Part::Low => store.low_row(number),
            Part::High => store.high_row(number),
            Part::Zone => store.zone_row(number),
            Part::Cache => store.cache_row(number),
        }
    }

    fn title(self) -> &'static [u8]
        ensures { result.now ≡ title self }
    {
        match self {
            Part::Low => b"low ",
            Part::High => b"high ",
            Part::Zone => b"zone ",
            Part::Cache => b"cache ",
        }
    }

    // What the line of a block calls it.
    fn label(self, row: &BlockRow) -> &[u8]
        ensures { result.now ≡ label self (row_of row.now) }
    {
        match self {
            Part::Zone if row.used => b"used",
            Part::Zone => b"free",
            _ => row.name_bytes(),
        }
    }

    // Puts the line of a block. That of a block in the cache has its user's number too.
    fn put_row<O: Sink>(self, row: &BlockRow, out: &mut O) -> Result<(), SinkFailed>
        ensures { PutsText O.Sink (row_line self (row_of row.now)) out.old out.new result }
    {
        let title = Piece::Text(self.title());
        let place = Piece::Number(u64::from(row.place));
        let size = Piece::Number(u64::from(row.size));
        let user = Piece::Number(u64::from(row.user));
        let label = Piece::Text(self.label(row));
        let space = Piece::Text(b" ");
        let end = Piece::Text(b"\n");
        match self {
            Part::Cache => put_all(
                out,
                &[title, place, space, size, space, user, space, label, end],
            ),
            _ => put_all(out, &[title, place, space, size, space, label, end]),
        }
    }

    // Puts the lines of all blocks. Each is asked for once.
    fn put_rows<M: Store, O: Sink>(self, store: &M, out: &mut O) -> Result<(), SinkFailed>
        ensures { PutsText O.Sink (part_lines (M.state store.now) self) out.old out.new result }
    {
        // There are fewer blocks than bytes.
        for number in 0..store.size() {
            let Some(row) = self.row(store, number) else {
                return Ok(());
            };
            self.put_row(&row, out)?;
        }
        Ok(())
    }
}

fn put_sizes<M: Store, O: Sink>(store: &M, out: &mut O) -> Result<(), SinkFailed>
    ensures { PutsText O.Sink (sizes_line (M.state store.now)) out.old out.new result }
{
    put_all(
        out,
        &[
            Piece::Text(b"hunk "),
            Piece::Number(u64::from(store.size())),
            Piece::Text(b" low "),
            Piece::Number(u64::from(store.low_mark())),
            Piece::Text(b" high "),
            Piece::Number(u64::from(store.high_used())),
            Piece::Text(b" room "),
            Piece::Number(u64::from(store.room())),
            Piece::Text(b" temp "),
            Piece::Number(u64::from(store.temp_active())),
            Piece::Text(b"\n"),
        ],
    )
}

fn put_rover<M: Store, O: Sink>(store: &M, out: &mut O) -> Result<(), SinkFailed>
    ensures { PutsText O.Sink (rover_line (M.state store.now)) out.old out.new result }
{
    put_all(
        out,
        &[
            Piece::Text(b"rover "),
            Piece::Number(u64::from(store.rover())),
            Piece::Text(b"\n"),
        ],
    )
}

fn put_user<O: Sink>(user: u32, out: &mut O) -> Result<(), SinkFailed>
    ensures { PutsText O.Sink (user_line user) out.old out.new result }
{
    put_all(
        out,
        &[
            Piece::Text(b"lru "),
            Piece::Number(u64::from(user)),
            Piece::Text(b"\n"),
        ],
    )
}

// Puts a line for each user of the cache, the most recently used first.
fn put_users<M: Store, O: Sink>(store: &M, out: &mut O) -> Result<(), SinkFailed>
    ensures { PutsText O.Sink (user_lines (M.state store.now).cache.recency) out.old out.new result }
{
    // There are fewer users than bytes.
    for number in 0..store.size() {
        let Some(user) = store.lru_user(number) else {
            return Ok(());
        };
        put_user(user, out)?;
    }
    Ok(())
}

impl Section {
    fn put<M: Store, O: Sink>(self, store: &M, out: &mut O) -> Result<(), SinkFailed>
        ensures { PutsText O.Sink (section_text (M.state store.now) self) out.old out.new result }
    {
        match self {
            Section::Sizes => put_sizes(store, out),
            Section::Blocks(part) => part.put_rows(store, out),
            Section::Rover => put_rover(store, out),
            Section::Users => put_users(store, out),
        }
    }
}

/// Puts the sizes of the memory, a line for each block of the low hunk, the high hunk and the zone, the place of the
/// zone's rover, a line for each block of the cache, and one for each of its users. The blocks go by rising place, the
/// users from the most recently used on.
///
/// It takes no memory, and asks the store for each block and user once, in order. After an error a front of the text
/// was put.
pub fn report<M: Store, O: Sink>(store: &M, out: &mut O) -> Result<(), SinkFailed>
    ensures { PutsText O.Sink (report_text (M.state store.now)) out.old out.new result }
{
    for section in SECTIONS {
        section.put(store, out)?;
    }
    Ok(())
}

#[cfg(test)]
mod tests;
