// A list of all blocks.
use mem_model::{BlockRow, Store};
use std::io;

/// A part of the memory that has blocks of its own.
#[derive(Clone, Copy)]
enum Part {
    Low,
    High,
    Zone,
    Cache,
}

impl Part {
    fn title(self) -> &'static str {
        match self {
            Part::Low => "low",
            Part::High => "high",
            Part::Zone => "zone",
            Part::Cache => "cache",
        }
    }

    // The block of a number, from the lowest place upwards.
    fn row<M: Store>(self, store: &M, number: u32) -> Option<BlockRow> {
        match self {
            Part::Low => store.low_row(number),
            Part::High => store.high_row(number),
            Part::Zone => store.zone_row(number),
            Part::Cache => store.cache_row(number),
        }
    }
}

fn print_part<M: Store>(rt: &HostRuntime, store: &M, part: Part) -> io::Result<()> {
    // There are fewer blocks than bytes.
    for number in 0..store.size() {
        let Some(row) = part.row(store, number) else {
            return Ok(());
        };
        let name = str::from_utf8(row.name_bytes()).unwrap_or("?");
        println!(rt; "{} {} {} \"{name}\"", part.title(), row.place, row.size)?;
    }
    Ok(())
}

/// Prints the part, the place, the size and the name of each block.
pub fn print_all<M: Store>(rt: &HostRuntime, store: &M) -> io::Result<()> {
    for part in [Part::Low, Part::High, Part::Zone, Part::Cache] {
        print_part(rt, store, part)?;
    }
    Ok(())
}
