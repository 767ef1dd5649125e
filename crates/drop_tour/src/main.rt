//! A worked example: tour 12 is over, and the tables that hold nothing else are dropped from the sheet.
#![tactic(auto)]

mod tour;

use keys::key_range::KeyRange;
use keys::stop_key::StopKey;
use runs::table::Table;
use tour::drop_tour;

// A stop of a tour.
fn key((tour, stop): (u32, u32)) -> StopKey {
    StopKey { tour, stop }
}

// A standing table of `size` bytes of level 1.
fn table(number: u64, min: (u32, u32), max: (u32, u32), size: u64) -> Table<StopKey> {
    let range = KeyRange {
        min: key(min),
        max: key(max),
    };
    Table {
        number,
        level: 1,
        run: 0,
        range,
        size,
        created: 0,
        linked: 0,
    }
}

// Prints the tables that stand.
fn print_standing(rt: &impl Print, tables: &[Table<StopKey>]) -> anyhow::Result<()> {
    for t in tables {
        let (min, max) = (t.range.min, t.range.max);
        println!(rt;
            "  table {}: {}:{} to {}:{}, {} bytes",
            t.number, min.tour, min.stop, max.tour, max.stop, t.size
        )?;
    }
    Ok(())
}

fn main(rt: HostRuntime) -> anyhow::Result<()> {
    let mut sheet = [
        table(4, (11, 0), (11, 80), 700),
        table(9, (11, 81), (12, 15), 900),
        table(2, (12, 16), (12, 40), 300),
        table(7, (12, 41), (12, 95), 450),
        table(5, (13, 0), (13, 60), 600),
    ];
    let mut ids = [0u64; 5];
    println!(rt; "standing:")?;
    print_standing(&rt, &sheet)?;
    match drop_tour(&mut sheet, 5, 12, &mut ids) {
        Ok(dropped) => {
            println!(rt;
                "tour 12 is over, dropped {} tables of {} bytes:",
                dropped.named.count, dropped.named.bytes
            )?;
            for id in ids.iter().take(dropped.named.count) {
                println!(rt; "  table {id}")?;
            }
            println!(rt; "standing:")?;
            for t in sheet.iter().take(dropped.standing) {
                println!(rt; "  table {}", t.number)?;
            }
        }
        Err(refusal) => println!(rt; "refused {}", refusal.number())?,
    }
    Ok(())
}
