//! A client of the job book: it books jobs, and ends each with the ticket that it was handed.
#![tactic(auto)]

ghost use Rattle.std.specs.Prelude.{◌≡◌};
ghost use Rattle.jobs.specs.View.{state};
ghost use Rattle.ticket_client.specs.Worker.{dropped, dropped_by_hand};

mod worker;

use jobs::job_book::JobBook;
use keys::bounds::OwnedBounds;
use keys::key_range::KeyRange;
use keys::stop_key::StopKey;
use refusals::refusal::Refusal;
use runs::fresh::Fresh;
use runs::table::Table;
use std::ops::Bound;
use strategies::drop_range::DropRange;
use worker::{Ending, book_tour, end_by_hand, end_job};

// A new table of 100 bytes, from the first of these stops of a tour to the second.
fn fresh(number: u64, tour: u32, stops: (u32, u32)) -> Fresh<StopKey>
    ensures { result ≡ record { number = number; range = record { min = record { tour = tour; stop = stops.0 }; max = record { tour = tour; stop = stops.1 } }; size = 100; created = 0; linked = 0 } }
{
    let (first, last) = stops;
    let range = KeyRange {
        min: StopKey { tour, stop: first },
        max: StopKey { tour, stop: last },
    };
    Fresh {
        number,
        range,
        size: 100,
        created: 0,
        linked: 0,
    }
}

// Prints which tables stand: those that a range drop without bounds would drop.
fn print_standing(rt: &impl Print, book: &JobBook, sheet: &[Table<StopKey>]) -> anyhow::Result<()> {
    let all = OwnedBounds {
        start: Bound::Unbounded,
        end: Bound::Unbounded,
    };
    let mut ids = [0u64; 4];
    match book.propose::<StopKey, DropRange>(sheet, &all, 0, &mut ids) {
        Ok(choice) => {
            print!(rt; "standing:")?;
            for id in ids.iter().take(choice.count()) {
                print!(rt; " {id}")?;
            }
            println!(rt; "")?;
        }
        Err(refusal) => println!(rt; "refused {}", refusal.number())?,
    }
    Ok(())
}

// Drops a tour: books the job, and ends it with these outputs.
fn drop_tour(
    book: &mut JobBook,
    sheet: &mut [Table<StopKey>],
    tour: u32,
    outputs: &[Fresh<StopKey>],
) -> Result<Ending, Refusal>
    ensures { (state book.new sheet.new, result) ≡ dropped tour outputs.now (state book.old sheet.old) }
{
    let ticket = book_tour(book, sheet, tour)?;
    end_job(book, sheet, ticket, outputs)
}

// The same by hand.
fn drop_by_hand(
    book: &mut JobBook,
    sheet: &mut [Table<StopKey>],
    tour: u32,
    outputs: &[Fresh<StopKey>],
) -> Result<Ending, Refusal>
    ensures { (state book.new sheet.new, result) ≡ dropped_by_hand tour outputs.now (state book.old sheet.old) }
{
    let ticket = book_tour(book, sheet, tour)?;
    end_by_hand(book, sheet, ticket, outputs)
}

// Prints how the job of a tour ended, and what stands then.
fn print_end(rt: &impl Print, tour: u32, ended: Result<Ending, Refusal>) -> anyhow::Result<()> {
    match ended {
        Ok(Ending::Closed) => println!(rt; "tour {tour}: closed")?,
        Ok(Ending::ClosedWithout(refusal)) => println!(rt;
            "tour {tour}: refused {}, closed with the ticket that came back",
            refusal.number()
        )?,
        Ok(Ending::GivenUp(refusal)) => println!(rt;
            "tour {tour}: refused {}, given up with the ticket that came back",
            refusal.number()
        )?,
        Err(refusal) => println!(rt; "tour {tour}: refused {}", refusal.number())?,
    }
    Ok(())
}

fn main(rt: HostRuntime) -> anyhow::Result<()> {
    let mut sheet = [
        fresh(4, 11, (0, 80)).at(1, 0),
        fresh(2, 12, (0, 40)).at(1, 0),
        fresh(7, 12, (41, 95)).at(1, 0),
        fresh(5, 13, (0, 60)).at(1, 0),
    ];
    let mut book = match JobBook::open(&sheet, 4, 0) {
        Ok(book) => book,
        Err(refusal) => {
            println!(rt; "refused {}", refusal.number())?;
            return Ok(());
        }
    };
    print_standing(&rt, &book, &sheet)?;
    // A drop has no outputs.
    let outputs = [fresh(9, 12, (0, 10))];
    let ended = drop_by_hand(&mut book, &mut sheet, 12, &outputs);
    print_end(&rt, 12, ended)?;
    print_standing(&rt, &book, &sheet)?;
    let ended = drop_tour(&mut book, &mut sheet, 12, &outputs);
    print_end(&rt, 12, ended)?;
    print_standing(&rt, &book, &sheet)?;
    let ended = drop_tour(&mut book, &mut sheet, 13, &[]);
    print_end(&rt, 13, ended)?;
    print_standing(&rt, &book, &sheet)?;
    Ok(())
}
