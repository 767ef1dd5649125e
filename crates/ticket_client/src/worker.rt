//! A worker books jobs that drop a tour, and ends each with the ticket that it was handed.
ghost use Rattle.std.specs.Prelude.{◌≡◌};
ghost use Rattle.jobs.specs.View.{state};
ghost use Rattle.ticket_client.specs.Worker.{bounds_of, numbered, tour_booked, ended, ended_by_hand};

use jobs::booking::Booking;
use jobs::ending::Unclosed;
use jobs::job_book::JobBook;
use jobs::ticket::Ticket;
use keys::bounds::OwnedBounds;
use keys::stop_key::StopKey;
use refusals::refusal::Refusal;
use runs::fresh::Fresh;
use runs::table::Table;
use std::ops::Bound;
use strategies::drop_range::DropRange;

/// How a job was ended.
#[derive(Clone, Copy)]
pub enum Ending {
    Closed,
    /// Closed without outputs, after these were refused.
    ClosedWithout(Refusal),
    /// Given up, after its close was refused.
    GivenUp(Refusal),
}

/// Books a job that drops the tables of a tour. Its ticket.
pub fn book_tour(book: &mut JobBook, sheet: &[Table<StopKey>], tour: u32) -> Result<Ticket, Refusal>
    ensures { (state book.new sheet.now, numbered result) ≡ tour_booked tour (state book.old sheet.now) }
{
    let mut ids = [0u64; 8];
    let Booking { choice: _, ticket } = book.book::<StopKey, DropRange>(
        sheet,
        &tour_bounds(tour),
        0,
        &mut ids,
    )?;
    Ok(ticket)
}

// From a tour's first stop to its last.
fn tour_bounds(tour: u32) -> OwnedBounds<StopKey>
    ensures { result ≡ bounds_of tour }
{
    OwnedBounds {
        start: Bound::Included(StopKey { tour, stop: 0 }),
        end: Bound::Included(StopKey {
            tour,
            stop: u32::MAX,
        }),
    }
}

/// Closes the job. Where its outputs are refused, the ticket that came back closes it without any, or else gives it up.
pub fn end_job(
    book: &mut JobBook,
    sheet: &mut [Table<StopKey>],
    ticket: Ticket,
    outputs: &[Fresh<StopKey>],
) -> Result<Ending, Refusal>
    ensures { (state book.new sheet.new, result) ≡ ended ticket.number outputs.now (state book.old sheet.old) }
{
    let Err(unclosed) = book.close(sheet, ticket, outputs) else {
        return Ok(Ending::Closed);
    };
    let Unclosed { ticket, refusal } = unclosed;
    let Err(unclosed) = book.close(sheet, ticket, &[]) else {
        return Ok(Ending::ClosedWithout(refusal));
    };
    let Unclosed { ticket, refusal } = unclosed;
    book.give_up(sheet, ticket)?;
    Ok(Ending::GivenUp(refusal))
}

/// Closes the job, or gives it up where that is refused. Its hand holds the ticket until it is handed on, and no longer.
pub fn end_by_hand(
    book: &mut JobBook,
    sheet: &mut [Table<StopKey>],
    ticket: Ticket,
    outputs: &[Fresh<StopKey>],
) -> Result<Ending, Refusal>
    ensures { (state book.new sheet.new, result) ≡ ended_by_hand ticket.number outputs.now (state book.old sheet.old) }
{
    let mut hand = Some(ticket);
    let ended = book.close(sheet, hand.take().unwrap(), outputs);
    let None = hand else { unreachable!() };
    let Err(unclosed) = ended else {
        return Ok(Ending::Closed);
    };
    let Unclosed { ticket, refusal } = unclosed;
    book.give_up(sheet, ticket)?;
    Ok(Ending::GivenUp(refusal))
}
