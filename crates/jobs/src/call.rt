//! A call on a book as a value, and the reply to it.
ghost use Rattle.std.specs.Prelude.{◌≡◌};
ghost use Rattle.sheets.specs.Edits.{laid};
ghost use Rattle.books.specs.Calls.{book};
ghost use Rattle.books.specs.Deed.{perform, numbers_in};
ghost use Rattle.jobs.specs.Call.{deed, as_booking, replied};
ghost use Rattle.jobs.specs.View.{state, left, question};

use crate::booking::Booking;
use crate::job_book::JobBook;
use keys::key_kind::KeyKind;
use refusals::refusal::Refusal;
use runs::fresh::Fresh;
use runs::table::Table;
use strategies::choice::Choice;
use strategies::strategy::CompactionStrategy;

/// What a strategy is asked with: its settings, and the time in nanoseconds.
#[derive(Clone, Copy)]
pub struct Query<S> {
    pub settings: S,
    pub clock: u64,
}

/// A call on an open book. A job is named by the number of its ticket.
#[derive(Clone, Copy)]
pub enum Call<'a, K, S> {
    Land(Fresh<K>),
    Propose(Query<S>),
    LookAhead(Query<S>),
    Book(Query<S>),
    Close {
        ticket: u64,
        outputs: &'a [Fresh<K>],
    },
    GiveUp(u64),
}

/// What was booked.
#[derive(Clone, Copy)]
pub struct Booked {
    pub choice: Choice,
    /// The number of the ticket.
    pub ticket: u64,
}

/// What a call returned. The numbers of the tables of a choice are in the id sheet.
#[derive(Clone, Copy)]
pub enum Reply {
    /// To a call that asks no strategy.
    Ended(Result<(), Refusal>),
    /// To a question, and to a look ahead.
    Chosen(Result<Choice, Refusal>),
    /// To a booking.
    Booked(Result<Booked, Refusal>),
}

impl JobBook {
    /// Makes a call. A call that asks no strategy leaves the id sheet as it is. Whoever makes calls as values names jobs by their numbers, and no ticket guards them.
    pub fn perform<K: KeyKind, S: CompactionStrategy<K>>(
        &mut self,
        sheet: &mut [Table<K>],
        call: &Call<'_, K, S::Settings>,
        ids: &mut [u64],
    ) -> Reply
        ensures answer { (state self.new sheet.new, replied result ids.new) ≡ perform K.ranks (deed S.CompactionStrategy.chooses self.old.blob_total call.now ids.old) (state self.old sheet.old) }
        ensures rest { sheet.new ≡ laid (state self.new sheet.new).tables sheet.old }
        ensures ids { ids.new ≡ laid (numbers_in (replied result ids.new)) ids.old }
    {
        match call {
            Call::Land(fresh) => Reply::Ended(self.land(sheet, fresh)),
            Call::Propose(query) => {
                Reply::Chosen(self.propose::<K, S>(sheet, &query.settings, query.clock, ids))
            }
            Call::LookAhead(query) => {
                Reply::Chosen(self.look_ahead::<K, S>(sheet, &query.settings, query.clock, ids))
            }
            Call::Book(query) => Reply::Booked(self.book_recorded::<K, S>(sheet, query, ids)),
            Call::Close { ticket, outputs } => {
                Reply::Ended(self.close_numbered(sheet, *ticket, outputs))
            }
            Call::GiveUp(ticket) => Reply::Ended(self.give_up_numbered(sheet, *ticket)),
        }
    }

    // Books what a strategy chooses. The ticket is taken in, and its number stays.
    fn book_recorded<K: KeyKind, S: CompactionStrategy<K>>(
        &mut self,
        sheet: &[Table<K>],
        query: &Query<S::Settings>,
        ids: &mut [u64],
    ) -> Result<Booked, Refusal>
        ensures { left (state self.new sheet.now) ids.new (as_booking result) ≡ book K.ranks (question S.CompactionStrategy.chooses query.now.settings self.old.blob_total query.now.clock) (state self.old sheet.now) ids.old }
    {
        let booking = self.book::<K, S>(sheet, &query.settings, query.clock, ids)?;
        let Booking { choice, ticket } = booking;
        Ok(Booked {
            choice,
            ticket: ticket.spent(),
        })
    }
}
