//! Ending a job: closing it, or giving it up.
ghost use Rattle.std.specs.Prelude.{◌≡◌, true};
ghost use Rattle.std.specs.List.{position};
ghost use Rattle.sheets.specs.Edits.{laid};
ghost use Rattle.books.specs.Booked.{state_ok};
ghost use Rattle.books.specs.Calls.{close, give_up};
ghost use Rattle.books.specs.Close.{close as close_job};
ghost use Rattle.books.specs.Job.{is_known};
ghost use Rattle.books.specs.Leaves.{ClosesInWords};
ghost use Rattle.changes.specs.Close.{job};
ghost use Rattle.slots.specs.View.{job_over, slot};
ghost use Rattle.jobs.specs.Ending.{said, HandsBack};
ghost use Rattle.jobs.specs.View.{state};

use crate::job_book::JobBook;
use crate::ticket::Ticket;
use changes::close::RunningJob;
use keys::key_kind::KeyKind;
use refusals::refusal::Refusal;
use runs::fresh::Fresh;
use runs::table::Table;
use slots::job::{Event, Task};
use strategies::choice::Kind;

/// A close that was refused hands the ticket back.
pub struct Unclosed {
    pub ticket: Ticket,
    pub refusal: Refusal,
}

impl JobBook {
    /// Closes the ticket's job with its outputs: a move changes levels, a merge swaps its tables for the outputs, a drop removes them.
    /// Refused, book and sheet keep what they hold, and the ticket is handed back.
    pub fn close<K: KeyKind>(
        &mut self,
        sheet: &mut [Table<K>],
        ticket: Ticket,
        outputs: &[Fresh<K>],
    ) -> Result<(), Unclosed>
        ensures answer { (state self.new sheet.new, said result) ≡ close K.ranks ticket.number outputs.now (state self.old sheet.old) }
        ensures ticket { HandsBack ticket result }
        ensures rest { sheet.new ≡ laid (state self.new sheet.new).tables sheet.old }
        ensures words { ClosesInWords K.ranks }
    {
        match self.close_numbered(sheet, ticket.number(), outputs) {
            Ok(()) => {
                ticket.spent();
                Ok(())
            }
            Err(refusal) => Err(Unclosed { ticket, refusal }),
        }
    }

    /// Gives the ticket's job up: its tables stay as they are and are shown again. The ticket is taken in, refused or not.
    pub fn give_up<K: KeyKind>(&mut self, sheet: &[Table<K>], ticket: Ticket) -> Result<(), Refusal>
        ensures { (state self.new sheet.now, result) ≡ give_up K.ranks ticket.number (state self.old sheet.now) }
    {
        self.give_up_numbered(sheet, ticket.spent())
    }

    // Closes the job of this number.
    pub(crate) fn close_numbered<K: KeyKind>(
        &mut self,
        sheet: &mut [Table<K>],
        number: u64,
        outputs: &[Fresh<K>],
    ) -> Result<(), Refusal>
        ensures answer { (state self.new sheet.new, result) ≡ close K.ranks number outputs.now (state self.old sheet.old) }
        ensures rest { sheet.new ≡ laid (state self.new sheet.new).tables sheet.old }
    {
        if !self.is_sound(sheet) {
            return Err(Refusal::NotSound);
        }
        self.close_tested(sheet, number, outputs)
    }

    // Closes the job of this number, where book and sheet were tested. What is done with its tables is what its slot says; refused, the slot runs it again.
    fn close_tested<K: KeyKind>(
        &mut self,
        sheet: &mut [Table<K>],
        number: u64,
        outputs: &[Fresh<K>],
    ) -> Result<(), Refusal>
        requires { state_ok K.ranks (state self.old sheet.old) ≡ true }
        ensures answer { (state self.new sheet.new, result) ≡ close_job K.ranks number outputs.now (state self.old sheet.old) }
        ensures rest { sheet.new ≡ laid (state self.new sheet.new).tables sheet.old }
    {
        let place = self.place_of(number).ok_or(Refusal::NoSuchJob)?;
        let slot = &mut self.jobs[place];
        let job = *slot;
        let Some(task) = slot.end(Event::Close) else {
            unreachable!()
        };
        match running_job(task, job.numbers()).close(outputs, sheet, self.standing) {
            Ok(standing) => {
                self.standing = standing;
                self.hidden.show(job.numbers());
                Ok(())
            }
            Err(refusal) => {
                *slot = job;
                Err(refusal)
            }
        }
    }

    // Gives the job of this number up.
    pub(crate) fn give_up_numbered<K: KeyKind>(
        &mut self,
        sheet: &[Table<K>],
        number: u64,
    ) -> Result<(), Refusal>
        ensures { (state self.new sheet.now, result) ≡ give_up K.ranks number (state self.old sheet.now) }
    {
        if !self.is_sound(sheet) {
            return Err(Refusal::NotSound);
        }
        let place = self.place_of(number).ok_or(Refusal::NoSuchJob)?;
        let slot = &mut self.jobs[place];
        let job = *slot;
        slot.end(Event::GiveUp);
        self.hidden.show(job.numbers());
        Ok(())
    }

    // The place of the slot that runs the job of this number.
    fn place_of(&self, number: u64) -> Option<usize>
        ensures { result ≡ position (λ job. is_known number (slot job)) self.now.jobs }
    {
        self.jobs.iter().position(|job| job.is_known(number))
    }
}

// The job that does this with the tables of these numbers.
fn running_job(task: Task, numbers: &[u64]) -> RunningJob
    ensures { job result ≡ job_over task numbers.now }
{
    let (kind, destination) = match task {
        Task::Move(level) => (Kind::Move, level),
        Task::Merge(level) => (Kind::Merge, level),
        Task::Drop => (Kind::Drop, 0),
    };
    RunningJob {
        kind,
        destination,
        numbers,
    }
}
