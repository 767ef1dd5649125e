//! Booking what a strategy chooses.
ghost use Rattle.std.specs.Prelude.{◌≡◌, ◌+◌, ◌<◌, ◌≤◌, map, length, set, Some, None};
ghost use Rattle.sheets.specs.HiddenSet.{hiding};
ghost use Rattle.strategies.specs.declared.choice.Choice.TheVariants.{DoNothing};
ghost use Rattle.strategies.specs.Answer.{Chosen, as_choice};
ghost use Rattle.books.specs.Book.{job_of};
ghost use Rattle.books.specs.Calls.{book};
ghost use Rattle.books.specs.Job.{job_number};
ghost use Rattle.slots.specs.View.{job_over, slot_as, slot};
ghost use Rattle.jobs.specs.Booking.{booked};
ghost use Rattle.jobs.specs.View.{state, left, question};

use crate::job_book::JobBook;
use crate::ticket::Ticket;
use keys::key_kind::KeyKind;
use refusals::refusal::Refusal;
use runs::table::Table;
use sheets::sound::MOST_TABLES;
use slots::job::Task;
use slots::job::ops::smallest;
use slots::sound::BookTest;
use strategies::choice::Choice;
use strategies::strategy::CompactionStrategy;

/// What was booked: the choice, and the right to end its job.
pub struct Booking {
    pub choice: Choice,
    pub ticket: Ticket,
}

impl JobBook {
    /// Asks a strategy and books what it chooses: its tables are hidden, and the job starts in the first free slot. The numbers are in the id sheet as `propose` leaves them.
    /// Refused, book and id sheet keep what they hold: first as the question is, then where the id sheet is too short, then where the choice names no table, then where one of them is hidden, then where its span is taken, then where the book is full.
    pub fn book<K: KeyKind, S: CompactionStrategy<K>>(
        &mut self,
        sheet: &[Table<K>],
        settings: &S::Settings,
        clock: u64,
        ids: &mut [u64],
    ) -> Result<Booking, Refusal>
        ensures { left (state self.new sheet.now) ids.new (booked result) ≡ book K.ranks (question S.CompactionStrategy.chooses settings.now self.old.blob_total clock) (state self.old sheet.now) ids.old }
    {
        let mut room = [0u64; MOST_TABLES];
        let choice = self.propose::<K, S>(sheet, settings, clock, &mut room)?;
        let numbers = &room[..choice.count()];
        let (front, _) = ids
            .split_at_mut_checked(numbers.len())
            .ok_or(Refusal::IdsTooShort)?;
        let task = task_of(choice).ok_or(Refusal::NamesNoTable)?;
        let test = BookTest {
            tables: &sheet[..self.standing],
            hidden_set: &self.hidden,
            jobs: &self.jobs,
        };
        let place = test.admit(task, numbers)?;
        front.copy_from_slice(numbers);
        Ok(Booking {
            choice,
            ticket: self.start(place, task, numbers),
        })
    }

    // Hides the tables of these numbers, and starts a job over them in the slot at this place. Its ticket.
    fn start(&mut self, place: usize, task: Task, numbers: &[u64]) -> Ticket
        requires within { place < 8 }
        requires few { length self.old.hidden + length numbers.now ≤ 256 }
        ensures ticket { result.number ≡ job_number numbers.now }
        ensures kept { (self.new.standing ≡ self.old.standing) × (self.new.blob_total ≡ self.old.blob_total) }
        ensures hidden { self.new.hidden ≡ hiding self.old.hidden numbers.now }
        ensures slots { map slot self.new.jobs ≡ set (map slot self.old.jobs) place (Some (job_over task numbers.now)) }
    {
        self.hidden.hide(numbers);
        let slot = &mut self.jobs[place];
        slot.start(Some(task), numbers);
        Ticket::of(smallest(numbers))
    }
}

// What is to be done with the tables that a choice names, if it names any.
fn task_of(choice: Choice) -> Option<Task>
    ensures none { choice ≡ DoNothing → result ≡ None }
    ensures job { (c : Chosen) → choice ≡ as_choice c.kind c → slot_as result c.numbers ≡ Some (job_of c) }
{
    match choice {
        Choice::DoNothing => None,
        Choice::Move(input) => Some(Task::Move(input.dest_level)),
        Choice::Merge(input) => Some(Task::Merge(input.dest_level)),
        Choice::Drop(_) => Some(Task::Drop),
    }
}
