//! Whether a job can start.
ghost use Rattle.std.specs.Prelude.{◌≡◌, ◌+◌, ◌&&◌, map, length, Some, None, if◌then◌else◌, nat_le, nat_lt};
ghost use Rattle.std.specs.List.{list_any, position};
ghost use Rattle.sheets.specs.Tables.{named};
ghost use Rattle.strategies.specs.Fifo.{place_of};
ghost use Rattle.books.specs.Booked.{crosses};
ghost use Rattle.books.specs.Job.{running};
ghost use Rattle.slots.specs.Admitted.{is_free, admitted};
ghost use Rattle.slots.specs.View.{slot, job_over};

use crate::job::Task;
use crate::sound::{BookTest, MOST_HIDDEN};
use edits::records::span_held;
use keys::key_kind::KeyKind;
use refusals::refusal::Refusal;

impl<'a, K: KeyKind> BookTest<'a, K> {
    /// The place of the slot in which a job over the tables of these numbers can start.
    /// Refused, in this order, where there are none, where one is hidden, where the span of a move or a merge meets that of a running one to the same level, and where there is no slot or too many would be hidden.
    pub fn admit(&self, task: Task, numbers: &[u64]) -> Result<usize, Refusal>
        ensures { result ≡ admitted K.ranks self.now.tables.now self.now.hidden_set.now (map slot self.now.jobs.now) (job_over task numbers.now) }
    {
        if numbers.is_empty() {
            return Err(Refusal::NamesNoTable);
        }
        if let Some(place) = self.first_hidden(numbers) {
            return Err(Refusal::AlreadyHidden(place));
        }
        if self.is_span_taken(task, numbers) {
            return Err(Refusal::SpanTaken);
        }
        self.free_place(numbers.len()).ok_or(Refusal::BookFull)
    }

    // The place of the first of the tables of these numbers that is hidden.
    fn first_hidden(&self, numbers: &[u64]) -> Option<usize>
        ensures { result ≡ position (λ t. named numbers.now t && named self.now.hidden_set.now t) self.now.tables.now }
    {
        self.tables.iter().position(|t| numbers.contains(&t.number)
            && self.hidden_set.is_hidden(t.number))
    }

    // Whether a running job crosses one that does this with the tables of these numbers.
    fn is_span_taken(&self, task: Task, numbers: &[u64]) -> bool
        ensures { result ≡ list_any (crosses K.ranks self.now.tables.now (job_over task numbers.now)) (running (map slot self.now.jobs.now)) }
    {
        let level = task.dest_level();
        let span = span_held(self.tables, numbers);
        self.jobs.iter().any(|job| self.crosses(level, span, job))
    }

    // The place of the first free slot, where so many tables more can be hidden.
    fn free_place(&self, count: usize) -> Option<usize>
        ensures { result ≡ (if nat_lt (length (running (map slot self.now.jobs.now))) 8 && nat_le (length self.now.hidden_set.now + count) 256 then Some (place_of is_free (map slot self.now.jobs.now)) else None) }
    {
        if self.hidden_set.len().saturating_add(count) > MOST_HIDDEN {
            return None;
        }
        self.jobs.iter().position(|job| job.is_free())
    }
}
