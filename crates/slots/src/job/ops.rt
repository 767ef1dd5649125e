//! What is asked of a slot, and how it changes.
ghost use Rattle.std.specs.Prelude.{◌≡◌, ℕ, ◌≤◌, not, List, length, is_some, Some, None};
ghost use Rattle.std.specs.List.{list_any};
ghost use Rattle.sheets.specs.Tables.{memb};
ghost use Rattle.books.specs.Job.{job_number, is_known};
ghost use Rattle.slots.specs.Job.{effect_of};
ghost use Rattle.slots.specs.Sound.{level_in};
ghost use Rattle.slots.specs.View.{job_over, slot, slot_as, numbers_in};

use crate::job::{Event, Job, Task};
use crate::sound::MOST_HIDDEN;

impl Task {
    /// The level that takes the tables of a move or a merge.
    pub fn dest_level(self) -> Option<u8>
        ensures { (numbers : List ℕ) → result ≡ level_in (Some (job_over self numbers)) }
    {
        match self {
            Task::Move(level) | Task::Merge(level) => Some(level),
            Task::Drop => None,
        }
    }
}

impl Job {
    /// A free slot.
    pub fn free() -> Job
        ensures { slot result ≡ None }
    {
        Job {
            state: None,
            numbers: [0u64; MOST_HIDDEN],
            count: 0,
        }
    }

    /// Whether the slot runs no job.
    pub fn is_free(&self) -> bool
        ensures { result ≡ not (is_some (slot self.now)) }
    {
        self.state.is_none()
    }

    /// The numbers of the job's tables, none for a free slot.
    pub fn numbers(&self) -> &[u64]
        ensures { result.now ≡ numbers_in (slot self.now) }
    {
        match self.state {
            None => &[],
            Some(_) => &self.numbers[..self.count],
        }
    }

    /// What the slot runs, if anything.
    pub fn state(&self) -> Option<Task>
        ensures { slot self.now ≡ slot_as result (numbers_in (slot self.now)) }
    {
        self.state
    }

    /// The level that takes the tables of a move or a merge.
    pub fn dest_level(&self) -> Option<u8>
        ensures { result ≡ level_in (slot self.now) }
    {
        let task = self.state?;
        task.dest_level()
    }

    /// Whether the slot runs the job of this number.
    pub fn is_known(&self, number: u64) -> bool
        ensures { result ≡ is_known number (slot self.now) }
    {
        !self.is_free() && smallest(self.numbers()) == number
    }

    // Whether two jobs have a table in common.
    pub(crate) fn shares_one_with(&self, other: &Job) -> bool
        ensures { result ≡ list_any (λ n. memb n (numbers_in (slot other.now))) (numbers_in (slot self.now)) }
    {
        let numbers = other.numbers();
        self.numbers().iter().any(|number| numbers.contains(number))
    }

    /// Starts a job over the tables of these numbers, or frees the slot. The book has few enough: hence the `requires`.
    pub fn start(&mut self, state: Option<Task>, numbers: &[u64])
        requires { length numbers.now ≤ 256 }
        ensures { slot self.new ≡ slot_as state numbers.now }
    {
        let count = numbers.len();
        self.numbers[0..count].copy_from_slice(numbers);
        self.count = count;
        self.state = state;
    }

    /// Ends the job: the slot is free. What is to be done with the tables, nothing where they stay.
    pub fn end(&mut self, event: Event) -> Option<Task>
        ensures effect { result ≡ effect_of self.old.state event }
        ensures free { slot self.new ≡ None }
    {
        match (self.state.take(), event) {
            (Some(task), Event::Close) => Some(task),
            (Some(_), Event::GiveUp) | (None, _) => None,
        }
    }
}

/// The smallest of some numbers, 0 where there is none: a job is known by its own.
pub fn smallest(numbers: &[u64]) -> u64
    ensures { result ≡ job_number numbers.now }
{
    numbers.iter().copied().min().unwrap_or(0)
}
