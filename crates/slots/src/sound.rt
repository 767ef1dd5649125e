//! The test of a book: whether hidden numbers and running jobs are sound with the standing tables.
ghost use Rattle.std.specs.Prelude.{◌≡◌, ◌≤◌, ◌&&◌, map, length, filter, nat_le};
ghost use Rattle.std.specs.List.{list_any, list_all};
ghost use Rattle.runs.specs.Run.{span_of};
ghost use Rattle.sheets.specs.Sound.{distinct};
ghost use Rattle.sheets.specs.Tables.{memb, named};
ghost use Rattle.strategies.specs.Strategy.{spans_meet};
ghost use Rattle.books.specs.Booked.{pairs_by, kind_ok, job_ok, jobs_apart, book_ok};
ghost use Rattle.books.specs.Job.{running};
ghost use Rattle.slots.specs.Held.{clear_by};
ghost use Rattle.slots.specs.Sound.{taken, owned, free_or, free_or_so, level_in, same_level, span_in, apart_by};
ghost use Rattle.slots.specs.View.{slot, job_over, numbers_in};

use crate::job::{Job, Task};
use edits::records::{has_number, span_held};
use keys::key_kind::KeyKind;
use keys::key_range::KeyRange;
use runs::table::Table;
use sheets::hidden_set::HiddenSet;
use sheets::sound::{LAST_LEVEL, numbers_differ};
use strategies::spans::spans_meet;

/// The most tables that running jobs may hide together.
pub const MOST_HIDDEN: usize = 256;

/// The most jobs that may run at a time.
pub const MOST_JOBS: usize = 8;

/// What the test looks at: the standing tables of a sheet that was tested, the hidden numbers and the slots.
#[derive(Drop)]
pub struct BookTest<'a, K> {
    pub tables: &'a [Table<K>],
    pub hidden_set: &'a HiddenSet,
    pub jobs: &'a [Job],
    pub ghost few: { length tables.now ≤ 1024 },
    pub ghost eight: { length jobs.now ≡ 8 },
}

impl<'a, K: KeyKind> BookTest<'a, K> {
    /// Whether hidden numbers and jobs are sound with the standing tables.
    pub fn is_passed(&self) -> bool
        ensures { result ≡ book_ok K.ranks self.now.tables.now self.now.hidden_set.now (running (map slot self.now.jobs.now)) }
    {
        self.are_owned() && self.are_lawful()
    }

    // Whether the hidden numbers are not too many, differ, and each stands and is a running job's.
    fn are_owned(&self) -> bool
        ensures { result ≡ owned self.now.tables.now self.now.jobs.now self.now.hidden_set.now }
    {
        let numbers = self.hidden_set.as_slice();
        numbers.len() <= MOST_HIDDEN && are_distinct(numbers) && self.are_taken(numbers)
    }

    // Whether each of the numbers stands and is a running job's.
    fn are_taken(&self, numbers: &[u64]) -> bool
        ensures { result ≡ list_all (taken self.now.tables.now self.now.jobs.now) numbers.now }
    {
        numbers.iter().all(|number| has_number(self.tables, *number) && self.is_taken(*number))
    }

    // Whether a running job has the table of this number.
    fn is_taken(&self, number: u64) -> bool
        ensures { result ≡ list_any (λ job. memb number (numbers_in (slot job))) self.now.jobs.now }
    {
        self.jobs.iter().any(|job| job.numbers().contains(&number))
    }

    // Whether each job is kept, and each two of them are apart.
    fn are_lawful(&self) -> bool
        ensures { result ≡ (list_all (λ job. free_or (job_ok K.ranks self.now.tables.now self.now.hidden_set.now) (slot job)) self.now.jobs.now && pairs_by (λ a b. free_or_so (jobs_apart K.ranks self.now.tables.now) (slot a) (slot b)) self.now.jobs.now) }
    {
        self.are_kept() && self.all_apart()
    }

    // Whether each job is kept.
    fn are_kept(&self) -> bool
        ensures { result ≡ list_all (λ job. free_or (job_ok K.ranks self.now.tables.now self.now.hidden_set.now) (slot job)) self.now.jobs.now }
    {
        self.jobs.iter().all(|job| self.is_kept(job))
    }

    // Whether the job of a slot, if any, has a table, all its tables are hidden, and it keeps what its kind asks.
    fn is_kept(&self, job: &Job) -> bool
        ensures { result ≡ free_or (job_ok K.ranks self.now.tables.now self.now.hidden_set.now) (slot job.now) }
    {
        let numbers = job.numbers();
        match job.state() {
            Some(task) => {
                !numbers.is_empty()
                    && self.are_hidden(numbers)
                    && self.keeps_its_kind(task, numbers)
            }
            None => true,
        }
    }

    // Whether each of the numbers is hidden.
    fn are_hidden(&self, numbers: &[u64]) -> bool
        ensures { result ≡ list_all (λ n. memb n self.now.hidden_set.now) numbers.now }
    {
        numbers
            .iter()
            .all(|number| self.hidden_set.is_hidden(*number))
    }

    // Whether what is done with the tables of these numbers keeps what its kind asks.
    fn keeps_its_kind(&self, task: Task, numbers: &[u64]) -> bool
        ensures { result ≡ kind_ok K.ranks self.now.tables.now (job_over task numbers.now) (job_over task numbers.now).kind }
    {
        match task {
            Task::Move(level) => self.has_free_way(level, numbers) && self.are_apart(numbers),
            Task::Merge(level) => self.has_free_way(level, numbers),
            Task::Drop => true,
        }
    }

    // Whether the level is one from 1 to 6 in which only the tables of these numbers meet their span.
    fn has_free_way(&self, level: u8, numbers: &[u64]) -> bool
        ensures { result ≡ (nat_le 1 level && (nat_le level 6 && list_all (clear_by K.ranks level numbers.now (span_of K.ranks (λ t. t.range) (filter (named numbers.now) self.now.tables.now))) self.now.tables.now)) }
    {
        (1..=LAST_LEVEL).contains(&level)
            && self.are_clear(level, numbers, span_held(self.tables, numbers))
    }

    // Whether each two of the jobs are apart.
    fn all_apart(&self) -> bool
        ensures { result ≡ pairs_by (λ a b. free_or_so (jobs_apart K.ranks self.now.tables.now) (slot a) (slot b)) self.now.jobs.now }
    {
        let mut rest = self.jobs;
        while let Some((job, others)) = rest.split_first() {
            if !self.is_apart(job, others) {
                return false;
            }
            rest = others;
        }
        true
    }

    // Whether a job is apart from each of the others.
    fn is_apart(&self, job: &Job, others: &[Job]) -> bool
        ensures { result ≡ list_all (λ other. free_or_so (jobs_apart K.ranks self.now.tables.now) (slot job.now) (slot other)) others.now }
    {
        let span = self.job_span(job);
        others
            .iter()
            .all(|other| self.are_two_apart(job, span, other))
    }

    // Whether two jobs have no table in common and do not cross; the span is of the first's tables.
    fn are_two_apart(&self, job: &Job, span: Option<KeyRange<K>>, other: &Job) -> bool
        ensures { result ≡ apart_by K.ranks self.now.tables.now span (slot job.now) (slot other.now) }
    {
        !job.shares_one_with(other) && !self.crosses(job.dest_level(), span, other)
    }

    // Whether a job goes to this level, if there is one, and the span of its tables meets this one.
    pub(crate) fn crosses(&self, level: Option<u8>, span: Option<KeyRange<K>>, other: &Job) -> bool
        ensures { result ≡ (same_level level (level_in (slot other.now)) && spans_meet K.ranks span (span_in K.ranks self.now.tables.now (slot other.now))) }
    {
        level.is_some() && level == other.dest_level() && spans_meet(span, self.job_span(other))
    }

    // The span of a job's tables.
    fn job_span(&self, job: &Job) -> Option<KeyRange<K>>
        ensures { result ≡ span_in K.ranks self.now.tables.now (slot job.now) }
    {
        span_held(self.tables, job.numbers())
    }
}

// Whether no number stands twice, asked of a copy, which is sorted.
fn are_distinct(numbers: &[u64]) -> bool
    requires { length numbers.now ≤ 256 }
    ensures { result ≡ distinct numbers.now }
{
    let mut room = [0u64; MOST_HIDDEN];
    let copy = &mut room[..numbers.len()];
    copy.copy_from_slice(numbers);
    numbers_differ(copy)
}
