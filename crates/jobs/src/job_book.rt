//! The job book: how it is opened, what it shows, and its test. The calls on it stand in the other files.
ghost use Rattle.std.specs.Prelude.{◌≡◌, take, IfOk, Decides};
ghost use Rattle.books.specs.Booked.{SoundState, state_ok};
ghost use Rattle.jobs.specs.Open.{opened, open_book};
ghost use Rattle.jobs.specs.View.{state};

use keys::key_kind::KeyKind;
use refusals::refusal::Refusal;
use runs::table::Table;
use sheets::hidden_set::HiddenSet;
use sheets::sound::is_sound;
use slots::job::Job;
use slots::sound::{BookTest, MOST_JOBS};

/// Which tables are being compacted, by which jobs. The tables themselves stand in the caller's sheet.
#[derive(Drop)]
pub struct JobBook {
    pub(crate) standing: usize,
    pub(crate) blob_total: u64,
    pub(crate) hidden: HiddenSet,
    pub(crate) jobs: [Job; MOST_JOBS],
}

impl JobBook {
    /// Opens a book on a sheet of which the first `count` tables stand: nothing is hidden, and no job runs. Refused where the sheet is not sound.
    pub fn open<K: KeyKind>(
        sheet: &[Table<K>],
        count: usize,
        blob_total: u64,
    ) -> Result<JobBook, Refusal>
        ensures opens { opened sheet.now result ≡ open_book K.ranks sheet.now count blob_total }
        ensures sound { IfOk result (λ book. SoundState K.ranks (state book sheet.now)) }
    {
        if !is_sound(sheet, count, blob_total) {
            return Err(Refusal::NotSound);
        }
        Ok(JobBook {
            standing: count,
            blob_total,
            hidden: HiddenSet::new(),
            jobs: [Job::free(); MOST_JOBS],
        })
    }

    /// The tables that stand in the sheet.
    pub fn tables<'a, K>(&self, sheet: &'a [Table<K>]) -> &'a [Table<K>]
        ensures { result.now ≡ take self.now.standing sheet.now }
    {
        &sheet[..self.standing.min(sheet.len())]
    }

    /// The numbers of the hidden tables, in the order in which they were hidden.
    pub fn hidden(&self) -> &[u64]
        ensures { result.now ≡ self.now.hidden }
    {
        self.hidden.as_slice()
    }

    /// The slots for jobs.
    pub fn jobs(&self) -> &[Job]
        ensures { result.now ≡ self.now.jobs }
    {
        &self.jobs
    }

    /// Whether book and sheet are sound.
    pub fn is_sound<K: KeyKind>(&self, sheet: &[Table<K>]) -> bool
        ensures test { result ≡ state_ok K.ranks (state self.now sheet.now) }
        ensures words { Decides result (SoundState K.ranks (state self.now sheet.now)) }
    {
        is_sound(sheet, self.standing, self.blob_total)
            && BookTest {
                tables: &sheet[..self.standing],
                hidden_set: &self.hidden,
                jobs: &self.jobs,
            }
            .is_passed()
    }
}
