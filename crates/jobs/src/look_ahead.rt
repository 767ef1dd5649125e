//! Looking ahead: what a strategy would choose next.
ghost use Rattle.std.specs.Prelude.{◌≡◌, ◌≤◌, length, take};
ghost use Rattle.sheets.specs.HiddenSet.{hiding};
ghost use Rattle.books.specs.Calls.{look_ahead};
ghost use Rattle.jobs.specs.View.{state, left, question};

use crate::job_book::JobBook;
use keys::key_kind::KeyKind;
use refusals::refusal::Refusal;
use runs::table::Table;
use sheets::hidden_set::HiddenSet;
use sheets::sound::MOST_TABLES;
use strategies::choice::Choice;
use strategies::question::ask;
use strategies::snapshot::Snapshot;
use strategies::strategy::CompactionStrategy;

// Hides tables for as long as it lives: at its end it shows those that it hid, and no others.
struct Ahead<'a> {
    hidden_set: &'a mut HiddenSet,
    // How many tables were hidden before.
    before: usize,
}

impl<'a> Ahead<'a> {
    // Hides the tables of these numbers that are not hidden yet. In a sound book they fit: hence the `requires`.
    fn hide(hidden_set: &'a mut HiddenSet, numbers: &[u64]) -> Ahead<'a>
        requires fits { length (hiding hidden_set.old numbers.now) ≤ 1024 }
        ensures same_reference { result.hidden_set.ghost_name ≡ hidden_set.entry.ghost_name }
        ensures before { result.before ≡ length hidden_set.old }
        ensures hidden { result.hidden_set.now ≡ hiding hidden_set.old numbers.now }
    {
        let before = hidden_set.len();
        let fits = hidden_set.hide(numbers);
        prove!(fits);
        Ahead { hidden_set, before }
    }
}

impl Drop for Ahead<'_> {
    fn drop(self)
        ensures { self.exit.0.now ≡ take self.entry.before self.entry.hidden_set.now }
    {
        let Ahead { hidden_set, before } = self;
        hidden_set.truncate(before);
    }
}

impl JobBook {
    /// Asks a strategy twice, the second time with the tables of the first choice hidden too: what it then chooses, with the numbers in the id sheet as `propose` leaves them. Nothing stays hidden that was not.
    /// Refused, the id sheet keeps all of it: first as the first question is, the short id sheet aside, then as the second is.
    pub fn look_ahead<K: KeyKind, S: CompactionStrategy<K>>(
        &mut self,
        sheet: &[Table<K>],
        settings: &S::Settings,
        clock: u64,
        ids: &mut [u64],
    ) -> Result<Choice, Refusal>
        ensures { left (state self.new sheet.now) ids.new result ≡ look_ahead K.ranks (question S.CompactionStrategy.chooses settings.now self.old.blob_total clock) (state self.old sheet.now) ids.old }
    {
        let mut room = [0u64; MOST_TABLES];
        let choice = self.propose::<K, S>(sheet, settings, clock, &mut room)?;
        let ahead = Ahead::hide(&mut self.hidden, &room[..choice.count()]);
        let snapshot = Snapshot {
            tables: &sheet[..self.standing],
            hidden_set: ahead.hidden_set,
            blob_total: self.blob_total,
            clock,
        };
        ask::<K, S>(settings, &snapshot, ids)
    }
}
