//! Asking a strategy about the book and its sheet.
ghost use Rattle.std.specs.Prelude.{◌≡◌, take, is_ok, IfOk, IsOkUnless};
ghost use Rattle.refusals.specs.declared.refusal.Refusal.TheVariants.{NotSound};
ghost use Rattle.books.specs.Booked.{state_ok};
ghost use Rattle.books.specs.Calls.{propose};
ghost use Rattle.jobs.specs.View.{state, left, question};

use crate::job_book::JobBook;
use keys::key_kind::KeyKind;
use refusals::refusal::Refusal;
use runs::table::Table;
use strategies::choice::Choice;
use strategies::question::ask;
use strategies::snapshot::Snapshot;
use strategies::strategy::CompactionStrategy;

impl JobBook {
    /// Asks a strategy: what it chooses, and the numbers of the tables in sheet order in the front of the id sheet, whose rest keeps its content.
    /// Refused, the id sheet keeps all of it: first where book and sheet are not sound, then as the strategy refuses, then where the id sheet is too short.
    pub fn propose<K: KeyKind, S: CompactionStrategy<K>>(
        &self,
        sheet: &[Table<K>],
        settings: &S::Settings,
        clock: u64,
        ids: &mut [u64],
    ) -> Result<Choice, Refusal>
        ensures { left (state self.now sheet.now) ids.new result ≡ propose K.ranks (question S.CompactionStrategy.chooses settings.now self.now.blob_total clock) (state self.now sheet.now) ids.old }
    {
        let snapshot = self.snapshot(sheet, clock)?;
        ask::<K, S>(settings, &snapshot, ids)
    }

    // What a strategy is asked about. Refused where book and sheet are not sound.
    pub(crate) fn snapshot<'a, K: KeyKind>(
        &'a self,
        sheet: &'a [Table<K>],
        clock: u64,
    ) -> Result<Snapshot<'a, K>, Refusal>
        ensures test { is_ok result ≡ state_ok K.ranks (state self.now sheet.now) }
        ensures refusal { IsOkUnless result NotSound }
        ensures shown { IfOk result (λ s. (s.tables.now ≡ take self.now.standing sheet.now) × (s.hidden_set.now ≡ self.now.hidden) × (s.blob_total ≡ self.now.blob_total) × (s.clock ≡ clock)) }
    {
        if !self.is_sound(sheet) {
            return Err(Refusal::NotSound);
        }
        Ok(Snapshot {
            tables: &sheet[..self.standing],
            hidden_set: &self.hidden,
            blob_total: self.blob_total,
            clock,
        })
    }
}
