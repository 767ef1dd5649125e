//! The interface of strategies.
ghost use Rattle.std.specs.Prelude.{◌≡◌, ℕ, ◌≤◌, List, length};
ghost use Rattle.runs.specs.declared.table.Table.{Table};
ghost use Rattle.strategies.specs.Answer.{Answer, returned, written};
ghost use Rattle.strategies.specs.Strategy.{Law};

use crate::choice::Choice;
use crate::declined::Declined;
use crate::snapshot::Snapshot;
use keys::key_kind::KeyKind;

/// What chooses tables to be moved, merged or dropped.
pub trait CompactionStrategy<K: KeyKind> {
    /// What the strategy is set to.
    type Settings;

    // What it answers: from its settings, the standing tables, the hidden numbers, the blob total and the clock.
    ghost chooses: { Self.Settings → List (Table K) → List ℕ → ℕ → ℕ → Answer };

    /// Asks about a snapshot, into an id sheet with a place for each of its tables: hence the `requires`.
    fn choose(
        settings: &Self::Settings,
        snapshot: &Snapshot<'_, K>,
        ids: &mut [u64],
    ) -> Result<Choice, Declined>
        requires room { length snapshot.now.tables.now ≤ length ids.old }
        ensures answer { result ≡ returned (chooses settings.now snapshot.now.tables.now snapshot.now.hidden_set.now snapshot.now.blob_total snapshot.now.clock) }
        ensures ids { ids.new ≡ written (chooses settings.now snapshot.now.tables.now snapshot.now.hidden_set.now snapshot.now.blob_total snapshot.now.clock) ids.old };

    ghost keeps: { (s : Self.Settings) (blobs clock : ℕ) → Law K.ranks (λ ts hs. chooses s ts hs blobs clock) };
}
