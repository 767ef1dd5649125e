//! FIFO: tables leave by age, in the order in which they came.
ghost use Rattle.std.specs.Prelude.{◌≡◌, position};
ghost use Rattle.strategies.specs.Fifo.{hidden_first, expired, expired_first, live, left_over, fifo};
ghost use Rattle.strategies.specs.Laws.{fifo_lawful};

use crate::choice::Choice;
use crate::declined::Declined;
use crate::naming::name_those;
use crate::snapshot::Snapshot;
use crate::strategy::CompactionStrategy;
use keys::key_kind::KeyKind;
use runs::table::Table;
use sheets::hidden_set::HiddenSet;
use sheets::level::{level, run_count, size};

// A second in nanoseconds.
const SECOND: u64 = 1_000_000_000;

// How many runs level 0 may have.
const MOST_RUNS: usize = 1;

/// The settings of FIFO.
#[derive(Clone, Copy)]
pub struct FifoSettings {
    /// The most bytes that level 0 and its blobs may have.
    pub limit: u64,
    /// The time to live in seconds, 0 for none.
    pub ttl_seconds: u64,
}

/// FIFO compaction.
#[derive(Clone, Copy)]
pub struct Fifo;

impl FifoSettings {
    /// Whether the table was created at least the time to live before the clock.
    pub fn is_expired<K>(&self, table: &Table<K>, clock: u64) -> bool
        ensures { result ≡ expired self.now.ttl_seconds clock table.now }
    {
        self.ttl_seconds > 0
            && table.created <= clock
            && (clock - table.created) / SECOND >= self.ttl_seconds
    }

    // Whether the table is one of level 0 that has expired.
    fn is_due<K>(&self, table: &Table<K>, clock: u64) -> bool
        ensures { result ≡ expired_first self.now.ttl_seconds clock table.now }
    {
        table.level == 0 && self.is_expired(table, clock)
    }

    /// Whether the table is one of level 0 that has not expired.
    pub fn is_live<K>(&self, table: &Table<K>, clock: u64) -> bool
        ensures { result ≡ live self.now.ttl_seconds clock table.now }
    {
        table.level == 0 && !self.is_expired(table, clock)
    }

    // What is left of level 0's sizes and the blob total without what has expired, down to 0.
    fn left_over<K: KeyKind>(&self, snapshot: &Snapshot<'_, K>) -> u64
        ensures { result ≡ left_over self.now.ttl_seconds snapshot.now.clock snapshot.now.blob_total snapshot.now.tables.now }
    {
        let whole = size(level(snapshot.tables, 0).tables) + snapshot.blob_total;
        snapshot
            .tables
            .iter()
            .filter(|t| self.is_due(t, snapshot.clock))
            .fold(
                whole,
                |left, t| left.saturating_sub(t.size).saturating_sub(t.linked),
            )
    }
}

// The place of the first hidden table of level 0.
fn first_hidden<K>(tables: &[Table<K>], hidden_set: &HiddenSet) -> Option<usize>
    ensures { result ≡ position (hidden_first hidden_set.now) tables.now }
{
    tables
        .iter()
        .position(|t| t.level == 0 && hidden_set.is_hidden(t.number))
}

impl<K: KeyKind> CompactionStrategy<K> for Fifo {
    type Settings = FifoSettings;

    ghost chooses = { λ s ts hs blobs clock. fifo s.limit s.ttl_seconds blobs clock ts hs };

    ghost keeps = { λ s blobs clock. fifo_lawful K.ranks s.limit s.ttl_seconds blobs clock };

    fn choose(
        settings: &FifoSettings,
        snapshot: &Snapshot<'_, K>,
        ids: &mut [u64],
    ) -> Result<Choice, Declined> {
        if level(snapshot.tables, 0).tables.is_empty() {
            return Ok(Choice::DoNothing);
        }
        if run_count(snapshot.tables) > MOST_RUNS {
            return Err(Declined::ManyRuns);
        }
        if let Some(place) = first_hidden(snapshot.tables, snapshot.hidden_set) {
            return Err(Declined::HiddenTable(place));
        }
        let (tables, clock) = (snapshot.tables, snapshot.clock);
        let left = settings.left_over(snapshot);
        let named = name_those(tables, |t| settings.drops(tables, clock, left, t), ids);
        if named.count == 0 {
            return Ok(Choice::DoNothing);
        }
        Ok(Choice::Drop(named))
    }
}
