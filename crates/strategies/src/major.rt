//! Major: every table is merged into the last level.
ghost use Rattle.strategies.specs.Major.{major};
ghost use Rattle.strategies.specs.Laws.{major_lawful};

use crate::choice::{Choice, Input};
use crate::declined::Declined;
use crate::naming::name_those;
use crate::snapshot::Snapshot;
use crate::strategy::CompactionStrategy;
use keys::key_kind::KeyKind;
use sheets::level::has_hidden;
use sheets::sound::LAST_LEVEL;

/// The settings of major.
#[derive(Clone, Copy)]
pub struct MajorSettings {
    /// The size at which the tables of the merge are to be cut.
    pub target_size: u64,
}

/// Major compaction.
#[derive(Clone, Copy)]
pub struct Major;

impl<K: KeyKind> CompactionStrategy<K> for Major {
    type Settings = MajorSettings;

    ghost chooses = { λ s ts hs blobs clock. major s.target_size ts hs };

    ghost keeps = { λ s blobs clock. major_lawful K.ranks s.target_size };

    fn choose(
        settings: &MajorSettings,
        snapshot: &Snapshot<'_, K>,
        ids: &mut [u64],
    ) -> Result<Choice, Declined> {
        if has_hidden(snapshot.tables, snapshot.hidden_set) {
            return Ok(Choice::DoNothing);
        }
        Ok(Choice::Merge(Input {
            tables: name_those(snapshot.tables, |_| true, ids),
            dest_level: LAST_LEVEL,
            canonical_level: LAST_LEVEL,
            target_size: settings.target_size,
        }))
    }
}
