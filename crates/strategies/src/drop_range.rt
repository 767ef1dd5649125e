//! Range drop: all tables that lie wholly inside two bounds.
ghost use Rattle.keys.specs.Bounds.{within};
ghost use Rattle.strategies.specs.DropRange.{drop_range};
ghost use Rattle.strategies.specs.Laws.{drop_range_lawful};

use crate::choice::Choice;
use crate::declined::Declined;
use crate::naming::{Picks, has_hidden_passing, name_passing};
use crate::snapshot::Snapshot;
use crate::strategy::CompactionStrategy;
use keys::bounds::OwnedBounds;
use keys::key_kind::KeyKind;
use runs::table::Table;

impl<K: KeyKind> Picks<K> for OwnedBounds<K> {
    ghost passes = { λ bounds t. within K.ranks bounds t.range };

    fn picks(&self, table: &Table<K>) -> bool {
        self.contains(&table.range)
    }
}

/// Range drop. Its settings are the bounds.
#[derive(Clone, Copy)]
pub struct DropRange;

impl<K: KeyKind> CompactionStrategy<K> for DropRange {
    type Settings = OwnedBounds<K>;

    ghost chooses = { λ bounds ts hs blobs clock. drop_range K.ranks bounds ts hs };

    ghost keeps = { λ s blobs clock. drop_range_lawful K.ranks s };

    fn choose(
        bounds: &OwnedBounds<K>,
        snapshot: &Snapshot<'_, K>,
        ids: &mut [u64],
    ) -> Result<Choice, Declined> {
        if has_hidden_passing(snapshot.tables, bounds, snapshot.hidden_set) {
            return Ok(Choice::DoNothing);
        }
        Ok(Choice::Drop(name_passing(snapshot.tables, bounds, ids)))
    }
}
