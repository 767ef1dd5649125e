//! A table that is to come in: it has no level and no run yet.
ghost use Rattle.std.specs.Prelude.{◌≡◌};
ghost use Rattle.runs.specs.Fresh.{settled};

use crate::ranged::{Ranged, TableFile};
use crate::table::Table;
use keys::key_kind::KeyKind;
use keys::key_range::KeyRange;

/// A merge's output, or a table to land.
#[derive(Clone, Copy)]
pub struct Fresh<K> {
    pub number: u64,
    pub range: KeyRange<K>,
    pub size: u64,
    pub created: u64,
    pub linked: u64,
}

impl<K: Copy> Fresh<K> {
    /// The table at a level and run.
    pub fn at(&self, level: u8, run: u16) -> Table<K>
        ensures { result ≡ settled level run self.now }
    {
        let Fresh {
            number,
            range,
            size,
            created,
            linked,
        } = *self;
        Table {
            number,
            level,
            run,
            range,
            size,
            created,
            linked,
        }
    }
}

impl<K: KeyKind> Ranged for Fresh<K> {
    type Key = K;

    ghost spans = { λ t. t.range };

    fn key_range(&self) -> &KeyRange<K> {
        &self.range
    }
}

impl<K: KeyKind> TableFile for Fresh<K> {
    ghost named = { λ t. t.number };

    ghost bytes = { λ t. t.size };

    fn id(&self) -> u64 {
        self.number
    }

    fn file_size(&self) -> u64 {
        self.size
    }
}
