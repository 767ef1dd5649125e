//! A standing table.
use crate::ranged::{Ranged, TableFile};
use keys::key_kind::KeyKind;
use keys::key_range::KeyRange;

/// The record of a standing table.
#[derive(Clone, Copy, Default)]
pub struct Table<K> {
    pub number: u64,
    /// 0 to 6.
    pub level: u8,
    /// Which run of its level.
    pub run: u16,
    pub range: KeyRange<K>,
    /// The size of its file in bytes.
    pub size: u64,
    /// When it was created, in nanoseconds.
    pub created: u64,
    /// The bytes of the blobs that it links to, 0 where unknown.
    pub linked: u64,
}

impl<K: KeyKind> Ranged for Table<K> {
    type Key = K;

    ghost spans = { λ t. t.range };

    fn key_range(&self) -> &KeyRange<K> {
        &self.range
    }
}

impl<K: KeyKind> TableFile for Table<K> {
    ghost named = { λ t. t.number };

    ghost bytes = { λ t. t.size };

    fn id(&self) -> u64 {
        self.number
    }

    fn file_size(&self) -> u64 {
        self.size
    }
}
