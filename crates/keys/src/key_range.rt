//! A range of keys holds both its ends.
ghost use Rattle.std.specs.Prelude.{◌≡◌, not};
ghost use Rattle.std.specs.Ordering.{is_lt};
ghost use Rattle.keys.specs.KeyRange.{meets, inside, wider};

use crate::key_kind::KeyKind;
use std::cmp::{max_by, min_by};

/// The keys from `min` to `max`, both included.
#[derive(Clone, Copy, Default)]
pub struct KeyRange<K> {
    pub min: K,
    pub max: K,
}

impl<K: KeyKind> KeyRange<K> {
    /// Whether the max is not before the min.
    pub fn is_ordered(&self) -> bool
        ensures { result ≡ not (is_lt (K.ranks self.now.max self.now.min)) }
    {
        self.max.compare(&self.min).is_ge()
    }

    /// Whether it ends before the other begins.
    pub fn ends_before(&self, other: &KeyRange<K>) -> bool
        ensures { result ≡ is_lt (K.ranks self.now.max other.now.min) }
    {
        self.max.compare(&other.min).is_lt()
    }

    /// Whether the two ranges meet.
    pub fn overlaps_with_key_range(&self, other: &KeyRange<K>) -> bool
        ensures { result ≡ meets K.ranks self.now other.now }
    {
        !self.ends_before(other) && !other.ends_before(self)
    }

    /// Whether the other range lies inside this one.
    pub fn contains_range(&self, other: &KeyRange<K>) -> bool
        ensures { result ≡ inside K.ranks self.now other.now }
    {
        other.min.compare(&self.min).is_ge() && self.max.compare(&other.max).is_ge()
    }

    /// From the lesser min to the greater max of two ranges; where two ends are equal, its own.
    pub fn widen(&self, other: &KeyRange<K>) -> KeyRange<K>
        ensures { result ≡ wider K.ranks self.now other.now }
    {
        KeyRange {
            min: *min_by(&self.min, &other.min, |a, b| a.compare(b)),
            max: *max_by(&other.max, &self.max, |a, b| a.compare(b)),
        }
    }
}
