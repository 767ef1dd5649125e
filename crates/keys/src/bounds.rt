//! Two bounds on keys: each includes its key, excludes it, or is none.
ghost use Rattle.std.specs.Prelude.{◌≡◌};
ghost use Rattle.keys.specs.Bounds.{starts_by, ends_by, within};

use crate::key_kind::KeyKind;
use crate::key_range::KeyRange;
use std::ops::Bound;

/// Where the keys begin, and where they end.
#[derive(Clone, Copy)]
pub struct OwnedBounds<K> {
    pub start: Bound<K>,
    pub end: Bound<K>,
}

impl<K: KeyKind> OwnedBounds<K> {
    /// Whether the range lies wholly between the bounds.
    pub fn contains(&self, range: &KeyRange<K>) -> bool
        ensures { result ≡ within K.ranks self.now range.now }
    {
        self.starts_by(&range.min) && self.ends_by(&range.max)
    }

    // Whether the key is not before the start.
    fn starts_by(&self, key: &K) -> bool
        ensures { result ≡ starts_by K.ranks self.now.start key.now }
    {
        match &self.start {
            Bound::Unbounded => true,
            Bound::Included(first) => key.compare(first).is_ge(),
            Bound::Excluded(before) => before.compare(key).is_lt(),
        }
    }

    // Whether the key is not behind the end.
    fn ends_by(&self, key: &K) -> bool
        ensures { result ≡ ends_by K.ranks self.now.end key.now }
    {
        match &self.end {
            Bound::Unbounded => true,
            Bound::Included(last) => last.compare(key).is_ge(),
            Bound::Excluded(behind) => key.compare(behind).is_lt(),
        }
    }
}
