//! Tables that are known to be a run. No question about them can fail.
ghost use Rattle.std.specs.Prelude.{◌≡◌, ◌-◌, ◌≤◌, true, length, take, drop, count_by, filter};
ghost use Rattle.keys.specs.KeyRange.{meets, inside};
ghost use Rattle.runs.specs.Run.{sorted, span_of};
ghost use Rattle.runs.specs.Search.{ends_before, ends_by, begins_before, begins_by};

use crate::ranged::Ranged;
use crate::run::Stretch;
use keys::key_kind::KeyKind;
use keys::key_range::KeyRange;

/// Tables lent that are a run: no max is before its min, and each table ends before the next begins.
#[derive(Drop)]
pub struct SortedRun<'a, T: Ranged> {
    pub tables: &'a [T],
    ghost sorted: { sorted T.Key.ranks T.spans tables.now ≡ true },
}

impl<'a, T: Ranged> SortedRun<'a, T> {
    /// How many tables end before the key: those are the first ones.
    pub fn ended_before(&self, key: &T::Key) -> usize
        ensures count { result ≡ count_by (ends_before T.Key.ranks T.spans key.now) self.now.tables.now }
        ensures within { result ≤ length self.now.tables.now }
    {
        self.tables
            .partition_point(|t| t.key_range().max.compare(key).is_lt())
    }

    /// How many tables end with the key or before.
    pub fn ended_by(&self, key: &T::Key) -> usize
        ensures count { result ≡ count_by (ends_by T.Key.ranks T.spans key.now) self.now.tables.now }
        ensures within { result ≤ length self.now.tables.now }
    {
        self.tables
            .partition_point(|t| key.compare(&t.key_range().max).is_ge())
    }

    /// How many tables begin before the key.
    pub fn begun_before(&self, key: &T::Key) -> usize
        ensures count { result ≡ count_by (begins_before T.Key.ranks T.spans key.now) self.now.tables.now }
        ensures within { result ≤ length self.now.tables.now }
    {
        self.tables
            .partition_point(|t| t.key_range().min.compare(key).is_lt())
    }

    /// How many tables begin with the key or before.
    pub fn begun_by(&self, key: &T::Key) -> usize
        ensures count { result ≡ count_by (begins_by T.Key.ranks T.spans key.now) self.now.tables.now }
        ensures within { result ≤ length self.now.tables.now }
    {
        self.tables
            .partition_point(|t| key.compare(&t.key_range().min).is_ge())
    }

    /// The stretch of the run that meets the range.
    pub fn overlapping(&self, range: &KeyRange<T::Key>) -> Stretch<'a, T>
        ensures place { result.place ≡ count_by (ends_before T.Key.ranks T.spans range.now.min) self.now.tables.now }
        ensures tables { result.tables.now ≡ filter (λ t. meets T.Key.ranks (T.spans t) range.now) self.now.tables.now }
    {
        self.between(self.ended_before(&range.min), self.begun_by(&range.max))
    }

    /// The stretch of the run that lies inside the range.
    pub fn contained(&self, range: &KeyRange<T::Key>) -> Stretch<'a, T>
        ensures place { result.place ≡ count_by (begins_before T.Key.ranks T.spans range.now.min) self.now.tables.now }
        ensures tables { result.tables.now ≡ filter (λ t. inside T.Key.ranks range.now (T.spans t)) self.now.tables.now }
    {
        self.between(self.begun_before(&range.min), self.ended_by(&range.max))
    }

    /// The span of the run, none where the run is empty: where the first table begins to where the last ends.
    pub fn key_range(&self) -> Option<KeyRange<T::Key>>
        ensures { result ≡ span_of T.Key.ranks T.spans self.now.tables.now }
    {
        let first = self.tables.first()?.key_range();
        let last = self.tables.last()?.key_range();
        Some(KeyRange {
            min: first.min,
            max: last.max,
        })
    }

    // The tables from a place to an end, none if the end lies before the place.
    fn between(&self, place: usize, end: usize) -> Stretch<'a, T>
        requires { (place ≤ length self.now.tables.now) × (end ≤ length self.now.tables.now) }
        ensures place { result.place ≡ place }
        ensures tables { result.tables.now ≡ take (end - place) (drop place self.now.tables.now) }
    {
        let tables = &self.tables[place..end.max(place)];
        Stretch { place, tables }
    }
}
