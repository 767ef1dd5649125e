//! Tables that may be a run: in the order of their keys, and no two meet.
ghost use Rattle.std.specs.Prelude.{◌≡◌, false, MatchResult};
ghost use Rattle.refusals.specs.declared.refusal.Refusal.TheVariants.{NotSound};
ghost use Rattle.runs.specs.Run.{sorted, overlapping, contained, aggregated, shown, span_of};

use crate::ranged::Ranged;
use crate::sorted_run::SortedRun;
use keys::key_range::KeyRange;
use refusals::refusal::Refusal;

/// Tables lent as a run. Each question tests that they are one.
#[derive(Clone, Copy)]
pub struct Run<'a, T> {
    pub tables: &'a [T],
}

/// Some tables of a run that follow one another, and how many stand before them.
#[derive(Clone, Copy)]
pub struct Stretch<'a, T> {
    pub place: usize,
    pub tables: &'a [T],
}

impl<'a, T: Ranged> Run<'a, T> {
    /// The same tables, known to be a run.
    pub fn sorted(self) -> Result<SortedRun<'a, T>, Refusal>
        ensures { MatchResult result (λ r. r.tables ≡ self.entry.tables) (λ e. (e ≡ NotSound) × (sorted T.Key.ranks T.spans self.entry.tables.now ≡ false)) }
    {
        let tables = self.tables;
        if is_sorted(tables) {
            Ok(SortedRun { tables })
        } else {
            Err(Refusal::NotSound)
        }
    }

    /// The stretch of the run that meets the range.
    pub fn get_overlapping(self, range: &KeyRange<T::Key>) -> Result<Stretch<'a, T>, Refusal>
        ensures { shown result ≡ overlapping T.Key.ranks T.spans range.now self.entry.tables.now }
    {
        Ok(self.sorted()?.overlapping(range))
    }

    /// The stretch of the run that lies inside the range.
    pub fn get_contained(self, range: &KeyRange<T::Key>) -> Result<Stretch<'a, T>, Refusal>
        ensures { shown result ≡ contained T.Key.ranks T.spans range.now self.entry.tables.now }
    {
        Ok(self.sorted()?.contained(range))
    }

    /// The span of the run, none where the run is empty: where the first table begins to where the last ends.
    pub fn aggregate_key_range(self) -> Result<Option<KeyRange<T::Key>>, Refusal>
        ensures { result ≡ aggregated T.Key.ranks T.spans self.entry.tables.now }
    {
        Ok(self.sorted()?.key_range())
    }
}

/// Whether no max is before its min, and each table ends before the next begins.
pub fn is_sorted<T: Ranged>(tables: &[T]) -> bool
    ensures { result ≡ sorted T.Key.ranks T.spans tables.now }
{
    tables.first().is_none_or(|t| t.key_range().is_ordered())
        && tables.is_sorted_by(|t, u| {
            t.key_range().ends_before(u.key_range()) && u.key_range().is_ordered()
        })
}

/// The span of any tables, in whatever order: from the least min to the greatest max.
pub fn aggregate<T: Ranged>(tables: &[T]) -> Option<KeyRange<T::Key>>
    ensures { result ≡ span_of T.Key.ranks T.spans tables.now }
{
    let (first, rest) = tables.split_first()?;
    Some(
        rest.iter()
            .fold(*first.key_range(), |all, t| all.widen(t.key_range())),
    )
}
