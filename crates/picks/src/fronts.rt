//! Fronts of a run, which grow to the right: what lies between two places is the difference of two fronts.
ghost use Rattle.std.specs.Prelude.{◌≡◌, ◌^◌, ◌≤◌, length, sum_by, count_by};
ghost use Rattle.picks.specs.Fronts.{front};

use crate::marked_run::MarkedRun;
use runs::ranged::TableFile;

/// The first tables of a run: how many, the sum of their sizes, how many of them are hidden.
#[derive(Clone, Copy, Default)]
pub struct Front {
    pub at: usize,
    pub sum: u64,
    pub hidden: usize,
}

impl Front {
    /// The front of a run that reaches from here to a place behind.
    pub fn advanced<T: TableFile>(self, marked: &MarkedRun<'_, T>, to: usize) -> Front
        requires behind { (self.at ≤ to) × (to ≤ length marked.now.level.run.tables.now) }
        requires here { self ≡ front T.bytes marked.now.level.run.tables.now marked.now.marks self.at }
        ensures { result ≡ front T.bytes marked.now.level.run.tables.now marked.now.marks to }
    {
        let bytes = size(&marked.level.run.tables[self.at..to]);
        let count = count_hidden(&marked.marks[self.at..to]);
        Front {
            at: to,
            sum: self.sum + bytes,
            hidden: self.hidden + count,
        }
    }
}

// The bytes of some tables.
fn size<T: TableFile>(tables: &[T]) -> u64
    requires { sum_by T.bytes tables.now ≤ 2 ^ 53 }
    ensures { result ≡ sum_by T.bytes tables.now }
{
    tables.iter().map(|t| t.file_size()).sum()
}

// How many marks say that a table is hidden.
fn count_hidden(marks: &[bool]) -> usize
    ensures { result ≡ count_by (λ m. m) marks.now }
{
    marks.iter().filter(|m| **m).count()
}
