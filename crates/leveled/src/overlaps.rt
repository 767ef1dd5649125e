//! What meets level 0. What is public here serves the steps, which look at levels from 1 on: hence the `requires`.
ghost use Rattle.std.specs.Prelude.{◌≡◌, ◌≤◌, filter};
ghost use Rattle.runs.specs.Run.{span_of};
ghost use Rattle.sheets.specs.Level.{level_of};
ghost use Rattle.strategies.specs.Strategy.{spans_meet};
ghost use Rattle.leveled.specs.Leveled.{met};
ghost use Rattle.leveled.specs.Survey.{set_to, standing, hides};

use crate::survey::Survey;
use keys::key_kind::KeyKind;
use runs::run::aggregate;
use runs::table::Table;
use sheets::sound::LAST_LEVEL;
use strategies::spans::spans_meet;

impl<'a, K: KeyKind> Survey<'a, K> {
    /// Whether the spans of level 0 and level 6 meet. An empty level has none.
    pub fn last_level_overlaps(&self) -> bool
        ensures { result ≡ spans_meet K.ranks (span_of K.ranks (λ t. t.range) (level_of 0 (standing self.now))) (span_of K.ranks (λ t. t.range) (level_of 6 (standing self.now))) }
    {
        let first = aggregate(self.tables_of(0));
        let last = self.run_of(LAST_LEVEL).run.key_range();
        spans_meet(first, last)
    }

    /// The tables of a level from 1 on that meet level 0's span: a stretch of the level.
    pub fn get_overlapping(&self, n: u8) -> &'a [Table<K>]
        requires deeper { 1 ≤ n }
        ensures { result.now ≡ filter (met K.ranks (set_to self.now) (standing self.now) (hides self.now) n) (standing self.now) }
    {
        let Some(span) = aggregate(self.tables_of(0)) else {
            return &[];
        };
        self.run_of(n).run.overlapping(&span).tables
    }
}
