//! What is done with the level that won. What is public here serves the strategy, whose id sheet has room for all tables: hence the `requires`.
ghost use Rattle.std.specs.Prelude.{◌≤◌, length};
ghost use Rattle.leveled.specs.Leveled.{zero_won, picked, pick_for};
ghost use Rattle.leveled.specs.Survey.{set_to, standing, hides};
ghost use Rattle.leveled.specs.Writing.{Gives};

use crate::first_level::FirstLevel;
use crate::survey::Survey;
use crate::writing::input;
use keys::key_kind::KeyKind;
use picks::pick::{Pick, pick_minimal_compaction};
use runs::table::Table;
use strategies::choice::Choice;

impl<'a, K: KeyKind> Survey<'a, K> {
    /// Level 0 won: it goes to the first level with what it meets there; nothing if either has a hidden table.
    pub fn merge_first(&self, first: FirstLevel, ids: &mut [u64]) -> Choice
        requires room { length (standing self.now) ≤ length ids.old }
        ensures { Gives (zero_won K.ranks (set_to self.now) (standing self.now) (hides self.now) first.n) result ids.old ids.new }
    {
        if self.is_busy(first) {
            return Choice::DoNothing;
        }
        let overlapping = self.get_overlapping(first.n);
        let named = input(
            self.settings,
            self.tables_of(0),
            overlapping,
            first.n,
            1,
            ids,
        );
        if self.run_count == 1 && overlapping.is_empty() {
            Choice::Move(named)
        } else {
            Choice::Merge(named)
        }
    }

    /// Level `n` won: what is picked goes to the next level.
    pub fn compact(&self, first: FirstLevel, n: u8, ids: &mut [u64]) -> Choice
        requires within { (first.n ≤ n) × (n ≤ 5) }
        requires room { length (standing self.now) ≤ length ids.old }
        ensures { Gives (picked K.ranks (set_to self.now) (standing self.now) (hides self.now) first.n n (pick_for K.ranks (set_to self.now) (standing self.now) (hides self.now) n)) result ids.old ids.new }
    {
        let upper = self.run_of(n);
        let lower = self.run_of(n + 1);
        let curr = upper.run.tables;
        let next = lower.run.tables;
        let canonical_level = first.canonical(n + 1);
        let target_size = self.settings.target_size;
        match pick_minimal_compaction(upper, lower, self.hidden_set, target_size) {
            Some(Pick::Move(window)) => {
                let moved = window.of(curr);
                let none: &'a [Table<K>] = &[];
                Choice::Move(input(self.settings, moved, none, n + 1, canonical_level, ids))
            }
            Some(Pick::Merge(merging)) => {
                let covered = merging.curr.of(curr);
                let window = merging.next.of(next);
                Choice::Merge(input(self.settings, covered, window, n + 1, canonical_level, ids))
            }
            None => Choice::DoNothing,
        }
    }
}
