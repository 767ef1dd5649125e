//! Moves of level 0 as it is. What is public here serves the strategy, whose id sheet has room for all tables: hence the `requires`.
ghost use Rattle.std.specs.Prelude.{◌≡◌, ◌≤◌, ◌||◌, length};
ghost use Rattle.sheets.specs.Level.{in_level, touched};
ghost use Rattle.strategies.specs.declared.choice.Kind.TheVariants.{Move};
ghost use Rattle.strategies.specs.Answer.{naming};
ghost use Rattle.leveled.specs.Leveled.{sinks, slides};
ghost use Rattle.leveled.specs.Survey.{set_to, standing, hides};
ghost use Rattle.leveled.specs.Writing.{Gives};

use crate::first_level::FirstLevel;
use crate::survey::Survey;
use crate::writing::input;
use keys::key_kind::KeyKind;
use runs::table::Table;
use sheets::sound::LAST_LEVEL;
use strategies::choice::Choice;

impl<'a, K: KeyKind> Survey<'a, K> {
    /// Whether level 0 can move to level 6: it is one run, levels 1 to 5 are empty, and level 6's span does not meet level 0's.
    /// Hidden tables are not looked at.
    pub fn sinks(&self) -> bool
        ensures { result ≡ sinks K.ranks (set_to self.now) (standing self.now) (hides self.now) }
    {
        self.run_count == 1
            && self.first_non_empty_level().n == LAST_LEVEL
            && !self.last_level_overlaps()
    }

    /// Whether level 0 can move to the first level: it is one run, neither has a hidden table, and the first level has a table and meets level 0's span nowhere.
    #[tactic(auto, using(crate::proofs::Kept::none_kept))]
    pub fn slides(&self, first: FirstLevel) -> bool
        ensures { result ≡ slides K.ranks (set_to self.now) (standing self.now) (hides self.now) first.n }
    {
        self.run_count == 1
            && !self.is_busy(first)
            && self.has_tables(first.n)
            && self.get_overlapping(first.n).is_empty()
    }

    /// Whether level 0 or the first level has a hidden table.
    pub fn is_busy(&self, first: FirstLevel) -> bool
        ensures { result ≡ (touched (hides self.now) (standing self.now) 0 || touched (hides self.now) (standing self.now) first.n) }
    {
        self.level(0).is_busy || self.level(first.n).is_busy
    }

    /// Moves level 0 to a level.
    pub fn move_first(&self, dest_level: u8, ids: &mut [u64]) -> Choice
        requires room { length (standing self.now) ≤ length ids.old }
        ensures { Gives (naming Move dest_level 1 (set_to self.now).target_size (in_level 0) (standing self.now)) result ids.old ids.new }
    {
        let tables = self.tables_of(0);
        let none: &'a [Table<K>] = &[];
        Choice::Move(input(self.settings, tables, none, dest_level, 1, ids))
    }
}
