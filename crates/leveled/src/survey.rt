//! What the steps look at: the settings, the standing tables, the hidden set, and what each level holds.
//! What is public here serves the steps, which look at levels 0 to 6: hence the `requires`.
ghost use Rattle.std.specs.Prelude.{◌≡◌, ◌^◌, ◌<◌, ◌≤◌, true, length};
ghost use Rattle.levels.specs.Settings.{in_limits};
ghost use Rattle.runs.specs.Run.{sorted};
ghost use Rattle.sheets.specs.Level.{size_of, level_of, filled, runs};
ghost use Rattle.sheets.specs.Sound.{tables_ok};
ghost use Rattle.leveled.specs.Holding.{held, levels_of};

use crate::holding::{Holding, hold_levels};
use keys::key_kind::KeyKind;
use levels::scores::LEVELS;
use levels::settings::Settings;
use picks::level_run::LevelRun;
use runs::sorted_run::SortedRun;
use runs::table::Table;
use sheets::hidden_set::HiddenSet;
use sheets::level::{level, run_count};

/// What a choice is made from: settings and a sheet that were tested, and the hidden set.
/// What the levels hold is looked up once for all steps.
#[derive(Drop)]
pub struct Survey<'a, K: KeyKind> {
    pub settings: &'a Settings,
    pub tables: &'a [Table<K>],
    pub hidden_set: &'a HiddenSet,
    /// How many runs level 0 has.
    pub run_count: usize,
    pub levels: [Holding; LEVELS],
    ghost limits: { in_limits settings.now ≡ true },
    ghost sound: { tables_ok K.ranks tables.now ≡ true },
    ghost few: { length tables.now ≤ 1024 },
    ghost runs_are: { run_count ≡ runs tables.now },
    ghost levels_are: { levels ≡ levels_of hidden_set.now tables.now },
}

impl<'a, K: KeyKind> Survey<'a, K> {
    /// Looks at the sheet once. It serves the strategy, which has tested it: hence the `requires`.
    pub fn new(
        settings: &'a Settings,
        tables: &'a [Table<K>],
        hidden_set: &'a HiddenSet,
    ) -> Survey<'a, K>
        requires limits { in_limits settings.now ≡ true }
        requires sound { tables_ok K.ranks tables.now ≡ true }
        requires few { length tables.now ≤ 1024 }
        ensures settings { result.settings.now ≡ settings.now }
        ensures tables { result.tables.now ≡ tables.now }
        ensures hidden { result.hidden_set.now ≡ hidden_set.now }
    {
        Survey {
            settings,
            tables,
            hidden_set,
            run_count: run_count(tables),
            levels: hold_levels(tables, hidden_set),
        }
    }

    /// What level `n` holds.
    pub fn level(&self, n: u8) -> Holding
        requires { n < 7 }
        ensures { result ≡ held self.now.hidden_set.now self.now.tables.now n }
    {
        self.levels[n as usize]
    }

    /// Whether level `n` has a table.
    pub fn has_tables(&self, n: u8) -> bool
        requires { n < 7 }
        ensures { result ≡ filled self.now.tables.now n }
    {
        self.level(n).table_count > 0
    }

    /// The tables of level `n`; from level 1 on they are a run.
    pub fn tables_of(&self, n: u8) -> &'a [Table<K>]
        ensures tables { result.now ≡ level_of n self.now.tables.now }
        ensures run { 1 ≤ n → sorted K.ranks (λ t. t.range) result.now ≡ true }
        ensures small { size_of result.now ≤ 2 ^ 53 }
        ensures few { length result.now ≤ 1024 }
    {
        level(self.tables, n).tables
    }

    /// Level `n`, from 1 on, as a run to pick from.
    pub fn run_of(&self, n: u8) -> LevelRun<'a, Table<K>>
        requires { 1 ≤ n }
        ensures { result.run.tables.now ≡ level_of n self.now.tables.now }
    {
        LevelRun {
            run: SortedRun {
                tables: self.tables_of(n),
            },
        }
    }
}
