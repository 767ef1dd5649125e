//! What the levels of a sheet hold.
//! What is public here serves the survey, whose sheet is tested: hence the `requires`.
ghost use Rattle.std.specs.Prelude.{◌≡◌, ◌^◌, ◌≤◌};
ghost use Rattle.sheets.specs.Level.{size_of, Stacked};
ghost use Rattle.leveled.specs.Holding.{holding_of, held, levels_of};

use levels::scores::LEVELS;
use runs::table::Table;
use sheets::hidden_set::HiddenSet;
use sheets::level::level;
use std::array;

/// What a level holds.
#[derive(Clone, Copy)]
pub struct Holding {
    /// How many tables it has.
    pub table_count: usize,
    /// The bytes of its tables that are not hidden.
    pub free_bytes: u64,
    /// Whether one of its tables is hidden.
    pub is_busy: bool,
}

/// What each level holds.
pub fn hold_levels<K>(tables: &[Table<K>], hidden_set: &HiddenSet) -> [Holding; LEVELS]
    requires stacked { Stacked tables.now }
    requires small { size_of tables.now ≤ 2 ^ 53 }
    ensures { result ≡ levels_of hidden_set.now tables.now }
{
    array::from_fn(|n| hold_level(tables, n as u8, hidden_set))
}

// What level `n` holds.
fn hold_level<K>(tables: &[Table<K>], n: u8, hidden_set: &HiddenSet) -> Holding
    requires stacked { Stacked tables.now }
    requires small { size_of tables.now ≤ 2 ^ 53 }
    ensures { result ≡ held hidden_set.now tables.now n }
{
    hold(level(tables, n).tables, hidden_set)
}

// What the tables of a level hold. One pass: each table is looked up in the hidden set once.
fn hold<K>(tables: &[Table<K>], hidden_set: &HiddenSet) -> Holding
    requires { size_of tables.now ≤ 2 ^ 53 }
    ensures { result ≡ holding_of hidden_set.now tables.now }
{
    let mut free_bytes = 0;
    let mut is_busy = false;
    for t in tables {
        if hidden_set.is_hidden(t.number) {
            is_busy = true;
        } else {
            free_bytes += t.size;
        }
    }
    Holding {
        table_count: tables.len(),
        free_bytes,
        is_busy,
    }
}
