//! Levels of a sheet, each a stretch of it. What is public here serves the crates above, which have tested the sheet: hence the `requires`.
ghost use Rattle.std.specs.Prelude.{◌≡◌, ◌^◌, ◌≤◌, length, count_by, nat_lt};
ghost use Rattle.std.specs.List.{list_any};
ghost use Rattle.sheets.specs.Edits.{laid};
ghost use Rattle.sheets.specs.Level.{numbers_of, size_of, level_of, touched, runs, Stacked};
ghost use Rattle.sheets.specs.Tables.{named, without};

use crate::hidden_set::HiddenSet;
use runs::run::Stretch;
use runs::table::Table;

/// The tables of level `n`, and how many stand before them.
pub fn level<K>(tables: &[Table<K>], n: u8) -> Stretch<'_, Table<K>>
    requires { Stacked tables.now }
    ensures place { result.place ≡ count_by (λ t. nat_lt t.level n) tables.now }
    ensures tables { result.tables.now ≡ level_of n tables.now }
{
    let place = level_start(tables, n as u16);
    let end = level_start(tables, n as u16 + 1);
    Stretch {
        place,
        tables: &tables[place..end],
    }
}

// How many tables stand in levels before `n`: those are the first ones.
fn level_start<K>(tables: &[Table<K>], n: u16) -> usize
    requires { Stacked tables.now }
    ensures count { result ≡ count_by (λ t. nat_lt t.level n) tables.now }
    ensures within { result ≤ length tables.now }
{
    tables.partition_point(|t| (t.level as u16) < n)
}

/// How many runs level 0 has.
pub fn run_count<K>(tables: &[Table<K>]) -> usize
    requires { Stacked tables.now }
    ensures { result ≡ runs tables.now }
{
    level(tables, 0)
        .tables
        .last()
        .map_or(0, |t| t.run as usize + 1)
}

/// Whether one of the tables is hidden.
pub fn has_hidden<K>(tables: &[Table<K>], set: &HiddenSet) -> bool
    ensures { result ≡ list_any (named set.now) tables.now }
{
    tables.iter().any(|t| set.is_hidden(t.number))
}

/// Whether level `n` has a hidden table.
pub fn level_is_busy<K>(tables: &[Table<K>], n: u8, set: &HiddenSet) -> bool
    requires { Stacked tables.now }
    ensures { result ≡ touched set.now tables.now n }
{
    has_hidden(level(tables, n).tables, set)
}

/// The bytes of the tables.
pub fn size<K>(tables: &[Table<K>]) -> u64
    requires { size_of tables.now ≤ 2 ^ 53 }
    ensures { result ≡ size_of tables.now }
{
    tables.iter().map(|t| t.size).sum()
}

/// The bytes of the tables that are not hidden.
pub fn free_size<K>(tables: &[Table<K>], set: &HiddenSet) -> u64
    requires { size_of tables.now ≤ 2 ^ 53 }
    ensures { result ≡ size_of (without set.now tables.now) }
{
    tables
        .iter()
        .filter(|t| !set.is_hidden(t.number))
        .map(|t| t.size)
        .sum()
}

/// Writes the numbers of the tables into the front of the id sheet, whose rest keeps its content.
pub fn list_ids<K>(tables: &[Table<K>], ids: &mut [u64])
    requires { length tables.now ≤ length ids.old }
    ensures { ids.new ≡ laid (numbers_of tables.now) ids.old }
{
    for (i, t) in tables.iter().enumerate() {
        ids[i] = t.number;
    }
}
