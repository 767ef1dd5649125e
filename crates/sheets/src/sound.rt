//! The test of a sheet: whether what stands in it is sound.
ghost use Rattle.std.specs.Prelude.{◌≡◌, ◌≤◌, length, take, Decides};
ghost use Rattle.std.specs.List.{list_all};
ghost use Rattle.std.specs.List.Sorted.{IsNonDecreasing, IsPermutation};
ghost use Rattle.sheets.specs.Level.{numbers_of};
ghost use Rattle.sheets.specs.Sound.{Sound, within_limits, ahead, in_order, counts_on, distinct, tables_ok, sheet_ok};

use crate::level::list_ids;
use crate::order::comes_before;
use keys::key_kind::KeyKind;
pub use runs::sizes::MOST_BYTES;
use runs::sizes::total_size;
use runs::table::Table;

/// The most tables that a sheet has room for.
pub const MOST_TABLES: usize = 1024;

/// The deepest level.
pub const LAST_LEVEL: u8 = 6;

/// Whether the sheet, of which the first `standing` tables stand, is sound with the blob total.
pub fn is_sound<K: KeyKind>(sheet: &[Table<K>], standing: usize, blob_total: u64) -> bool
    ensures test { result ≡ sheet_ok K.ranks (length sheet.now) standing blob_total (take standing sheet.now) }
    ensures words { Decides result (Sound K.ranks (length sheet.now) standing blob_total (take standing sheet.now)) }
{
    sheet.len() <= MOST_TABLES
        && blob_total <= MOST_BYTES
        && sheet
            .get(..standing)
            .is_some_and(|tables| are_sound(tables))
}

// Whether the tables that stand are sound; the sort comes last.
fn are_sound<K: KeyKind>(tables: &[Table<K>]) -> bool
    requires { length tables.now ≤ 1024 }
    ensures { result ≡ tables_ok K.ranks tables.now }
{
    are_within_limits(tables)
        && total_size(tables, MOST_BYTES).is_some()
        && are_in_order(tables)
        && runs_count_on(tables)
        && tables_differ(tables)
}

/// Whether a table has a level that there is, a max not before its min, and no size or linked sum that is too large.
pub fn is_within_limits<K: KeyKind>(t: &Table<K>) -> bool
    ensures { result ≡ within_limits K.ranks t.now }
{
    t.level <= LAST_LEVEL && t.size <= MOST_BYTES && t.linked <= MOST_BYTES && t.range.is_ordered()
}

// Whether each table is within the limits.
fn are_within_limits<K: KeyKind>(tables: &[Table<K>]) -> bool
    ensures { result ≡ list_all (within_limits K.ranks) tables.now }
{
    tables.iter().all(is_within_limits)
}

// Whether a table comes before another and, in one run, ends before it begins.
fn is_ahead<K: KeyKind>(t: &Table<K>, u: &Table<K>) -> bool
    ensures { result ≡ ahead K.ranks t.now u.now }
{
    comes_before(t, &t.range.max, u)
}

// Whether each table is ahead of the next.
fn are_in_order<K: KeyKind>(tables: &[Table<K>]) -> bool
    ensures { result ≡ in_order K.ranks tables.now }
{
    tables.is_sorted_by(is_ahead)
}

// Whether the runs of level 0 count from 0 without gaps, and any other level has run 0 alone.
fn runs_count_on<K>(tables: &[Table<K>]) -> bool
    ensures { result ≡ counts_on 0 tables.now }
{
    let mut counted: usize = 0;
    for t in tables {
        let run = t.run as usize;
        if t.level > 0 {
            if run > 0 {
                return false;
            }
        } else if run == counted {
            counted += 1;
        } else if run + 1 != counted {
            return false;
        }
    }
    true
}

// Whether no two tables have one number.
fn tables_differ<K>(tables: &[Table<K>]) -> bool
    requires { length tables.now ≤ 1024 }
    ensures { result ≡ distinct (numbers_of tables.now) }
{
    let mut room = [0u64; MOST_TABLES];
    let numbers = &mut room[..tables.len()];
    list_ids(tables, numbers);
    numbers_differ(numbers)
}

/// Whether no number stands twice. It sorts them: of sorted numbers, no two neighbours are equal.
pub fn numbers_differ(numbers: &mut [u64]) -> bool
    ensures answer { result ≡ distinct numbers.old }
    ensures kept { IsPermutation numbers.old numbers.new }
    ensures sorted { IsNonDecreasing numbers.new }
{
    numbers.sort_unstable();
    neighbours_differ(numbers)
}

// Whether no number stands twice among numbers that rise.
fn neighbours_differ(sorted: &[u64]) -> bool
    requires { IsNonDecreasing sorted.now }
    ensures { result ≡ distinct sorted.now }
{
    sorted.is_sorted_by(|m, n| m != n)
}
