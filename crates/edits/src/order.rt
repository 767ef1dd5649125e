//! The order of the sheet: by level, run, min. What is public here serves the crates above, which have tested the sheet: hence the `requires`.
ghost use Rattle.std.specs.Prelude.{◌≡◌, ◌<◌, ◌≤◌, length, take};
ghost use Rattle.sheets.specs.Edits.{laid};
ghost use Rattle.sheets.specs.Tables.{sooner, place, insert};

use crate::records::insert_at;
use keys::key_kind::KeyKind;
use runs::table::Table;
use sheets::order::comes_before;

/// Whether the first table comes before the second in the order of the sheet.
pub fn is_sooner<K: KeyKind>(t: &Table<K>, u: &Table<K>) -> bool
    ensures { result ≡ sooner K.ranks t.now u.now }
{
    comes_before(t, &t.range.min, u)
}

/// How many stand before the table's place: before the first that the table is to come before.
pub fn place_of<K: KeyKind>(sheet: &[Table<K>], count: usize, table: &Table<K>) -> usize
    requires { count ≤ length sheet.now }
    ensures { result ≡ place K.ranks table.now (take count sheet.now) }
{
    sheet[..count]
        .iter()
        .position(|u| is_sooner(table, u))
        .unwrap_or(count)
}

/// Puts the table in its place.
pub fn insert<K: KeyKind>(sheet: &mut [Table<K>], count: usize, table: Table<K>)
    requires { count < length sheet.old }
    ensures { sheet.new ≡ laid (insert K.ranks table (take count sheet.old)) sheet.old }
{
    let at = place_of(sheet, count, &table);
    insert_at(sheet, count, at, table);
}
