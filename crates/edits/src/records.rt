//! Table records changed, put in and taken out in the lent slice. What is public here serves the crates above, which have tested the sheet: hence the `requires`.
ghost use Rattle.std.specs.Prelude.{◌≡◌, ◌<◌, ◌≤◌, map, length, take, filter};
ghost use Rattle.std.specs.List.{insert, remove};
ghost use Rattle.runs.specs.Run.{span_of};
ghost use Rattle.sheets.specs.Edits.{laid, changed};
ghost use Rattle.sheets.specs.Tables.{memb, named, placed, without};

use keys::key_kind::KeyKind;
use keys::key_range::KeyRange;
use runs::ranged::TableFile;
use runs::table::Table;
use sheets::keeping::keep_those;

/// Puts the table at the place; what stood from there on moves one to the right.
pub fn insert_at<K: Copy>(sheet: &mut [Table<K>], count: usize, at: usize, table: Table<K>)
    requires within { at ≤ count }
    requires room { count < length sheet.old }
    ensures { sheet.new ≡ laid (insert (take count sheet.old) at table) sheet.old }
{
    sheet.copy_within(at..count, at + 1);
    sheet[at] = table;
}

/// Takes the table at the place out; what stood behind it moves one to the left.
pub fn remove_at<K: Copy>(sheet: &mut [Table<K>], count: usize, at: usize)
    requires within { at < count }
    requires fits { count ≤ length sheet.old }
    ensures { sheet.new ≡ laid (remove (take count sheet.old) at) sheet.old }
{
    sheet.copy_within(at + 1..count, at);
}

/// Whether one of the tables has the number.
pub fn has_number<T: TableFile>(tables: &[T], number: u64) -> bool
    ensures { result ≡ memb number (map T.named tables.now) }
{
    tables.iter().map(|t| t.id()).any(|id| id == number)
}

/// The span of those of the tables whose numbers are listed.
pub fn span_held<K: KeyKind>(tables: &[Table<K>], numbers: &[u64]) -> Option<KeyRange<K>>
    ensures { result ≡ span_of K.ranks (λ t. t.range) (filter (named numbers.now) tables.now) }
{
    tables
        .iter()
        .filter(|t| numbers.contains(&t.number))
        .map(|t| t.range)
        .reduce(|span, range| span.widen(&range))
}

/// Takes out all tables whose numbers are listed; the others keep their order. How many stand then.
pub fn remove_all<K: Copy>(sheet: &mut [Table<K>], count: usize, numbers: &[u64]) -> usize
    requires { count ≤ length sheet.old }
    ensures count { result ≡ length (without numbers.now (take count sheet.old)) }
    ensures sheet { sheet.new ≡ laid (without numbers.now (take count sheet.old)) sheet.old }
{
    keep_those(sheet, count, |t| !numbers.contains(&t.number))
}

/// Gives the table at the place another level and run.
pub fn change_level<K: Copy>(sheet: &mut [Table<K>], at: usize, level: u8, run: u16)
    requires { at < length sheet.old }
    ensures { sheet.new ≡ changed (placed level run) sheet.old at }
{
    let t = sheet[at];
    sheet[at] = Table { level, run, ..t };
}
