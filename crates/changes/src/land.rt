//! Landing a table in the lent sheet. What is public here serves the job book, which has tested that book and sheet are sound: hence the `requires`.
ghost use Rattle.std.specs.Prelude.{◌≡◌, ◌^◌, ◌<◌, ◌≤◌, length, take, is_ok, if◌then◌else◌};
ghost use Rattle.std.specs.List.{list_any};
ghost use Rattle.sheets.specs.Edits.{laid};
ghost use Rattle.sheets.specs.Level.{size_of, runs, Stacked};
ghost use Rattle.books.specs.Land.{has_room, fresh_ok, bars, landing_run, landed};
ghost use Rattle.changes.specs.Changes.{SoundOn};
ghost use Rattle.changes.specs.Land.{admitted, Lands};

use edits::order::insert;
use edits::records::has_number;
use keys::key_kind::KeyKind;
use refusals::refusal::Refusal;
use runs::fresh::Fresh;
use runs::table::Table;
use sheets::level::{run_count, size};
use sheets::sound::{MOST_BYTES, is_within_limits};

/// Puts the fresh table in its place in level 0, and says how many stand then.
/// Refused, first where the table may not stand with the others, then where sheet or total have no room, the sheet keeps its content.
pub fn land_table<K: KeyKind>(
    sheet: &mut [Table<K>],
    standing: usize,
    fresh: &Fresh<K>,
) -> Result<usize, Refusal>
    requires { SoundOn K.ranks sheet.old standing }
    ensures answer { Lands K.ranks fresh.now sheet.old standing sheet.new result }
    ensures sheet { sheet.new ≡ (if is_ok result then laid (landed K.ranks fresh.now (take standing sheet.old)) sheet.old else sheet.old) }
{
    let run = admit(sheet, standing, fresh)?;
    insert(sheet, standing, fresh.at(0, run));
    Ok(standing + 1)
}

// The run that takes the fresh table, unless it may not come in.
fn admit<K: KeyKind>(sheet: &[Table<K>], standing: usize, fresh: &Fresh<K>) -> Result<u16, Refusal>
    requires { SoundOn K.ranks sheet.now standing }
    ensures { result ≡ admitted K.ranks fresh.now (length sheet.now) (take standing sheet.now) }
{
    let tables = &sheet[..standing];
    if !is_fresh_ok(tables, fresh) {
        return Err(Refusal::BadTable(0));
    }
    if !has_room_to_land(sheet, standing, fresh) {
        return Err(Refusal::Full);
    }
    Ok(landing_run(tables, fresh))
}

/// Whether the fresh table may stand with the tables: no max before its min, no size or linked sum too large, no number that stands.
pub fn is_fresh_ok<K: KeyKind>(tables: &[Table<K>], fresh: &Fresh<K>) -> bool
    ensures { result ≡ fresh_ok K.ranks tables.now fresh.now }
{
    is_within_limits(&fresh.at(0, 0)) && !has_number(tables, fresh.number)
}

/// Whether the sheet has a place, and the total is not too large, with the fresh table landed.
pub fn has_room_to_land<K: KeyKind>(sheet: &[Table<K>], standing: usize, fresh: &Fresh<K>) -> bool
    requires within { standing ≤ length sheet.now }
    requires total { size_of (take standing sheet.now) ≤ 2 ^ 53 }
    ensures { result ≡ has_room (length sheet.now) (landed K.ranks fresh.now (take standing sheet.now)) }
{
    standing < sheet.len() && fresh.size <= MOST_BYTES - size(&sheet[..standing])
}

/// The run of level 0 that takes the fresh table: the last if it meets nothing there, else a new one behind it; run 0 on an empty level 0.
pub fn landing_run<K: KeyKind>(tables: &[Table<K>], fresh: &Fresh<K>) -> u16
    requires order { Stacked tables.now }
    requires few { runs tables.now < 65536 }
    ensures { result ≡ landing_run K.ranks fresh.now tables.now }
{
    let runs = run_count(tables);
    let run = if is_barred(tables, fresh, runs) {
        runs
    } else {
        runs.saturating_sub(1)
    };
    run as u16
}

// Whether a table of the last of so many runs of level 0 meets the fresh one.
fn is_barred<K: KeyKind>(tables: &[Table<K>], fresh: &Fresh<K>, runs: usize) -> bool
    ensures { result ≡ list_any (bars K.ranks fresh.now runs) tables.now }
{
    tables.iter().any(|t| is_bar(t, fresh, runs))
}

// Whether the table is of the last of so many runs of level 0, and meets the fresh one.
fn is_bar<K: KeyKind>(table: &Table<K>, fresh: &Fresh<K>, runs: usize) -> bool
    ensures { result ≡ bars K.ranks fresh.now runs table.now }
{
    table.level == 0
        && table.run as usize + 1 == runs
        && table.range.overlaps_with_key_range(&fresh.range)
}
