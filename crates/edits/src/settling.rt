//! Tables that leave their places in the sheet, and tables that get theirs. What is public here serves the crates above, which have tested the sheet: hence the `requires`.
ghost use Rattle.std.specs.Prelude.{◌≡◌, ◌+◌, ◌≤◌, map, length, take, drop};
ghost use Rattle.sheets.specs.Edits.{laid};
ghost use Rattle.runs.specs.Fresh.{settled};
ghost use Rattle.sheets.specs.Tables.{without, parted, placed, inserts};

use crate::order::insert;
use keys::key_kind::KeyKind;
use runs::fresh::Fresh;
use runs::table::Table;

/// Brings the tables whose numbers are not listed to the front and the listed behind them; each part keeps its order. How many are not listed.
pub fn part<K: Copy>(sheet: &mut [Table<K>], count: usize, numbers: &[u64]) -> usize
    requires { count ≤ length sheet.old }
    ensures count { result ≡ length (without numbers.now (take count sheet.old)) }
    ensures sheet { sheet.new ≡ laid (parted numbers.now (take count sheet.old)) sheet.old }
{
    // Each rotation shifts the slice, so the loop goes by index.
    let mut left = 0;
    for i in 0..count {
        if !numbers.contains(&sheet[i].number) {
            sheet[left..=i].rotate_right(1);
            left += 1;
        }
    }
    left
}

/// Of the standing tables the first `left` are in order: the others go to the level, into run 0, each in its place.
pub fn take_in<K: KeyKind>(sheet: &mut [Table<K>], left: usize, count: usize, level: u8)
    requires within { left ≤ count }
    requires fits { count ≤ length sheet.old }
    ensures { sheet.new ≡ laid (inserts K.ranks (take left sheet.old) (map (placed level 0) (drop left (take count sheet.old)))) sheet.old }
{
    // Each insertion shifts the slice, so the loop goes by index.
    for i in left..count {
        let t = sheet[i];
        insert(sheet, i, Table { level, run: 0, ..t });
    }
}

/// Puts each of the outputs in its place at the level, in run 0. How many stand then.
pub fn settle<K: KeyKind>(
    sheet: &mut [Table<K>],
    count: usize,
    level: u8,
    outputs: &[Fresh<K>],
) -> usize
    requires { count + length outputs.now ≤ length sheet.old }
    ensures count { result ≡ count + length outputs.now }
    ensures sheet { sheet.new ≡ laid (inserts K.ranks (take count sheet.old) (map (settled level 0) outputs.now)) sheet.old }
{
    for (i, output) in outputs.iter().enumerate() {
        insert(sheet, count + i, output.at(level, 0));
    }
    count + outputs.len()
}
