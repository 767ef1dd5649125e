//! How the tables of a choice are named. What is public here serves the steps, whose sheet is tested: hence the `requires`.
ghost use Rattle.std.specs.Prelude.{◌≡◌, ◌+◌, ◌^◌, ◌≤◌, ◌++◌, length};
ghost use Rattle.sheets.specs.Edits.{laid};
ghost use Rattle.sheets.specs.Level.{numbers_of, size_of};
ghost use Rattle.leveled.specs.Writing.{named_as, going};

use keys::key_kind::KeyKind;
use levels::settings::Settings;
use runs::table::Table;
use sheets::level::{list_ids, size};
use strategies::choice::Input;
use strategies::naming::Named;

/// Names the tables of two stretches of the sheet, which go to a level.
pub fn input<K: KeyKind>(
    settings: &Settings,
    first: &[Table<K>],
    second: &[Table<K>],
    dest_level: u8,
    canonical_level: u8,
    ids: &mut [u64],
) -> Input
    requires small { size_of first.now + size_of second.now ≤ 2 ^ 53 }
    requires room { length first.now + length second.now ≤ length ids.old }
    ensures input { result ≡ going dest_level canonical_level settings.now.target_size (first.now ++ second.now) }
    ensures ids { ids.new ≡ laid (numbers_of (first.now ++ second.now)) ids.old }
{
    Input {
        tables: name_stretches(first, second, ids),
        dest_level,
        canonical_level,
        target_size: settings.target_size,
    }
}

// Names the tables of two stretches, one behind the other: their numbers go into the front of the id sheet, whose rest keeps its content.
fn name_stretches<K>(first: &[Table<K>], second: &[Table<K>], ids: &mut [u64]) -> Named
    requires small { size_of first.now + size_of second.now ≤ 2 ^ 53 }
    requires room { length first.now + length second.now ≤ length ids.old }
    ensures named { result ≡ named_as (first.now ++ second.now) }
    ensures ids { ids.new ≡ laid (numbers_of (first.now ++ second.now)) ids.old }
{
    let count = first.len();
    list_ids(first, ids);
    list_ids(second, &mut ids[count..]);
    Named {
        count: count + second.len(),
        bytes: size(first) + size(second),
    }
}
