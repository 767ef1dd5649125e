//! The run of a level, within the limits of a pick.
ghost use Rattle.std.specs.Prelude.{◌^◌, ◌≤◌, length, sum_by};

use runs::ranged::TableFile;
use runs::sorted_run::SortedRun;

/// A run of at most 1,024 tables and 2^53 bytes.
#[derive(Drop)]
pub struct LevelRun<'a, T: TableFile> {
    pub run: SortedRun<'a, T>,
    ghost small: { sum_by T.bytes run.tables.now ≤ 2 ^ 53 },
    ghost few: { length run.tables.now ≤ 1024 },
}
