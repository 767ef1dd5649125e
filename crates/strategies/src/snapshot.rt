//! What a strategy is asked about.
ghost use Rattle.std.specs.Prelude.{◌≡◌, ◌^◌, ◌≤◌, true, length};
ghost use Rattle.sheets.specs.Sound.{tables_ok};

use keys::key_kind::KeyKind;
use runs::table::Table;
use sheets::hidden_set::HiddenSet;

/// The standing tables of a sheet that was tested, and what stands beside them at the time of the question.
#[derive(Drop)]
pub struct Snapshot<'a, K: KeyKind> {
    pub tables: &'a [Table<K>],
    pub hidden_set: &'a HiddenSet,
    /// The bytes of all blobs.
    pub blob_total: u64,
    /// The time in nanoseconds.
    pub clock: u64,
    ghost sound: { tables_ok K.ranks tables.now ≡ true },
    ghost few: { length tables.now ≤ 1024 },
    ghost blob: { blob_total ≤ 2 ^ 53 },
}
