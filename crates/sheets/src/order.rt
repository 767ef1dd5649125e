//! The order of the sheet: by level, run and key.
ghost use Rattle.std.specs.Prelude.{◌≡◌};
ghost use Rattle.sheets.specs.Tables.{comes_before};

use keys::key_kind::KeyKind;
use runs::table::Table;

/// Whether the first table comes before the second: by level, then by run, then by the key that is given for the first and the min of the second.
pub fn comes_before<K: KeyKind>(t: &Table<K>, key: &K, u: &Table<K>) -> bool
    ensures { result ≡ comes_before K.ranks t.now key.now u.now }
{
    t.level < u.level
        || t.level == u.level
            && (t.run < u.run || t.run == u.run && key.compare(&u.range.min).is_lt())
}
