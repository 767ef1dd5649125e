//! The spans of tables.
ghost use Rattle.std.specs.Prelude.{◌≡◌};
ghost use Rattle.strategies.specs.Strategy.{spans_meet};

use keys::key_kind::KeyKind;
use keys::key_range::KeyRange;

/// Whether two spans meet. Where there are no tables there is no span, and nothing meets it.
pub fn spans_meet<K: KeyKind>(a: Option<KeyRange<K>>, b: Option<KeyRange<K>>) -> bool
    ensures { result ≡ spans_meet K.ranks a b }
{
    a.zip(b).is_some_and(|(a, b)| a.overlaps_with_key_range(&b))
}
