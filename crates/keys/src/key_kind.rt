//! A key kind is a type with a total order, which one call answers.
ghost use Rattle.std.specs.Prelude.{◌≡◌};
ghost use Rattle.std.specs.declared.cmp.Ordering.{Ordering};
ghost use Rattle.keys.specs.KeyKind.{Laws};

use std::cmp::Ordering;

/// What serves as a key.
// Not `Ord`, which would ask for an equality beside the order, and that it holds just where the order answers equal.
pub trait KeyKind: Copy {
    // The answer of the order at two keys.
    ghost ranks: { Self → Self → Ordering };

    /// Whether this key is before, equal to or after the other.
    fn compare(&self, other: &Self) -> Ordering
        ensures { result ≡ ranks self.now other.now };

    ghost total: { Laws ranks };
}
