//! A mark for each table, in fixed memory: no heap is used. What is public here serves the crates above, whose tables are few enough: hence the `requires`.
ghost use Rattle.std.specs.Prelude.{◌≡◌, ◌-◌, ◌≤◌, Bool, false, map, length, take, drop, replicate};
ghost use Rattle.sheets.specs.Tests.{Tests};

use crate::sound::MOST_TABLES;

/// A mark for each of the items: whether it passes the test. The marks behind them are false.
pub fn marks_of<T, F: Fn(&T) -> bool>(items: &[T], test: F) -> [bool; MOST_TABLES]
    requires can { F.IsAlwaysCallable test }
    requires few { length items.now ≤ 1024 }
    ensures marks { (p : T → Bool) → Tests F.Fn test p → take (length items.now) result ≡ map p items.now }
    ensures rest { drop (length items.now) result ≡ replicate (1024 - length items.now) false }
{
    let mut marks = [false; MOST_TABLES];
    for (i, item) in items.iter().enumerate() {
        marks[i] = test(item);
    }
    marks
}
