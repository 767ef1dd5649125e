//! The first level, called L1: where tables of level 0 go. Target sizes count from it.
ghost use Rattle.std.specs.Prelude.{◌≡◌, ◌-◌, ◌<◌, ◌≤◌};
ghost use Rattle.std.specs.List.{list_all};
ghost use Rattle.leveled.specs.Leveled.{deeper, first_filled, overfull, falls, first_level};
ghost use Rattle.leveled.specs.Survey.{set_to, standing, hides};

use crate::survey::Survey;
use keys::key_kind::KeyKind;
use sheets::sound::LAST_LEVEL;

/// A level from 1 to 6, from which target sizes count.
#[derive(Clone, Copy)]
pub struct FirstLevel {
    pub n: u8,
    ghost within: { (1 ≤ n) × (n ≤ 6) },
}

impl FirstLevel {
    /// The level `n`, as target sizes count it: the first level is 1. It serves the steps, which look at levels from the first on: hence the `requires`.
    pub fn canonical(self, n: u8) -> u8
        requires { self.n ≤ n }
        ensures { result ≡ n - (self.n - 1) }
    {
        let shift = self.n - 1;
        n - shift
    }
}

impl<'a, K: KeyKind> Survey<'a, K> {
    /// The first non-empty level from 1, else 6; one less where it is above 1, a level from 1 has a table, and each that has is overfull.
    pub fn first_level(&self) -> FirstLevel
        ensures { result.n ≡ first_level (set_to self.now) (standing self.now) (hides self.now) }
    {
        let first = self.first_non_empty_level();
        if self.needs_new_first_level(first) {
            FirstLevel { n: first.n - 1 }
        } else {
            first
        }
    }

    /// The first level from 1 on that has a table, else 6.
    pub fn first_non_empty_level(&self) -> FirstLevel
        ensures { result.n ≡ first_filled (standing self.now) deeper }
    {
        let n = (1..LAST_LEVEL)
            .find(|n| self.has_tables(*n))
            .unwrap_or(LAST_LEVEL);
        FirstLevel { n }
    }

    // Whether the first level is to fall by 1: it can, it has a table, and each level that has is overfull.
    fn needs_new_first_level(&self, first: FirstLevel) -> bool
        requires { first.n ≡ first_filled (standing self.now) deeper }
        ensures { result ≡ falls (set_to self.now) (standing self.now) (hides self.now) first.n }
    {
        first.n > 1 && self.has_tables(first.n) && self.are_overfull(first)
    }

    // Whether each level that has a table has more free bytes than its target size.
    fn are_overfull(&self, first: FirstLevel) -> bool
        requires { first.n ≡ first_filled (standing self.now) deeper }
        ensures { result ≡ list_all (overfull (set_to self.now) (standing self.now) (hides self.now) first.n) deeper }
    {
        (first.n..LAST_LEVEL + 1).all(|n| self.is_overfull(first, n))
    }

    // Whether a level is empty, or has more free bytes than its target size.
    fn is_overfull(&self, first: FirstLevel, n: u8) -> bool
        requires { (first.n ≤ n) × (n < 7) }
        ensures { result ≡ overfull (set_to self.now) (standing self.now) (hides self.now) first.n n }
    {
        !self.has_tables(n)
            || self.level(n).free_bytes > self.settings.level_target_size(first.canonical(n))
    }
}
