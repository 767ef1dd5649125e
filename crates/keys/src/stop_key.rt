//! A stop of a tour.
ghost use Rattle.std.proofs.Common.{rules};
ghost use Rattle.std.specs.Cmp.Rules.{comparing};
ghost use Rattle.keys.specs.StopKey.{stop_ranks};

use crate::key_kind::KeyKind;
use std::cmp::Ordering;

/// A tour number, then a stop number. The derived order goes by the fields as they stand.
#[derive(Clone, Copy, Default, PartialEq, Eq, PartialOrd, Ord)]
pub struct StopKey {
    pub tour: u32,
    pub stop: u32,
}

impl KeyKind for StopKey {
    ghost ranks = { stop_ranks };

    ghost total = { Prim.search (comparing, rules) };

    fn compare(&self, other: &StopKey) -> Ordering {
        self.cmp(other)
    }
}
