//! The hidden set keeps track of which tables are being compacted.
pub mod ops;

use crate::sound::MOST_TABLES;
use std::marker::Model;

/// The numbers of the tables that are being compacted, in the order in which they were hidden.
///
/// No other job may take a hidden table. When its job ends, the table is shown again.
/// The set allocates nothing: a plain array, of which the first `count` numbers are hidden.
#[derive(Drop)]
pub struct HiddenSet {
    ids: [u64; MOST_TABLES],
    count: usize,
}

impl Model for HiddenSet {
    ghost use Rattle.std.specs.Prelude.{ℕ, ◌≤◌, List, take};

    ghost Value = { List ℕ };

    ghost view = { λ set. take set.count set.ids };

    ghost invariant = { λ set. set.count ≤ 1024 };
}
