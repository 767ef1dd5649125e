//! What a strategy chooses.
use crate::naming::Named;

/// What is to be done with the tables of a choice.
#[derive(Clone, Copy)]
pub enum Kind {
    Move,
    Merge,
    Drop,
}

/// Tables to be moved or merged, and where to.
#[derive(Clone, Copy)]
pub struct Input {
    pub tables: Named,
    /// The level that takes them, 1 to 6.
    pub dest_level: u8,
    /// The level by which the destination's target size goes, where levels from the first non-empty one on count from 1.
    pub canonical_level: u8,
    /// The size at which the tables of a merge are to be cut.
    pub target_size: u64,
}

/// The choice of a strategy. The numbers of the tables are in the id sheet, in sheet order.
#[derive(Clone, Copy)]
pub enum Choice {
    DoNothing,
    Move(Input),
    Merge(Input),
    Drop(Named),
}
