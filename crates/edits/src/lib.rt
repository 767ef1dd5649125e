//! Changes of a sheet in the caller's memory, of which the first `count` tables stand.
#![tactic(auto)]

pub mod order;
pub mod records;
pub mod recount;
pub mod settling;
