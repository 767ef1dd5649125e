//! The sheet: table records in memory that the caller lends, of which the first ones stand.
#![tactic(auto)]

pub mod hidden_set;
pub mod keeping;
pub mod level;
pub mod marks;
pub mod order;
pub mod sound;
