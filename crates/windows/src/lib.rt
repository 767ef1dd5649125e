//! Windows of a slice of tables, with their sums.
#![tactic(auto)]

pub mod slice_windows;
