//! The leveled strategy's pick: a move of the longest window, else the merge with the fewest bytes.
#![tactic(auto)]

mod edges;
mod fronts;
pub mod level_run;
mod marked_run;
pub mod merge;
mod movable;
pub mod pick;
