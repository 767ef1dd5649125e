//! The strategies: which tables are to be moved, merged or dropped.
#![tactic(auto)]

pub mod choice;
pub mod declined;
pub mod drop_range;
pub mod fifo;
pub mod major;
pub mod naming;
pub mod outgoing;
pub mod question;
pub mod snapshot;
pub mod spans;
pub mod strategy;
