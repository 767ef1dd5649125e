//! The slots of a job book, and the test of a book: whether hidden numbers and running jobs are sound with the standing tables.
#![tactic(auto)]

pub mod admit;
mod held;
pub mod job;
pub mod sound;
