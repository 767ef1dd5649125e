//! Lists of calls on a book, and what is promised of every list.
#![tactic(auto)]

pub mod replay;
