//! What a landing and a closed job change in the caller's sheet, in place.
//! The sheet is a lent slice of which the first tables stand: each call is told how many, since the book counts them.
#![tactic(auto)]

pub mod close;
pub mod land;
