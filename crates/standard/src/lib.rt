//! The strategies that come with the library, as one.
#![tactic(auto)]

pub mod standard;
