//! The planner's answers as text.
#![tactic(auto)]

pub mod report;
