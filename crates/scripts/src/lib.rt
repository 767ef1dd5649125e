//! The lines of a planner's script, and what they ask.
#![tactic(auto)]

pub mod command;
pub mod strategy;
