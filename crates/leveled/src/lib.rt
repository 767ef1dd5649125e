//! Leveled: when a level has too much, parts of it are merged into the next.
#![tactic(auto)]

pub mod first_level;
pub mod holding;
pub mod merges;
pub mod moves;
pub mod overlaps;
pub mod scoring;
pub mod strategy;
pub mod survey;
pub mod writing;
