//! The numbers of the leveled strategy: its settings, the target size of each level, and the scores.
#![tactic(auto)]

pub mod rounding;
pub mod scores;
pub mod settings;
pub mod targets;
