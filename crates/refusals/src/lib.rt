//! The refusals: what every call returns instead of a result.
#![tactic(auto)]

pub mod refusal;
