//! Key kinds, ranges of keys, and bounds.
#![tactic(auto)]

pub mod bounds;
pub mod byte_key;
pub mod key_kind;
pub mod key_range;
pub mod stop_key;
