//! The words of a script: numbers and keys as text, and what may be wrong with a line.
#![tactic(auto)]

pub mod fault;
pub mod field;
mod hex;
pub mod key_text;
pub mod words;
