//! The desk: a script's histories of sheets and books, and the answers to its lines.
#![tactic(auto)]

mod calls;
pub mod desk;
pub mod histories;
pub mod lines;
mod show;
