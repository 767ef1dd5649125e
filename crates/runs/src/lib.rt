//! Tables, runs of tables, and what is asked of a run.
#![tactic(auto)]

pub mod fresh;
pub mod ranged;
pub mod run;
pub mod sizes;
pub mod sorted_run;
pub mod table;
