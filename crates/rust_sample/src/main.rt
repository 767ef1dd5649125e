//! The planner again, on layouts for which the Rust's choices are known: what it has to print is what the Rust chose.
#![tactic(auto)]

use desk::lines::answer_input;

fn main(rt: HostRuntime) -> anyhow::Result<()> {
    answer_input(&rt)
}
