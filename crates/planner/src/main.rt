//! The planner: reads a script from standard input and prints one line for each answer.
#![tactic(auto)]

use desk::lines::answer_input;

fn main(rt: HostRuntime) -> anyhow::Result<()> {
    answer_input(&rt)
}
