//! The planner again, on lists of calls that a model of the job book has answered: what it has to print is what the model says.
#![tactic(auto)]

use desk::lines::answer_input;

fn main(rt: HostRuntime) -> anyhow::Result<()> {
    answer_input(&rt)
}
