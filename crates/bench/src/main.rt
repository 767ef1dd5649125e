//! Times the calls of a script, in the planner's words.
//!
//!     bench [TURNS] < SCRIPT
//!
//! Each call on a book has a line: how it was answered, and the median and the least of the times of its turns.
//! A `propose` has two more, for what it does apart: the test of book and sheet, and the strategy's own `choose`, on tables that were tested before.
//! A call is made so many turns; without TURNS as many as fit 0.2 seconds, at least 11. With 0 turns none is timed, and the answers are printed alone.
#![tactic(auto)]

mod answer;
mod figures;
mod history;
mod lines;
mod stand;
mod timing;
mod turns;
mod watch;

use lines::time_input;
use turns::read_turns;

fn main(rt: HostRuntime) -> anyhow::Result<()> {
    let turns = read_turns(&rt)?;
    time_input(&rt, turns)
}
