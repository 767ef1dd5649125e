//! How often a call is made.
ghost use Rattle.std.specs.Prelude.{◌≡◌};
ghost use Rattle.bench.specs.Turns.{goes_on};

use anyhow::Context;
use std::env;

/// How many turns are timed.
#[derive(Clone, Copy)]
pub enum Turns {
    /// As many as fit 0.2 seconds, at least 11 and at most 100,000.
    Fitting,
    /// So many.
    Exactly(u64),
}

const FEWEST: u64 = 11;

const MOST: u64 = 100_000;

const NANOS: u128 = 200_000_000;

impl Turns {
    /// Whether one turn more is made, after so many that took so many nanoseconds together.
    pub fn goes_on(self, made: u64, nanos: u128) -> bool
        ensures { result ≡ goes_on self made nanos }
    {
        match self {
            Turns::Fitting => made < FEWEST || made < MOST && nanos < NANOS,
            Turns::Exactly(turns) => made < turns,
        }
    }
}

/// The turns that the program's first argument says.
pub fn read_turns(rt: &HostRuntime) -> anyhow::Result<Turns> {
    match env::args(rt)?.nth(1) {
        None => Ok(Turns::Fitting),
        Some(word) => {
            let turns = word.as_str().parse::<u64>().context("the number of turns")?;
            Ok(Turns::Exactly(turns))
        }
    }
}
