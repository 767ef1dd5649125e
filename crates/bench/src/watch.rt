//! The turns of one call, and how long each took.
use crate::answer::Answer;
use crate::figures::figures_of;
use crate::turns::Turns;
use std::time::{Clock, Duration, Instant};

/// The times of the turns so far, in nanoseconds.
#[derive(Drop)]
pub struct Watch {
    turns: Turns,
    begun: Instant,
    times: Vec<u64>,
}

impl Watch {
    /// Before the first turn.
    pub fn start(rt: &HostRuntime, turns: Turns) -> anyhow::Result<Watch> {
        Ok(Watch {
            turns,
            begun: Instant::now(rt)?,
            times: Vec::new(rt.alloc()),
        })
    }

    /// Whether one turn more is to be made.
    pub fn goes_on(&self, clock: &impl Clock) -> anyhow::Result<bool> {
        let spent = self.begun.elapsed(clock)?;
        Ok(
            self.turns
                .goes_on(self.times.len() as u64, spent.as_nanos()),
        )
    }

    /// One turn more, which took so long.
    pub fn note(&mut self, time: Duration) -> anyhow::Result<()> {
        let nanos = u64::try_from(time.as_nanos()).unwrap_or(u64::MAX);
        self.times.push(nanos)?;
        Ok(())
    }

    /// Prints what was timed, how it was answered, and the figures, if a turn was made.
    pub fn print(&mut self, rt: &impl Print, what: &str, answer: Answer) -> anyhow::Result<()> {
        match figures_of(self.times.as_mut_slice()) {
            Some(figures) => println!(rt; "{what}: {answer}, {figures}")?,
            None => println!(rt; "{what}: {answer}")?,
        }
        Ok(())
    }
}
