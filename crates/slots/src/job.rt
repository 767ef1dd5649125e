//! A slot of the book: free, or with a running job.
ghost use Rattle.std.specs.Prelude.{◌≤◌};

pub mod ops;

use crate::sound::MOST_HIDDEN;

/// What is done with a job's tables.
#[derive(Clone, Copy)]
pub enum Task {
    /// They go to this level as they are.
    Move(u8),
    /// They make room for the outputs at this level.
    Merge(u8),
    /// They leave.
    Drop,
}

/// How a job ends.
#[derive(Clone, Copy)]
pub enum Event {
    /// Its work is done.
    Close,
    /// Its work is left undone.
    GiveUp,
}

/// A slot of the book: its state is what it runs, if anything. A running job has the numbers of its tables.
/// They lie in the slot itself: the book's memory is fixed, and no heap is used.
#[derive(Clone, Copy)]
pub struct Job {
    state: Option<Task>,
    numbers: [u64; MOST_HIDDEN],
    count: usize,
    ghost few: { count ≤ 256 },
}
