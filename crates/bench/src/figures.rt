//! The figures of a call's turns.
ghost use Rattle.std.specs.Prelude.{◌≡◌, ◌/◌, [], length, slice_index, MatchOption};
ghost use Rattle.std.specs.List.Sorted.{IsNonDecreasing, IsPermutation};

use std::fmt;

/// What is said of some times: how many there are, the one in the middle, and the least.
#[derive(Clone, Copy)]
pub struct Figures {
    pub turns: usize,
    pub median: u64,
    pub least: u64,
}

/// The figures of some times, which are sorted for it. Where there are none, there are no figures. Of an even number of times the later of the two in the middle is the median.
pub fn figures_of(times: &mut [u64]) -> Option<Figures>
    ensures kept { IsPermutation times.old times.new }
    ensures sorted { IsNonDecreasing times.new }
    ensures figures { MatchOption result (times.new ≡ []) (λ f. (f.turns ≡ length times.new) × (f.median ≡ slice_index times.new (length times.new / 2)) × (f.least ≡ slice_index times.new 0)) }
{
    times.sort_unstable();
    figures_in(times)
}

// The figures of times that rise.
fn figures_in(sorted: &[u64]) -> Option<Figures>
    ensures { MatchOption result (sorted.now ≡ []) (λ f. (f.turns ≡ length sorted.now) × (f.median ≡ slice_index sorted.now (length sorted.now / 2)) × (f.least ≡ slice_index sorted.now 0)) }
{
    if sorted.is_empty() {
        return None;
    }
    Some(Figures {
        turns: sorted.len(),
        median: sorted[sorted.len() / 2],
        least: sorted[0],
    })
}

// Nanoseconds, written as microseconds.
#[derive(Drop)]
struct Micros(u64);

impl fmt::Display for Micros {
    fn fmt<W: fmt::Write>(&self, f: &mut fmt::Formatter<W>) -> fmt::Result {
        write!(f, "{}.{:03} us", self.0 / 1000, self.0 % 1000)
    }
}

impl fmt::Display for Figures {
    fn fmt<W: fmt::Write>(&self, f: &mut fmt::Formatter<W>) -> fmt::Result {
        write!(
            f,
            "median {}, least {} of {} turns",
            Micros(self.median),
            Micros(self.least),
            self.turns
        )
    }
}
