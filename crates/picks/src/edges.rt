//! The two edges of a window of the next level: the fronts of both levels there. What lies between the edges is the window with what it contains.
ghost use Rattle.std.specs.Prelude.{◌≡◌, ◌<◌, length};
ghost use Rattle.picks.specs.LevelEdges.{left_edge_of, right_edge_of, StartsBefore, WeighsNothing, IsShortest};

use crate::fronts::Front;
use crate::marked_run::MarkedRun;
use runs::ranged::TableFile;

/// A level and the next one below it.
#[derive(Drop)]
pub struct Levels<'a, T: TableFile> {
    pub curr: MarkedRun<'a, T>,
    pub next: MarkedRun<'a, T>,
}

/// A front of each of two levels.
#[derive(Clone, Copy, Default)]
pub struct Edge {
    pub next: Front,
    pub curr: Front,
}

impl<'a, T: TableFile> Levels<'a, T> {
    /// The edge on the left of the windows that start at a place: what stands before the place, and what begins before its table does.
    pub fn left_edge(&self, from: Edge, start: usize) -> Edge
        requires within { start < length self.now.next.level.run.tables.now }
        requires starts { StartsBefore self.now start from }
        ensures { result ≡ left_edge_of self.now start }
    {
        let first = self.next.level.run.tables[start].key_range();
        let begun = self.curr.level.run.begun_before(&first.min);
        Edge {
            next: from.next.advanced(&self.next, start),
            curr: from.curr.advanced(&self.curr, begun),
        }
    }

    /// The edge on the right of the shortest window from a left edge whose contained tables weigh anything, or else of the longest one.
    /// No shorter one has anything to merge; a longer one never gets cheaper, and what bars the shortest bars it.
    pub fn right_edge(&self, from: Edge, left: Edge) -> Edge
        requires within { left.next.at < length self.now.next.level.run.tables.now }
        requires left { left ≡ left_edge_of self.now left.next.at }
        requires starts { (from ≡ right_edge_of self.now from.next.at) × (WeighsNothing self.now left.next.at from.next.at) }
        ensures edge { result ≡ right_edge_of self.now result.next.at }
        ensures shortest { IsShortest self.now left.next.at result.next.at }
    {
        let next = self.next.level.run.tables;
        let mut end = from.next;
        let mut high = from.curr;
        // the end starts where that of the window before ended, and goes on from there
        while end.at <= left.next.at || (high.sum <= left.curr.sum && end.at < next.len()) {
            let last = next[end.at].key_range();
            let reach = self.curr.level.run.ended_by(&last.max);
            high = high.advanced(&self.curr, reach);
            end = end.advanced(&self.next, end.at + 1);
        }
        Edge {
            next: end,
            curr: high,
        }
    }
}
