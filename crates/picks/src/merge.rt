//! The merge with the fewest bytes.
ghost use Rattle.std.specs.Prelude.{◌≡◌, ◌^◌, ◌≤◌};
ghost use Rattle.picks.specs.Edges.{allowed, merged, Opens, sooner as better};
ghost use Rattle.picks.specs.LevelEdges.{IsCheapest};

use crate::edges::{Edge, Levels};
use runs::ranged::TableFile;
use windows::slice_windows::Window;

// How many target sizes the window of a merge may weigh.
const MOST_TARGETS: u64 = 50;

/// A merge of a window of the next level with the tables of the level that it contains, and the bytes of both.
#[derive(Clone, Copy)]
pub struct Merging {
    pub next: Window,
    pub curr: Window,
    pub bytes: u64,
}

impl<'a, T: TableFile> Levels<'a, T> {
    // The admissible window of the next level with the fewest bytes, the first in the order of reading among equals, for the hidden numbers that the marks were made from.
    pub(crate) fn cheapest_merge(&self, target_size: u64) -> Option<Merging>
        requires target_small { target_size ≤ 2 ^ 40 }
        ensures { IsCheapest self.now target_size result }
    {
        let cap = MOST_TARGETS * target_size;
        let mut left = Edge::default();
        let mut right = left;
        let mut best = None;
        for start in 0..self.next.level.run.tables.len() {
            left = self.left_edge(left, start);
            right = self.right_edge(right, left);
            if is_allowed(cap, left, right) {
                best = sooner(best, merge_between(left, right));
            }
        }
        best
    }
}

// Whether the window between two edges may be merged with what it contains.
fn is_allowed(cap: u64, left: Edge, right: Edge) -> bool
    requires { left.next.sum ≤ right.next.sum }
    ensures { result ≡ allowed cap left right }
{
    right.next.sum - left.next.sum <= cap
        && right.next.hidden <= left.next.hidden
        && left.curr.sum < right.curr.sum
        && right.curr.hidden <= left.curr.hidden
}

// The merge of the window between two edges with what it contains.
fn merge_between(left: Edge, right: Edge) -> Merging
    requires { (Opens left.next right.next) × (Opens left.curr right.curr) }
    ensures { result ≡ merged left right }
{
    Merging {
        next: Window {
            start: left.next.at,
            len: right.next.at - left.next.at,
        },
        curr: Window {
            start: left.curr.at,
            len: right.curr.at - left.curr.at,
        },
        bytes: (right.next.sum - left.next.sum) + (right.curr.sum - left.curr.sum),
    }
}

// The merge that is read first among those with the fewest bytes: of what was found before, and of one that starts behind it.
fn sooner(best: Option<Merging>, found: Merging) -> Option<Merging>
    ensures { result ≡ better best found }
{
    best.filter(|b| (b.bytes, b.next.len) <= (found.bytes, found.next.len))
        .or(Some(found))
}
