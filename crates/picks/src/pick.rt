//! Which tables of a level move or merge into the next one.
//!
//! A window is a stretch of neighbours in a run. A window of the level is movable if none of its tables is hidden and no table of the next level meets its span.
//! A window of the next level is admissible if its sum is at most 50 target sizes, nothing in it is hidden, and the tables of the level that lie inside its span
//! have a sum above 0 and none of them is hidden. All of its windows are read, length 1 from the left, then 2 and on: one that is too large does not end the reading.
ghost use Rattle.std.specs.Prelude.{◌≡◌, ◌^◌, ◌≤◌};
ghost use Rattle.picks.specs.Pick.{pick};
ghost use Rattle.picks.specs.PickLaw.{PickLaw, OnlyPick};

use crate::edges::Levels;
use crate::level_run::LevelRun;
use crate::marked_run::MarkedRun;
use crate::merge::Merging;
use runs::ranged::TableFile;
use sheets::hidden_set::HiddenSet;
use windows::slice_windows::Window;

/// What is done with a level.
#[derive(Clone, Copy)]
pub enum Pick {
    /// The window of the level moves to the next one.
    Move(Window),
    /// A window of the next level is merged with the tables that it contains.
    Merge(Merging),
}

/// The longest movable window, the leftmost among equals; else the admissible window with the fewest bytes, the first that is read among equals; else nothing.
/// It serves the crates above, which have tested the settings: hence the `requires`.
pub fn pick_minimal_compaction<T: TableFile>(
    curr: LevelRun<'_, T>,
    next: LevelRun<'_, T>,
    hidden_set: &HiddenSet,
    target_size: u64,
) -> Option<Pick>
    requires target_small { target_size ≤ 2 ^ 40 }
    ensures picks { result ≡ pick T.Key.ranks T.spans T.bytes T.named hidden_set.now curr.entry.run.tables.now next.entry.run.tables.now target_size }
    ensures law { PickLaw T.Key.ranks T.spans T.bytes T.named hidden_set.now curr.entry.run.tables.now next.entry.run.tables.now target_size result }
    ensures only { OnlyPick T.Key.ranks T.spans T.bytes T.named hidden_set.now curr.entry.run.tables.now next.entry.run.tables.now target_size result }
{
    let curr = MarkedRun::new(curr, hidden_set);
    if let Some(window) = curr.longest_movable(&next.run) {
        return Some(Pick::Move(window));
    }
    let next = MarkedRun::new(next, hidden_set);
    let merging = Levels { curr, next }.cheapest_merge(target_size)?;
    Some(Pick::Merge(merging))
}
