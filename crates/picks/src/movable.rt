//! The longest window of a level that the next level meets nowhere.
ghost use Rattle.std.specs.Prelude.{◌≡◌, ℕ, List};
ghost use Rattle.picks.specs.Marks.{Marked};
ghost use Rattle.picks.specs.Movable.{longest_movable, longer};

use crate::marked_run::MarkedRun;
use runs::ranged::TableFile;
use runs::sorted_run::SortedRun;
use windows::slice_windows::Window;

impl<'a, T: TableFile> MarkedRun<'a, T> {
    /// The longest window without a hidden table whose span meets nothing of the next level, the leftmost among equals.
    /// The answer holds for the hidden numbers that the marks were made from.
    pub fn longest_movable(&self, next: &SortedRun<'_, T>) -> Option<Window>
        ensures { (hs : List ℕ) → Marked T.named hs self.now.level.run.tables.now self.now.marks → result ≡ longest_movable T.Key.ranks T.spans T.named hs self.now.level.run.tables.now next.now.tables.now }
    {
        let mut from = 0;
        let mut gap = 0;
        let mut best: Option<Window> = None;
        for (i, table) in self.level.run.tables.iter().enumerate() {
            let range = table.key_range();
            let before = next.ended_before(&range.min);
            let upto = next.begun_by(&range.max);
            if gap < before {
                // a table of the next level lies between the last one and this one
                from = i;
                gap = before;
            }
            if self.marks[i] || before < upto {
                from = i + 1;
            } else {
                let len = i + 1 - from;
                best = longer(best, Window { start: from, len });
            }
        }
        best
    }
}

// The longer of the window that was found before and of one that starts behind it, the first among equals.
fn longer(best: Option<Window>, found: Window) -> Option<Window>
    ensures { result ≡ longer best found }
{
    best.filter(|b| b.len >= found.len).or(Some(found))
}
