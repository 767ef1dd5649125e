//! Level 0's runs counted anew: gaps close, and no two runs are joined. What is public here serves the crates above, which have tested the sheet: hence the `requires`.
ghost use Rattle.std.specs.Prelude.{◌≡◌, ◌<◌, ◌≤◌, length, take};
ghost use Rattle.sheets.specs.Edits.{laid};
ghost use Rattle.sheets.specs.Recount.{old_run, next_run, counted_run, counting};

use runs::table::Table;

/// Counts the runs of level 0 anew from 0, in one pass; tables of one run stand together.
pub fn recount<K: Copy>(sheet: &mut [Table<K>], count: usize)
    requires within { count ≤ length sheet.old }
    requires few { count ≤ 1024 }
    ensures { sheet.new ≡ laid (counting 0 0 (take count sheet.old)) sheet.old }
{
    let mut last = None;
    for t in sheet[..count].iter_mut() {
        if t.level == 0 {
            let run = counted_run(last, t.run);
            last = Some((t.run, run));
            t.run = run;
        }
    }
}

// The run that a table of level 0 gets, where the last that was counted is given by its old run and its new one.
fn counted_run(last: Option<(u16, u16)>, run: u16) -> u16
    requires { next_run last < 65536 }
    ensures { result ≡ counted_run (old_run last) (next_run last) run }
{
    match last {
        Some((old, new)) if old == run => new,
        Some((_, new)) => new + 1,
        None => 0,
    }
}
