//! A run that a pick looks at.
ghost use Rattle.std.specs.Prelude.{◌≡◌};
ghost use Rattle.picks.specs.Marks.{Marked};

use crate::level_run::LevelRun;
use runs::ranged::TableFile;
use sheets::hidden_set::HiddenSet;
use sheets::marks::marks_of;
use sheets::sound::MOST_TABLES;

/// The run of a level, with a mark for each table: whether it is hidden.
#[derive(Drop)]
pub struct MarkedRun<'a, T: TableFile> {
    pub level: LevelRun<'a, T>,
    /// Looked up once for each pick.
    pub marks: [bool; MOST_TABLES],
}

impl<'a, T: TableFile> MarkedRun<'a, T> {
    /// Looks each table of the run up in the hidden set.
    pub fn new(level: LevelRun<'a, T>, hidden_set: &HiddenSet) -> MarkedRun<'a, T>
        ensures tables { result.level.run.tables.now ≡ level.entry.run.tables.now }
        ensures marks { Marked T.named hidden_set.now result.level.run.tables.now result.marks }
    {
        let marks = marks_of(level.run.tables, |t| hidden_set.is_hidden(t.id()));
        MarkedRun { level, marks }
    }
}
