//! Landing a table.
ghost use Rattle.std.specs.Prelude.{◌≡◌};
ghost use Rattle.sheets.specs.Edits.{laid};
ghost use Rattle.books.specs.Calls.{land};
ghost use Rattle.books.specs.Leaves.{LandsInWords};
ghost use Rattle.jobs.specs.View.{state};

use crate::job_book::JobBook;
use changes::land::land_table;
use keys::key_kind::KeyKind;
use refusals::refusal::Refusal;
use runs::fresh::Fresh;
use runs::table::Table;

impl JobBook {
    /// Puts the fresh table in its place in level 0. Refused, book and sheet keep what they hold.
    pub fn land<K: KeyKind>(
        &mut self,
        sheet: &mut [Table<K>],
        fresh: &Fresh<K>,
    ) -> Result<(), Refusal>
        ensures answer { (state self.new sheet.new, result) ≡ land K.ranks fresh.now (state self.old sheet.old) }
        ensures rest { sheet.new ≡ laid (state self.new sheet.new).tables sheet.old }
        ensures words { LandsInWords K.ranks }
    {
        if !self.is_sound(sheet) {
            return Err(Refusal::NotSound);
        }
        self.standing = land_table(sheet, self.standing, fresh)?;
        Ok(())
    }
}
