//! Making the calls of a list.
ghost use Rattle.std.specs.Prelude.{◌≡◌, map};
ghost use Rattle.books.specs.Deed.{after, said, Keep};
ghost use Rattle.books.specs.Promise.{StaysSound};
ghost use Rattle.jobs.specs.View.{state};
ghost use Rattle.history.specs.Alike.{CallsAlike};
ghost use Rattle.history.specs.Picks.{ListsPickWell};
ghost use Rattle.history.specs.Replay.{deeds, sheet_after, shown, answered};

use jobs::call::{Call, Reply};
use jobs::job_book::JobBook;
use keys::key_kind::KeyKind;
use runs::table::Table;
use strategies::strategy::CompactionStrategy;

/// The outcome of a call: its reply, once it is made, and the id sheet for the numbers that it names.
#[derive(Drop)]
pub struct Outcome<'a> {
    pub reply: Option<Reply>,
    pub ids: &'a mut [u64],
}

/// Makes the calls of a list in turn, on one book and sheet: as many as have an outcome. The reply to each goes into its outcome, and the numbers that a choice names into that outcome's id sheet.
///
/// The last three clauses are promises over every list of calls, between keys of the kinds `K` and `L`, whatever this list is. What they ask of strategies, the calls of this list keep (`lawful`).
pub fn replay<K: KeyKind, L: KeyKind, S: CompactionStrategy<K>>(
    book: &mut JobBook,
    sheet: &mut [Table<K>],
    calls: &[Call<'_, K, S::Settings>],
    outcomes: &mut [Outcome<'_>],
)
    ensures state { state book.new sheet.new ≡ after K.ranks (deeds S.CompactionStrategy.chooses book.old.blob_total calls.now outcomes.old) (state book.old sheet.old) }
    ensures rest { sheet.new ≡ sheet_after K.ranks (deeds S.CompactionStrategy.chooses book.old.blob_total calls.now outcomes.old) (state book.old sheet.old) sheet.old }
    ensures outcomes { map shown outcomes.new ≡ answered (said K.ranks (deeds S.CompactionStrategy.chooses book.old.blob_total calls.now outcomes.old) (state book.old sheet.old)) (map shown outcomes.old) }
    ensures lawful { Keep K.ranks (deeds S.CompactionStrategy.chooses book.old.blob_total calls.now outcomes.old) }
    ensures alike { CallsAlike K.ranks L.ranks }
    ensures sound { StaysSound K.ranks }
    ensures picks { ListsPickWell K.ranks }
{
    for i in 0..calls.len().min(outcomes.len()) {
        let outcome = &mut outcomes[i];
        outcome.reply = Some(book.perform::<K, S>(sheet, &calls[i], outcome.ids));
    }
}
