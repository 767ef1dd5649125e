//! The calls on the open book.
ghost use Rattle.std.specs.Prelude.{◌≡◌, ℕ, List, [], ◌∷◌, MatchResult, take, Some, string_bytes, OnOk};
ghost use Rattle.sheets.specs.Edits.{laid};
ghost use Rattle.strategies.specs.Question.{count_in};
ghost use Rattle.standard.specs.declared.standard.Settings.{Settings};
ghost use Rattle.standard.specs.Standard.{standard};
ghost use Rattle.texts.specs.declared.fault.Fault.TheVariants.{Memory};
ghost use Rattle.books.specs.Deed.{perform};
ghost use Rattle.jobs.specs.declared.call.Call.{Call};
ghost use Rattle.jobs.specs.declared.call.Reply.{Reply};
ghost use Rattle.jobs.specs.Call.{deed, replied};
ghost use Rattle.jobs.specs.View.{state};
ghost use Rattle.desk.specs.Calls.{done_by, ids_of, Tells, Makes};
ghost use Rattle.desk.specs.Carrying.{Appends};
ghost use Rattle.desk.specs.Malformed.{OnlyMemory, OnlyOpen};

use crate::histories::{History, Phase};
use history::replay::{Outcome, replay};
use jobs::call::{Call, Query, Reply};
use jobs::job_book::JobBook;
use reports::report::{Done, write_booked, write_choice, write_done, write_refusal};
use runs::table::Table;
use scripts::command::Question;
use sheets::sound::MOST_TABLES;
use standard::standard::{Settings, Standard};
use std::alloc::Global;
use strategies::choice::Choice;
use texts::fault::{Expected, Fault};
use texts::key_text::KeyText;

impl<K: KeyText + Default> History<K> {
    // Makes a call on the open book, and writes what came of it.
    pub(crate) fn make(
        &mut self,
        calls: &[Call<'_, K, Settings<K>>],
        out: &mut String,
    ) -> Result<(), Fault>
        ensures made { (call : Call K (Settings K)) → calls.now ≡ call ∷ [] → OnOk result (Appends (string_bytes out.old) (string_bytes out.new) (Makes K.ranks (λ st. deed (standard K.ranks) st.blobs call (ids_of self.old)) self.old.outputs.items self.old self.new)) }
        ensures fails { OnlyOpen self.old.phase result }
    {
        let Phase::Open(book) = &mut self.phase else {
            return Err(Fault::Malformed(Expected::OpenBook));
        };
        let mut room = [0u64; MOST_TABLES];
        let ids = &mut room[..self.id_places.min(MOST_TABLES)];
        make_one(book, self.sheet.as_mut_slice(), calls, ids, out)
    }
}

// Makes one call on a book, and writes what came of it.
fn make_one<K: KeyText>(
    book: &mut JobBook,
    sheet: &mut [Table<K>],
    calls: &[Call<'_, K, Settings<K>>],
    ids: &mut [u64],
    out: &mut String,
) -> Result<(), Fault>
    ensures state { (call : Call K (Settings K)) → calls.now ≡ call ∷ [] → state book.new sheet.new ≡ (perform K.ranks (deed (standard K.ranks) book.old.blob_total call ids.old) (state book.old sheet.old)).0 }
    ensures rest { (call : Call K (Settings K)) → calls.now ≡ call ∷ [] → sheet.new ≡ laid (state book.new sheet.new).tables sheet.old }
    ensures told { (call : Call K (Settings K)) → calls.now ≡ call ∷ [] → OnOk result (Appends (string_bytes out.old) (string_bytes out.new) (Tells (done_by (deed (standard K.ranks) book.old.blob_total call ids.old)) (perform K.ranks (deed (standard K.ranks) book.old.blob_total call ids.old) (state book.old sheet.old)).1)) }
    ensures fails { OnlyMemory result }
{
    let mut outcomes = [Outcome { reply: None, ids }];
    replay::<K, K, Standard>(book, sheet, calls, &mut outcomes);
    write_outcome(out, done_by(calls), &outcomes[0])
}

// The line of the reply in an outcome, if it is made.
fn write_outcome(out: &mut String, done: Done, outcome: &Outcome<'_>) -> Result<(), Fault>
    ensures line { (r : Reply) → outcome.now.reply ≡ Some r → OnOk result (Appends (string_bytes out.old) (string_bytes out.new) (Tells done (replied r outcome.now.ids.now))) }
    ensures fails { OnlyMemory result }
{
    match outcome.reply {
        None => Ok(()),
        Some(reply) => write_reply(out, done, reply, outcome.ids),
    }
}

// What is done by one call that asks no strategy.
fn done_by<K: KeyText>(calls: &[Call<'_, K, Settings<K>>]) -> Done
    ensures { (call : Call K (Settings K)) (blobs : ℕ) (ids : List ℕ) → calls.now ≡ call ∷ [] → result ≡ done_by (deed (standard K.ranks) blobs call ids) }
{
    match calls {
        [Call::Land(_), ..] => Done::Landed,
        [Call::Close { .. }, ..] => Done::Closed,
        _ => Done::GivenUp,
    }
}

// A list of one call.
pub(crate) fn one<T: Drop>(heap: Global, item: T) -> Result<Vec<T>, Fault>
    ensures { MatchResult result (λ v. v.items ≡ item ∷ []) (λ e. e ≡ Memory) }
{
    let mut items = Vec::new(heap);
    items.push(item)?;
    Ok(items)
}

/// A question as a call puts it.
pub(crate) fn query<K>(question: Question<K>) -> Query<Settings<K>>
    ensures { result ≡ record { settings = question.settings; clock = question.clock } }
{
    let Question { clock, settings } = question;
    Query { settings, clock }
}

// The line of a reply.
fn write_reply(out: &mut String, done: Done, reply: Reply, ids: &[u64]) -> Result<(), Fault>
    ensures line { OnOk result (Appends (string_bytes out.old) (string_bytes out.new) (Tells done (replied reply ids.now))) }
    ensures fails { OnlyMemory result }
{
    match reply {
        Reply::Ended(Ok(())) => write_done(out, done),
        Reply::Chosen(Ok(choice)) => write_choice(out, &choice, named(&choice, ids)),
        Reply::Booked(Ok(booked)) => {
            write_booked(
                out,
                booked.ticket,
                &booked.choice,
                named(&booked.choice, ids),
            )
        }
        Reply::Ended(Err(refusal)) | Reply::Chosen(Err(refusal)) | Reply::Booked(Err(refusal)) => {
            write_refusal(out, refusal)
        }
    }
}

// The numbers of the tables that a choice names: as many of the id sheet's front.
fn named<'a>(choice: &Choice, ids: &'a [u64]) -> &'a [u64]
    ensures { result.now ≡ take (count_in choice.now) ids.now }
{
    &ids[..choice.count().min(ids.len())]
}
