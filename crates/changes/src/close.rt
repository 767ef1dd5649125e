//! Closing a job in the lent sheet. What is public here serves the job book, which has tested that book and sheet are sound and has found the job: hence the `requires`.
ghost use Rattle.std.specs.Prelude.{◌≡◌, ℕ, ◌^◌, ◌≤◌, Bool, List, [], reverse, length, take, is_ok, if◌then◌else◌, Some, filter};
ghost use Rattle.runs.specs.declared.fresh.Fresh.{Fresh};
ghost use Rattle.runs.specs.Run.{span_of};
ghost use Rattle.sheets.specs.Edits.{laid};
ghost use Rattle.sheets.specs.Level.{size_of};
ghost use Rattle.sheets.specs.Tables.{named, without};
ghost use Rattle.books.specs.Close.{first_fault, bad_table, bad_output, bad_outputs, follows, closed};
ghost use Rattle.books.specs.Land.{has_room};
ghost use Rattle.changes.specs.Changes.{SoundOn};
ghost use Rattle.changes.specs.Close.{job, job_to, merge_fits, swapped, Runs, Says, Closes};

use crate::land::is_fresh_ok;
use edits::records::{has_number, remove_all, span_held};
use edits::recount::recount;
use edits::settling::{part, settle, take_in};
use keys::key_kind::KeyKind;
use keys::key_range::KeyRange;
use refusals::refusal::Refusal;
use runs::fresh::Fresh;
use runs::sizes::total_size;
use runs::table::Table;
use sheets::sound::MOST_BYTES;
use strategies::choice::Kind;

/// A running job: what is done, the level that takes its tables (0 for a drop), and their numbers.
#[derive(Clone, Copy)]
pub struct RunningJob<'a> {
    pub kind: Kind,
    pub destination: u8,
    pub numbers: &'a [u64],
}

impl<'a> RunningJob<'a> {
    /// Closes the job: its tables leave, what it brings in comes, each in its place, and level 0's runs are counted anew. How many stand then.
    /// Refused, first by an output that may not stand with the others, then by outputs that do not fit the job, then where sheet or total have no room, the sheet keeps its content.
    pub fn close<K: KeyKind>(
        &self,
        outputs: &[Fresh<K>],
        sheet: &mut [Table<K>],
        standing: usize,
    ) -> Result<usize, Refusal>
        requires sound { SoundOn K.ranks sheet.old standing }
        requires runs { Runs K.ranks (take standing sheet.old) (job self.now) }
        ensures answer { Closes K.ranks (job self.now) outputs.now sheet.old standing sheet.new result }
        ensures sheet { sheet.new ≡ (if is_ok result then laid (closed K.ranks (job self.now) outputs.now (take standing sheet.old)) sheet.old else sheet.old) }
    {
        self.test_close(outputs, sheet, standing)?;
        let count = self.swap(outputs, sheet, standing);
        recount(sheet, count);
        Ok(count)
    }

    // Whether the job may be closed with these outputs, else the first reason against it.
    fn test_close<K: KeyKind>(
        &self,
        outputs: &[Fresh<K>],
        sheet: &[Table<K>],
        standing: usize,
    ) -> Result<(), Refusal>
        requires { SoundOn K.ranks sheet.now standing }
        ensures { Says K.ranks (job self.now) outputs.now sheet.now standing result }
    {
        let tables = &sheet[..standing];
        if let Some(place) = first_bad_table(tables, outputs) {
            return Err(Refusal::BadTable(place));
        }
        if let Some(place) = self.first_bad_output(tables, outputs) {
            return Err(Refusal::BadOutputs(place));
        }
        if !self.has_room(outputs, sheet, standing) {
            return Err(Refusal::Full);
        }
        Ok(())
    }

    /// The place of outputs that do not fit the job: a move and a drop have none; those of a merge, at least one, lie inside the span of its tables, each behind the one before it.
    pub fn first_bad_output<K: KeyKind>(
        &self,
        tables: &[Table<K>],
        outputs: &[Fresh<K>],
    ) -> Option<usize>
        ensures { result ≡ bad_outputs K.ranks self.now.kind (span_of K.ranks (λ t. t.range) (filter (named self.now.numbers.now) tables.now)) outputs.now }
    {
        match (self.kind, outputs.is_empty()) {
            (Kind::Merge, true) => Some(0),
            (Kind::Merge, false) => span_held(tables, self.numbers).map_or(
                Some(0),
                |span| first_outside(&span, outputs),
            ),
            (Kind::Move | Kind::Drop, true) => None,
            (Kind::Move | Kind::Drop, false) => Some(0),
        }
    }

    /// Whether sheet and total have room for what the closed job leaves. A move and a drop leave no more than stood, and where to a merge goes makes no difference.
    pub fn has_room<K: KeyKind>(
        &self,
        outputs: &[Fresh<K>],
        sheet: &[Table<K>],
        standing: usize,
    ) -> bool
        requires within { standing ≤ length sheet.now }
        requires total { size_of (take standing sheet.now) ≤ 2 ^ 53 }
        ensures { (destination : ℕ) → result ≡ has_room (length sheet.now) (closed K.ranks (job_to destination self.now) outputs.now (take standing sheet.now)) }
    {
        match self.kind {
            Kind::Merge => self.merge_fits(outputs, sheet, standing),
            Kind::Move | Kind::Drop => true,
        }
    }

    // Whether sheet and total have room for the outputs in place of the job's tables.
    fn merge_fits<K: KeyKind>(
        &self,
        outputs: &[Fresh<K>],
        sheet: &[Table<K>],
        standing: usize,
    ) -> bool
        requires within { standing ≤ length sheet.now }
        requires total { size_of (take standing sheet.now) ≤ 2 ^ 53 }
        ensures { result ≡ merge_fits (length sheet.now) (without self.now.numbers.now (take standing sheet.now)) outputs.now }
    {
        let (count, bytes) = weigh_left(&sheet[..standing], self.numbers);
        outputs.len() <= sheet.len() - count && total_size(outputs, MOST_BYTES - bytes).is_some()
    }

    // The job's tables leave, and what it brings in comes, each in its place. How many stand then.
    fn swap<K: KeyKind>(
        &self,
        outputs: &[Fresh<K>],
        sheet: &mut [Table<K>],
        standing: usize,
    ) -> usize
        requires within { standing ≤ length sheet.old }
        requires room { length (swapped K.ranks (job self.now) outputs.now (take standing sheet.old)) ≤ length sheet.old }
        ensures count { result ≡ length (swapped K.ranks (job self.now) outputs.now (take standing sheet.old)) }
        ensures sheet { sheet.new ≡ laid (swapped K.ranks (job self.now) outputs.now (take standing sheet.old)) sheet.old }
    {
        match self.kind {
            Kind::Move => {
                let left = part(sheet, standing, self.numbers);
                take_in(sheet, left, standing, self.destination);
                standing
            }
            Kind::Merge => {
                let left = remove_all(sheet, standing, self.numbers);
                settle(sheet, left, self.destination, outputs)
            }
            Kind::Drop => remove_all(sheet, standing, self.numbers),
        }
    }
}

/// The place of the first output that may not stand with the tables or has the number of one before it.
pub fn first_bad_table<K: KeyKind>(tables: &[Table<K>], outputs: &[Fresh<K>]) -> Option<usize>
    ensures { result ≡ first_fault (bad_table K.ranks tables.now) [] outputs.now }
{
    first_fault(
        outputs,
        |before, output| is_bad_table(tables, before, output),
    )
}

// The place of the first output that is outside the span, or does not begin after the one before it ends.
fn first_outside<K: KeyKind>(span: &KeyRange<K>, outputs: &[Fresh<K>]) -> Option<usize>
    ensures { result ≡ first_fault (bad_output K.ranks (Some span.now)) [] outputs.now }
{
    first_fault(
        outputs,
        |before, output| is_bad_output(span, before, output),
    )
}

// The place of the first output that is at fault, given those before it.
fn first_fault<K, F: Fn(&[Fresh<K>], &Fresh<K>) -> bool>(
    outputs: &[Fresh<K>],
    is_fault: F,
) -> Option<usize>
    requires { F.IsAlwaysCallable is_fault }
    ensures { (p : List (Fresh K) → Fresh K → Bool) → ((before : _) (output : _) (r : Bool) → F.post is_fault before output r → r ≡ p (reverse before.now) output.now) → result ≡ first_fault p [] outputs.now }
{
    outputs
        .iter()
        .enumerate()
        .position(|(i, output)| is_fault(&outputs[..i], output))
}

// Whether the output may not stand with the tables, or has the number of one of those before it.
fn is_bad_table<K: KeyKind>(tables: &[Table<K>], before: &[Fresh<K>], output: &Fresh<K>) -> bool
    ensures { result ≡ bad_table K.ranks tables.now (reverse before.now) output.now }
{
    !is_fresh_ok(tables, output) || has_number(before, output.number)
}

// Whether the output is outside the span, or does not begin after the last of those before it ends.
fn is_bad_output<K: KeyKind>(span: &KeyRange<K>, before: &[Fresh<K>], output: &Fresh<K>) -> bool
    ensures { result ≡ bad_output K.ranks (Some span.now) (reverse before.now) output.now }
{
    !span.contains_range(&output.range) || !follows(before, output)
}

// Whether the output begins after the last of those before it ends.
fn follows<K: KeyKind>(before: &[Fresh<K>], output: &Fresh<K>) -> bool
    ensures { result ≡ follows K.ranks (reverse before.now) output.now }
{
    before
        .last()
        .is_none_or(|last| last.range.ends_before(&output.range))
}

// How many of the tables are not listed, and their bytes: each is looked up once.
fn weigh_left<K>(tables: &[Table<K>], numbers: &[u64]) -> (usize, u64)
    requires { size_of tables.now ≤ 2 ^ 53 }
    ensures count { result.0 ≡ length (without numbers.now tables.now) }
    ensures bytes { result.1 ≡ size_of (without numbers.now tables.now) }
{
    let mut count = 0;
    let mut bytes = 0;
    for t in tables {
        if !numbers.contains(&t.number) {
            count += 1;
            bytes += t.size;
        }
    }
    (count, bytes)
}
