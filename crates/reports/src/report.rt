//! The lines of the answers.
ghost use Rattle.std.specs.Prelude.{◌≡◌, ◌++◌, Some, string_bytes, OnOk, IfErr};
ghost use Rattle.texts.specs.declared.fault.Fault.TheVariants.{Memory};
ghost use Rattle.reports.specs.Report.{spaced, list_line, input_text, choice_text, choice_line, booked_line, task_text, job_line, done_text, done_line, opened_line, refusal_words, refused_line, table_line};

use refusals::refusal::Refusal;
use runs::table::Table;
use slots::job::Task;
use std::fmt;
use strategies::choice::{Choice, Input};
use texts::fault::Fault;
use texts::key_text::{KeyText, Spelt};

// A refusal in plain words.
fn words(refusal: Refusal) -> &'static str
    ensures { result.now ≡ refusal_words refusal }
{
    match refusal {
        Refusal::NotSound => "the book or the sheet is not sound",
        Refusal::NoSuchJob => "no running job has this number",
        Refusal::BadTable(_) => "a table is malformed or its number is taken",
        Refusal::BadOutputs(_) => "the outputs do not fit the job",
        Refusal::Full => "the sheet or the total of sizes would be passed",
        Refusal::BadSetting => "a setting is outside its limits",
        Refusal::ManyRuns => "level 0 has more than one run",
        Refusal::HiddenTable(_) => "a table of level 0 is hidden",
        Refusal::IdsTooShort => "the id sheet is too short",
        Refusal::NamesNoTable => "the choice names no table",
        Refusal::AlreadyHidden(_) => "a table of the choice is hidden",
        Refusal::SpanTaken => "a running job to the same level meets the span",
        Refusal::BookFull => "no job is free or too many tables would be hidden",
        Refusal::KeyTooLong => "a byte key has more than 32 bytes",
    }
}

/// The line of a refusal.
pub fn write_refusal(out: &mut String, refusal: Refusal) -> Result<(), Fault>
    ensures line { OnOk result (string_bytes out.new ≡ string_bytes out.old ++ refused_line refusal) }
    ensures fails { IfErr result (λ e. e ≡ Memory) }
{
    writeln!(
        out,
        "refused {} {} {} {}",
        refusal.number(),
        refusal.layer().letter(),
        refusal.place(),
        words(refusal)
    )?;
    Ok(())
}

// Each number behind a space.
#[derive(Drop)]
struct Spaced<'a>(&'a [u64]);

impl fmt::Display for Spaced<'_> {
    ghost output = { λ numbers. Some (spaced numbers.0.now) };

    fn fmt<W: fmt::Write>(&self, f: &mut fmt::Formatter<W>) -> fmt::Result {
        for number in self.0 {
            write!(f, " {number}")?;
        }
        Ok(())
    }
}

/// A line of numbers behind a title.
pub fn write_list(out: &mut String, title: &str, numbers: &[u64]) -> Result<(), Fault>
    ensures line { OnOk result (string_bytes out.new ≡ string_bytes out.old ++ list_line title.now numbers.now) }
    ensures fails { IfErr result (λ e. e ≡ Memory) }
{
    writeln!(out, "{title}:{}", Spaced(numbers))?;
    Ok(())
}

// Where a move or a merge goes.
#[derive(Drop)]
struct Towards<'a>(&'a Input);

impl fmt::Display for Towards<'_> {
    ghost output = { λ input. Some (input_text input.0.now) };

    fn fmt<W: fmt::Write>(&self, f: &mut fmt::Formatter<W>) -> fmt::Result {
        let Input {
            tables,
            dest_level,
            canonical_level,
            target_size,
        } = *self.0;
        write!(
            f,
            "to {dest_level} canonical {canonical_level} target {target_size} bytes {}",
            tables.bytes
        )
    }
}

// A choice with the numbers of its tables.
#[derive(Drop)]
struct Chosen<'a> {
    choice: &'a Choice,
    numbers: &'a [u64],
}

impl fmt::Display for Chosen<'_> {
    ghost output = { λ chosen. Some (choice_text chosen.choice.now chosen.numbers.now) };

    fn fmt<W: fmt::Write>(&self, f: &mut fmt::Formatter<W>) -> fmt::Result {
        let numbers = Spaced(self.numbers);
        match self.choice {
            Choice::DoNothing => f.write_str("nothing"),
            Choice::Move(input) => write!(f, "move {}:{numbers}", Towards(input)),
            Choice::Merge(input) => write!(f, "merge {}:{numbers}", Towards(input)),
            Choice::Drop(named) => write!(f, "drop bytes {}:{numbers}", named.bytes),
        }
    }
}

/// The line of a choice, with the numbers of its tables.
pub fn write_choice(out: &mut String, choice: &Choice, numbers: &[u64]) -> Result<(), Fault>
    ensures line { OnOk result (string_bytes out.new ≡ string_bytes out.old ++ choice_line choice.now numbers.now) }
    ensures fails { IfErr result (λ e. e ≡ Memory) }
{
    writeln!(out, "{}", Chosen { choice, numbers })?;
    Ok(())
}

/// The line of a choice that was booked, with the number of its ticket.
pub fn write_booked(
    out: &mut String,
    ticket: u64,
    choice: &Choice,
    numbers: &[u64],
) -> Result<(), Fault>
    ensures line { OnOk result (string_bytes out.new ≡ string_bytes out.old ++ booked_line ticket choice.now numbers.now) }
    ensures fails { IfErr result (λ e. e ≡ Memory) }
{
    writeln!(out, "booked {ticket} {}", Chosen { choice, numbers })?;
    Ok(())
}

// What is done with the tables of a job.
#[derive(Drop)]
struct Doing(Task);

impl fmt::Display for Doing {
    ghost output = { λ doing. Some (task_text doing.0) };

    fn fmt<W: fmt::Write>(&self, f: &mut fmt::Formatter<W>) -> fmt::Result {
        match self.0 {
            Task::Move(level) => write!(f, "move to {level}"),
            Task::Merge(level) => write!(f, "merge to {level}"),
            Task::Drop => f.write_str("drop"),
        }
    }
}

/// The line of a running job, by its ticket's number, with the numbers of its tables.
pub fn write_job(out: &mut String, ticket: u64, task: Task, numbers: &[u64]) -> Result<(), Fault>
    ensures line { OnOk result (string_bytes out.new ≡ string_bytes out.old ++ job_line ticket task numbers.now) }
    ensures fails { IfErr result (λ e. e ≡ Memory) }
{
    writeln!(out, "job {ticket} {}:{}", Doing(task), Spaced(numbers))?;
    Ok(())
}

/// What was done by a call that has nothing to hand out.
#[derive(Clone, Copy)]
pub enum Done {
    Landed,
    Closed,
    GivenUp,
}

impl fmt::Display for Done {
    ghost output = { λ done. Some (done_text done) };

    fn fmt<W: fmt::Write>(&self, f: &mut fmt::Formatter<W>) -> fmt::Result {
        match *self {
            Done::Landed => f.write_str("landed"),
            Done::Closed => f.write_str("closed"),
            Done::GivenUp => f.write_str("given up"),
        }
    }
}

/// The line of what was done.
pub fn write_done(out: &mut String, done: Done) -> Result<(), Fault>
    ensures line { OnOk result (string_bytes out.new ≡ string_bytes out.old ++ done_line done) }
    ensures fails { IfErr result (λ e. e ≡ Memory) }
{
    writeln!(out, "{done}")?;
    Ok(())
}

/// The line of a book that was opened on some tables.
pub fn write_opened(out: &mut String, count: usize) -> Result<(), Fault>
    ensures line { OnOk result (string_bytes out.new ≡ string_bytes out.old ++ opened_line count) }
    ensures fails { IfErr result (λ e. e ≡ Memory) }
{
    writeln!(out, "opened {count}")?;
    Ok(())
}

/// The line of a table.
pub fn write_table<K: KeyText>(out: &mut String, table: &Table<K>) -> Result<(), Fault>
    ensures line { OnOk result (string_bytes out.new ≡ string_bytes out.old ++ table_line K.spelt table.now) }
    ensures fails { IfErr result (λ e. e ≡ Memory) }
{
    let (min, max) = (Spelt(&table.range.min), Spelt(&table.range.max));
    writeln!(
        out,
        "table {} {} {} {min} {max} {} {} {}",
        table.number, table.level, table.run, table.size, table.created, table.linked
    )?;
    Ok(())
}
