//! What is shown of an open book: the standing tables, the hidden numbers and the running jobs.
ghost use Rattle.std.specs.Prelude.{◌≡◌, [], ◌∷◌, ◌++◌, map, string_bytes, IfOk, OnOk};
ghost use Rattle.std.specs.List.{position};
ghost use Rattle.books.specs.Job.{is_known, found};
ghost use Rattle.slots.specs.View.{slot};
ghost use Rattle.desk.specs.Carrying.{Appends};
ghost use Rattle.desk.specs.Desk.{table_lines};
ghost use Rattle.desk.specs.Malformed.{OnlyMemory, OnlyOpen};
ghost use Rattle.desk.specs.Show.{ascending, line_of_job, tickets, job_lines, Shows};

use crate::histories::History;
use reports::report::{write_job, write_list, write_table};
use runs::table::Table;
use slots::job::Job;
use slots::job::ops::smallest;
use std::alloc::{AllocError, Global};
use texts::fault::Fault;
use texts::key_text::KeyText;

impl<K: KeyText + Default> History<K> {
    // The standing tables, hidden numbers and running jobs.
    pub(crate) fn show(&self, heap: Global, out: &mut String) -> Result<(), Fault>
        ensures lines { OnOk result (Appends (string_bytes out.old) (string_bytes out.new) (Shows K.KeyText.spelt self.now)) }
        ensures fails { OnlyOpen self.now.phase result }
    {
        let book = self.book()?;
        write_tables(book.tables(self.sheet.as_slice()), out)?;
        let hidden = ascending(heap, book.hidden())?;
        write_list(out, "hidden", hidden.as_slice())?;
        write_jobs(heap, book.jobs(), out)?;
        out.push_str("end\n")?;
        Ok(())
    }
}

// A line for each table.
fn write_tables<K: KeyText>(tables: &[Table<K>], out: &mut String) -> Result<(), Fault>
    ensures lines { OnOk result (string_bytes out.new ≡ string_bytes out.old ++ table_lines K.KeyText.spelt tables.now) }
    ensures fails { OnlyMemory result }
{
    for table in tables {
        write_table(out, table)?;
    }
    Ok(())
}

// Some numbers in ascending order.
fn ascending(heap: Global, numbers: &[u64]) -> Result<Vec<u64>, AllocError>
    ensures { IfOk result (λ v. v.items ≡ ascending numbers.now) }
{
    let mut sorted = Vec::from_slice(heap, numbers)?;
    sorted.as_mut_slice().sort_unstable();
    Ok(sorted)
}

// The numbers by which the running jobs are known.
fn tickets(heap: Global, jobs: &[Job]) -> Result<Vec<u64>, AllocError>
    ensures { IfOk result (λ v. v.items ≡ tickets (map slot jobs.now)) }
{
    let mut numbers = Vec::new(heap);
    for job in jobs {
        push_ticket(&mut numbers, job)?;
    }
    Ok(numbers)
}

// Appends the number by which a slot's job is known, if it runs one.
fn push_ticket(numbers: &mut Vec<u64>, job: &Job) -> Result<(), AllocError>
    ensures { OnOk result (numbers.new.items ≡ numbers.old.items ++ tickets (slot job.now ∷ [])) }
{
    if !job.is_free() {
        numbers.push(smallest(job.numbers()))?;
    }
    Ok(())
}

// A line for each running job, by ticket.
fn write_jobs(heap: Global, jobs: &[Job], out: &mut String) -> Result<(), Fault>
    ensures lines { OnOk result (string_bytes out.new ≡ string_bytes out.old ++ job_lines (map slot jobs.now)) }
    ensures fails { OnlyMemory result }
{
    let tickets = tickets(heap, jobs)?;
    let tickets = ascending(heap, tickets.as_slice())?;
    for ticket in tickets.as_slice() {
        write_known(heap, jobs, *ticket, out)?;
    }
    Ok(())
}

// The line of the job that is known by this number, if there is one.
fn write_known(heap: Global, jobs: &[Job], ticket: u64, out: &mut String) -> Result<(), Fault>
    ensures line { OnOk result (string_bytes out.new ≡ string_bytes out.old ++ line_of_job ticket (found ticket (map slot jobs.now))) }
    ensures fails { OnlyMemory result }
{
    match place_of(jobs, ticket) {
        None => Ok(()),
        Some(place) => write_slot(heap, &jobs[place], ticket, out),
    }
}

// The place of the first slot whose job is known by this number.
fn place_of(jobs: &[Job], ticket: u64) -> Option<usize>
    ensures { result ≡ position (λ job. is_known ticket (slot job)) jobs.now }
{
    jobs.iter().position(|job| job.is_known(ticket))
}

// The line of what a slot runs, under this number.
fn write_slot(heap: Global, job: &Job, ticket: u64, out: &mut String) -> Result<(), Fault>
    ensures line { OnOk result (string_bytes out.new ≡ string_bytes out.old ++ line_of_job ticket (slot job.now)) }
    ensures fails { OnlyMemory result }
{
    match job.state() {
        None => Ok(()),
        Some(task) => {
            let numbers = ascending(heap, job.numbers())?;
            write_job(out, ticket, task, numbers.as_slice())
        }
    }
}
