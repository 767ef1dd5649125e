//! One history of a script: a sheet that is filled, and then the book that is open on it.
ghost use Rattle.std.specs.Prelude.{◌≡◌, ◌<◌, ◌≤◌, [], ◌++◌, length, MatchResult, string_bytes, Err, IfOk, OnOk};
ghost use Rattle.texts.specs.declared.fault.Expected.TheVariants.{OpenBook, Place};
ghost use Rattle.texts.specs.declared.fault.Fault.TheVariants.{Malformed};
ghost use Rattle.scripts.specs.Command.{SaysCall};
ghost use Rattle.books.specs.Deed.{closing};
ghost use Rattle.desk.specs.declared.histories.Phase.TheVariants.{Filling, Open};
ghost use Rattle.desk.specs.Calls.{Makes};
ghost use Rattle.desk.specs.Carrying.{Appends, OnRefused, CarriesCall};
ghost use Rattle.desk.specs.History.{Stands, lacks, MayStand, IsFresh, IsWhole, Opens};
ghost use Rattle.desk.specs.Malformed.{admitted, OnlyMemory, OnlyOpen, OnMalformed, MalformedCall};

use crate::calls::{one, query};
use jobs::call::Call;
use jobs::job_book::JobBook;
use reports::report::{write_opened, write_refusal};
use runs::fresh::Fresh;
use runs::table::Table;
use scripts::command::{Command, Word};
use sheets::sound::MOST_TABLES;
use std::alloc::{AllocError, Global};
use std::mem::replace;
use texts::fault::{Expected, Fault};
use texts::key_text::KeyText;
use texts::words::Words;

/// How many places a sheet has unless the script says otherwise.
const PLACES: usize = MOST_TABLES;

// The most places of a sheet that stand in memory: one more than a sound sheet may have, so that a larger one is refused too.
const MOST_PLACES: usize = MOST_TABLES + 1;

/// How far a history has come.
#[derive(Drop)]
pub(crate) enum Phase {
    /// The sheet is filled.
    Filling,
    /// The book is open, and is asked.
    Open(JobBook),
}

/// One history: its sheets, and the book once it is open.
#[derive(Drop)]
pub struct History<K> {
    /// Places in the table sheet.
    places: usize,
    /// Places in the id sheet.
    pub(crate) id_places: usize,
    /// The table sheet. As long as it is filled, these are the tables that stand; its spare places come with the book.
    pub(crate) sheet: Vec<Table<K>>,
    pub(crate) phase: Phase,
    /// The outputs for the next close.
    outputs: Vec<Fresh<K>>,
}

impl<K: KeyText + Default> History<K> {
    // No tables yet.
    pub(crate) fn new(heap: Global) -> History<K>
        ensures { IsFresh result }
    {
        History {
            places: PLACES,
            id_places: PLACES,
            sheet: Vec::new(heap),
            phase: Phase::Filling,
            outputs: Vec::new(heap),
        }
    }

    // Whether the word may stand here: the sheet is filled before the book is opened, and the book is asked after.
    fn admit(&self, word: Word) -> Result<(), Fault>
        ensures { result ≡ admitted (lacks self.now word) }
    {
        let is_full = self.sheet.len() >= self.places;
        match (&self.phase, word) {
            (_, Word::Ids) => Ok(()),
            (Phase::Filling, Word::Table) if is_full => Err(Fault::Malformed(Expected::Place)),
            (Phase::Filling, Word::Sheet | Word::Table | Word::Open) => Ok(()),
            (Phase::Filling, _) => Err(Fault::Malformed(Expected::OpenBook)),
            (Phase::Open(_), Word::Sheet | Word::Table | Word::Open) => {
                Err(Fault::Malformed(Expected::NoBook))
            }
            (Phase::Open(_), _) => Ok(()),
        }
    }

    // Reads what stands behind the first word of a line, and carries it out: its answer is written behind what is there.
    pub(crate) fn answer(
        &mut self,
        heap: Global,
        word: Word,
        words: &mut Words<'_>,
        out: &mut String,
    ) -> Result<(), Fault>
        ensures does { OnOk result (Appends (string_bytes out.old) (string_bytes out.new) (CarriesCall K.KeyText.says K.KeyText.spelt K.ranks word words.old self.old self.new)) }
        ensures refused { OnRefused result (λ refusal. (self.new ≡ self.old) × (string_bytes out.new ≡ string_bytes out.old) × MayStand self.old word × SaysCall K.KeyText.says word words.old (Err refusal)) }
        ensures malformed { OnMalformed result (λ expected. (self.new ≡ self.old) × (string_bytes out.new ≡ string_bytes out.old) × MalformedCall K.KeyText.says word words.old self.old expected) }
    {
        self.admit(word)?;
        match Command::read(heap, word, words)? {
            Command::Sheet(places) => self.set_places(places),
            Command::Ids(places) => {
                self.id_places = places;
                Ok(())
            }
            Command::Table(table) => {
                self.sheet.push(table)?;
                Ok(())
            }
            Command::Open(blob_total) => self.open(heap, blob_total, out),
            Command::Land(table) => self.make(one(heap, Call::Land(table))?.as_slice(), out),
            Command::Propose(question) => self.make(
                one(heap, Call::Propose(query(question)))?.as_slice(),
                out,
            ),
            Command::LookAhead(question) => self.make(
                one(heap, Call::LookAhead(query(question)))?.as_slice(),
                out,
            ),
            Command::Book(question) => self.make(
                one(heap, Call::Book(query(question)))?.as_slice(),
                out,
            ),
            Command::Output(table) => {
                self.outputs.push(table)?;
                Ok(())
            }
            Command::Close(ticket) => self.close(heap, ticket, out),
            Command::GiveUp(ticket) => self.make(one(heap, Call::GiveUp(ticket))?.as_slice(), out),
            Command::Show => self.show(heap, out),
        }
    }

    // The sheet has another number of places, unless that is fewer than its tables.
    fn set_places(&mut self, places: usize) -> Result<(), Fault>
        ensures { MatchResult result (λ _. (length self.old.sheet.items ≤ places) × Stands self.new places self.old.id_places self.old.sheet.items self.old.phase self.old.outputs.items) (λ e. (e ≡ Malformed Place) × (self.new ≡ self.old) × (places < length self.old.sheet.items)) }
    {
        if places < self.sheet.len() {
            return Err(Fault::Malformed(Expected::Place));
        }
        self.places = places;
        Ok(())
    }

    // The tables that were given, and spare places behind them.
    fn whole_sheet(&self, heap: Global) -> Result<Vec<Table<K>>, AllocError>
        ensures { IfOk result (λ sheet. IsWhole self.now.places self.now.sheet.items sheet.items) }
    {
        let mut sheet = Vec::from_slice(heap, self.sheet.as_slice())?;
        sheet.resize(self.places.min(MOST_PLACES), Table::default())?;
        Ok(sheet)
    }

    // Opens the book on the tables that were given, or writes why it is refused.
    fn open(&mut self, heap: Global, blob_total: u64, out: &mut String) -> Result<(), Fault>
        ensures opens { OnOk result (Appends (string_bytes out.old) (string_bytes out.new) (Opens K.ranks blob_total self.old self.new)) }
        ensures fails { OnlyMemory result }
    {
        let standing = self.sheet.len();
        let sheet = self.whole_sheet(heap)?;
        match JobBook::open(sheet.as_slice(), standing, blob_total) {
            Ok(book) => {
                self.sheet = sheet;
                self.phase = Phase::Open(book);
                write_opened(out, standing)
            }
            Err(refusal) => write_refusal(out, refusal),
        }
    }

    // The open book.
    pub(crate) fn book(&self) -> Result<&JobBook, Fault>
        ensures { MatchResult result (λ book. self.now.phase ≡ Open book.now) (λ e. (e ≡ Malformed OpenBook) × (self.now.phase ≡ Filling)) }
    {
        match &self.phase {
            Phase::Filling => Err(Fault::Malformed(Expected::OpenBook)),
            Phase::Open(book) => Ok(book),
        }
    }

    // Closes the job of the ticket's number with the outputs given so far, which are used up, whatever comes of it.
    fn close(&mut self, heap: Global, ticket: u64, out: &mut String) -> Result<(), Fault>
        ensures closes { OnOk result (Appends (string_bytes out.old) (string_bytes out.new) (Makes K.ranks (λ st. closing ticket self.old.outputs.items) [] self.old self.new)) }
        ensures fails { OnlyOpen self.old.phase result }
    {
        let outputs = replace(&mut self.outputs, Vec::new(heap));
        self.close_with(heap, ticket, outputs.as_slice(), out)
    }

    // Closes the job of the ticket's number with these outputs.
    fn close_with(
        &mut self,
        heap: Global,
        ticket: u64,
        outputs: &[Fresh<K>],
        out: &mut String,
    ) -> Result<(), Fault>
        ensures closes { OnOk result (Appends (string_bytes out.old) (string_bytes out.new) (Makes K.ranks (λ st. closing ticket outputs.now) self.old.outputs.items self.old self.new)) }
        ensures fails { OnlyOpen self.old.phase result }
    {
        self.make(one(heap, Call::Close { ticket, outputs })?.as_slice(), out)
    }
}
