//! A history of a script, read up to its end.
use runs::fresh::Fresh;
use runs::table::Table;
use scripts::command::{Command, Word};
use sheets::sound::MOST_TABLES;
use std::alloc::{AllocError, Global};
use texts::fault::{Expected, Fault};
use texts::key_text::KeyText;
use texts::words::Words;

/// A call on the book, as a line says it.
#[derive(Drop)]
pub struct Said<K> {
    /// The words of the line.
    pub words: String,
    pub command: Command<K>,
    /// Places in the id sheet.
    pub id_places: usize,
    /// How many outputs the history had before it.
    pub outputs: usize,
}

/// What the lines of a history say.
#[derive(Drop)]
pub struct History<K> {
    /// Places in the table sheet.
    pub places: usize,
    /// Places in the id sheet, as said last.
    pub id_places: usize,
    /// The tables that stand when the book is opened.
    pub tables: Vec<Table<K>>,
    /// The blob total, once the book is opened.
    pub blob_total: Option<u64>,
    /// All outputs.
    pub outputs: Vec<Fresh<K>>,
    pub calls: Vec<Said<K>>,
}

impl<K: KeyText> History<K> {
    /// No line yet.
    pub fn new(heap: Global) -> History<K> {
        History {
            places: MOST_TABLES,
            id_places: MOST_TABLES,
            tables: Vec::new(heap),
            blob_total: None,
            outputs: Vec::new(heap),
            calls: Vec::new(heap),
        }
    }

    // Whether the word may stand here: the sheet is filled before the book is opened, and the book is asked after.
    fn admit(&self, word: Word) -> Result<(), Fault> {
        match (self.blob_total, word) {
            (_, Word::Ids) => Ok(()),
            (None, Word::Sheet | Word::Table | Word::Open) => Ok(()),
            (None, _) => Err(Fault::Malformed(Expected::OpenBook)),
            (Some(_), Word::Sheet | Word::Table | Word::Open) => {
                Err(Fault::Malformed(Expected::NoBook))
            }
            (Some(_), _) => Ok(()),
        }
    }

    /// Takes in what a line says behind its first word.
    pub fn read(
        &mut self,
        heap: Global,
        text: &str,
        word: Word,
        words: &mut Words<'_>,
    ) -> Result<(), Fault> {
        self.admit(word)?;
        match Command::read(heap, word, words)? {
            Command::Sheet(places) => self.places = places,
            Command::Ids(places) => self.id_places = places,
            Command::Table(table) => self.tables.push(table)?,
            Command::Open(blob_total) => self.blob_total = Some(blob_total),
            Command::Output(table) => self.outputs.push(table)?,
            Command::Show => {}
            command => self.calls.push(Said {
                words: spelt(heap, text)?,
                command,
                id_places: self.id_places,
                outputs: self.outputs.len(),
            })?,
        }
        Ok(())
    }
}

// The words of a line with a space between them.
fn spelt(heap: Global, text: &str) -> Result<String, AllocError> {
    let mut spelt = String::new(heap);
    for word in Words::new(text) {
        if !spelt.is_empty() {
            spelt.push(' ')?;
        }
        spelt.push_str(word)?;
    }
    Ok(spelt)
}
