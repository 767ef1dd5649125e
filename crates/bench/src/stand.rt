//! Books with their sheets, and the calls on them.
use crate::answer::Answer;
use anyhow::anyhow;
use jobs::call::{Call, Reply};
use jobs::job_book::JobBook;
use keys::key_kind::KeyKind;
use runs::table::Table;
use sheets::sound::MOST_TABLES;
use standard::standard::{Settings, Standard};
use std::alloc::{AllocError, Global};

/// A call on a book, as a line says it.
#[derive(Drop)]
pub struct Line<'a, K: KeyKind> {
    /// The words of the line.
    pub words: String,
    pub call: Call<'a, K, Settings<K>>,
    /// Places in the id sheet.
    pub id_places: usize,
}

impl<K: KeyKind> Line<'_, K> {
    /// Whether the call may leave another book than it finds.
    pub fn changes(&self) -> bool {
        !matches!(&self.call, Call::Propose(_) | Call::LookAhead(_))
    }
}

/// A sheet on which a book is opened.
#[derive(Drop)]
pub struct Opening<K> {
    pub sheet: Vec<Table<K>>,
    /// How many tables stand in it.
    pub standing: usize,
    pub blob_total: u64,
}

impl<K: KeyKind + Default> Opening<K> {
    /// A sheet of so many places, in which these tables stand. Of more places than a sheet may have, one stands here.
    pub fn new(
        tables: Vec<Table<K>>,
        places: usize,
        blob_total: u64,
    ) -> Result<Opening<K>, AllocError> {
        let standing = tables.len();
        let mut sheet = tables;
        sheet.resize(places.min(MOST_TABLES + 1), Table::default())?;
        Ok(Opening {
            sheet,
            standing,
            blob_total,
        })
    }
}

impl<K: KeyKind> Opening<K> {
    /// Book and sheet as the calls leave them, made one after another on a book that is opened.
    pub fn after(&self, heap: Global, lines: &[Line<'_, K>]) -> anyhow::Result<Stand<K>> {
        let sheet = Vec::from_slice(heap, self.sheet.as_slice())?;
        match JobBook::open(sheet.as_slice(), self.standing, self.blob_total) {
            Err(refusal) => Err(anyhow!("the book is not opened: {}", Answer::Refused(refusal))),
            Ok(book) => {
                let mut stand = Stand { book, sheet };
                let mut ids = [0u64; MOST_TABLES];
                for line in lines {
                    stand.make(line, &mut ids);
                }
                Ok(stand)
            }
        }
    }
}

/// A book with its sheet.
#[derive(Drop)]
pub struct Stand<K> {
    pub book: JobBook,
    pub sheet: Vec<Table<K>>,
}

impl<K: KeyKind> Stand<K> {
    /// Makes the call of a line, with as much of the id sheet as it has.
    pub fn make(&mut self, line: &Line<'_, K>, ids: &mut [u64; MOST_TABLES]) -> Reply {
        let ids = &mut ids[..line.id_places.min(MOST_TABLES)];
        self.book
            .perform::<K, Standard>(self.sheet.as_mut_slice(), &line.call, ids)
    }
}
