//! The lines of a script.
ghost use Rattle.std.specs.Prelude.{IfErr};
ghost use Rattle.texts.specs.declared.field.Field.TheVariants.{Places};
ghost use Rattle.texts.specs.Lacking.{Names, OnlyNames};
ghost use Rattle.texts.specs.Reading.{Reads, Plain};
ghost use Rattle.texts.specs.Words.{words_of};
ghost use Rattle.scripts.specs.Command.{name_of, key_name_of, ReadsName, SaysLine, SaysNumber, SaysQuestion, SaysBody, SaysFresh, SaysTable, SaysCall};
ghost use Rattle.scripts.specs.Lacking.{LacksLine, LacksNumber, LacksQuestion, LacksBody, LacksFresh, LacksTable, LacksCall};

use crate::strategy::read_strategy;
use keys::key_range::KeyRange;
use runs::fresh::Fresh;
use runs::table::Table;
use standard::standard::Settings;
use std::alloc::Global;
use std::str::FromStr;
use texts::fault::{Expected, Fault};
use texts::field::Field;
use texts::key_text::KeyText;
use texts::words::Words;

/// The kind of keys that a history has.
#[derive(Clone, Copy)]
pub enum KeyName {
    Stop,
    Bytes,
}

impl FromStr for KeyName {
    type Err = Fault;

    ghost use Rattle.texts.specs.declared.fault.Expected.TheVariants.{KeyName};

    ghost from_str_gives = { ReadsName key_name_of KeyName };

    fn from_str(text: &str) -> Result<KeyName, Fault> {
        match text {
            "stop" => Ok(KeyName::Stop),
            "bytes" => Ok(KeyName::Bytes),
            _ => Err(Fault::Malformed(Expected::KeyName)),
        }
    }
}

/// The first word of a line, but for `keys`.
#[derive(Clone, Copy)]
pub enum Word {
    Sheet,
    Ids,
    Table,
    Open,
    Land,
    Propose,
    LookAhead,
    Book,
    Output,
    Close,
    GiveUp,
    Show,
}

impl FromStr for Word {
    type Err = Fault;

    ghost use Rattle.texts.specs.declared.fault.Expected.TheVariants.{Word};

    ghost from_str_gives = { ReadsName name_of Word };

    fn from_str(text: &str) -> Result<Word, Fault> {
        match text {
            "sheet" => Ok(Word::Sheet),
            "ids" => Ok(Word::Ids),
            "table" => Ok(Word::Table),
            "open" => Ok(Word::Open),
            "land" => Ok(Word::Land),
            "propose" => Ok(Word::Propose),
            "look-ahead" => Ok(Word::LookAhead),
            "book" => Ok(Word::Book),
            "output" => Ok(Word::Output),
            "close" => Ok(Word::Close),
            "give-up" => Ok(Word::GiveUp),
            "show" => Ok(Word::Show),
            _ => Err(Fault::Malformed(Expected::Word)),
        }
    }
}

/// A line as far as it can be read without the kind of its keys.
#[derive(Drop)]
pub enum Line<'a> {
    /// Nothing, or a comment.
    Blank,
    /// A history starts afresh.
    Keys(KeyName),
    /// A first word, and those behind it.
    Call(Word, Words<'a>),
}

impl<'a> Line<'a> {
    /// Reads the first word of a line.
    pub fn read(text: &'a str) -> Result<Line<'a>, Fault>
        ensures says { Reads (Plain (SaysLine (words_of text.now))) result }
        ensures names { IfErr result (OnlyNames (LacksLine (words_of text.now))) }
    {
        let mut words = Words::new(text);
        match words.next() {
            None => Ok(Line::Blank),
            Some("keys") => {
                let name = words.expect(Expected::KeyName)?.parse()?;
                words.end()?;
                Ok(Line::Keys(name))
            }
            Some(first) => Ok(Line::Call(first.parse()?, words)),
        }
    }
}

/// A clock, and the settings of the strategy that is asked.
#[derive(Drop)]
pub struct Question<K> {
    pub clock: u64,
    pub settings: Settings<K>,
}

/// What a line asks to be done.
#[derive(Drop)]
pub enum Command<K> {
    /// Places in the table sheet.
    Sheet(usize),
    /// Places in the id sheet.
    Ids(usize),
    /// One standing table more.
    Table(Table<K>),
    /// Opens a book, with the blob total.
    Open(u64),
    Land(Fresh<K>),
    Propose(Question<K>),
    LookAhead(Question<K>),
    Book(Question<K>),
    /// One output more for the next close.
    Output(Fresh<K>),
    /// The ticket's number.
    Close(u64),
    /// The ticket's number.
    GiveUp(u64),
    Show,
}

impl<K: KeyText> Command<K> {
    /// Reads what stands behind the first word, to the end of the line.
    pub fn read(heap: Global, word: Word, words: &mut Words<'_>) -> Result<Command<K>, Fault>
        ensures says { Reads (SaysCall K.KeyText.says word words.old) result }
        ensures names { IfErr result (Names (LacksCall K.KeyText.says K.KeyText.wanted word words.old)) }
    {
        match word {
            Word::Sheet => Ok(Command::Sheet(read_places(words)?)),
            Word::Ids => Ok(Command::Ids(read_places(words)?)),
            Word::Table => read_table(heap, words).map(Command::Table),
            Word::Open => Ok(Command::Open(last_number(words, Field::Blob)?)),
            Word::Land => read_fresh(heap, words).map(Command::Land),
            Word::Propose => read_question(heap, words).map(Command::Propose),
            Word::LookAhead => read_question(heap, words).map(Command::LookAhead),
            Word::Book => read_question(heap, words).map(Command::Book),
            Word::Output => read_fresh(heap, words).map(Command::Output),
            Word::Close => Ok(Command::Close(last_number(words, Field::Ticket)?)),
            Word::GiveUp => Ok(Command::GiveUp(last_number(words, Field::Ticket)?)),
            Word::Show => {
                words.end()?;
                Ok(Command::Show)
            }
        }
    }
}

// The one number of a line.
fn last_number(words: &mut Words<'_>, field: Field) -> Result<u64, Fault>
    ensures says { Reads (Plain (SaysNumber field words.old)) result }
    ensures names { IfErr result (OnlyNames (LacksNumber field words.old)) }
{
    let n = words.number(field)?;
    words.end()?;
    Ok(n)
}

// How many places a sheet has.
fn read_places(words: &mut Words<'_>) -> Result<usize, Fault>
    ensures says { Reads (Plain (SaysNumber Places words.old)) result }
    ensures names { IfErr result (OnlyNames (LacksNumber Places words.old)) }
{
    Ok(last_number(words, Field::Places)? as usize)
}

// A clock, then a strategy.
fn read_question<K: KeyText>(heap: Global, words: &mut Words<'_>) -> Result<Question<K>, Fault>
    ensures says { Reads (SaysQuestion K.KeyText.says words.old) result }
    ensures names { IfErr result (Names (LacksQuestion K.KeyText.says K.KeyText.wanted words.old)) }
{
    let clock = words.number(Field::Clock)?;
    let settings = read_strategy(heap, words)?;
    Ok(Question { clock, settings })
}

// A table with no level and no run.
fn read_fresh<K: KeyText>(heap: Global, words: &mut Words<'_>) -> Result<Fresh<K>, Fault>
    ensures says { Reads (SaysFresh K.KeyText.says words.old) result }
    ensures names { IfErr result (Names (LacksFresh K.KeyText.says K.KeyText.wanted words.old)) }
{
    let number = words.number(Field::Number)?;
    read_body(heap, number, words)
}

// A standing table: level and run stand behind its number.
fn read_table<K: KeyText>(heap: Global, words: &mut Words<'_>) -> Result<Table<K>, Fault>
    ensures says { Reads (SaysTable K.KeyText.says words.old) result }
    ensures names { IfErr result (Names (LacksTable K.KeyText.says K.KeyText.wanted words.old)) }
{
    let number = words.number(Field::Number)?;
    let level = words.number(Field::Level)? as u8;
    let run = words.number(Field::Run)? as u16;
    let body: Fresh<K> = read_body(heap, number, words)?;
    Ok(body.at(level, run))
}

// What stands behind the numbers of a table, to the end of its line. A line that is malformed is malformed first, and only then refused.
fn read_body<K: KeyText>(
    heap: Global,
    number: u64,
    words: &mut Words<'_>,
) -> Result<Fresh<K>, Fault>
    ensures says { Reads (SaysBody K.KeyText.says number words.old) result }
    ensures names { IfErr result (Names (LacksBody K.KeyText.says K.KeyText.wanted words.old)) }
{
    let min = K::read_key(heap, words.expect(Expected::Key)?)?;
    let max = K::read_key(heap, words.expect(Expected::Key)?)?;
    let size = words.number(Field::Size)?;
    let created = words.number(Field::Created)?;
    let linked = words.number(Field::Linked)?;
    words.end()?;
    let range = KeyRange {
        min: min?,
        max: max?,
    };
    Ok(Fresh {
        number,
        range,
        size,
        created,
        linked,
    })
}
