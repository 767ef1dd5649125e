//! A refusal says why a call did nothing, in which layer, and at which place.
ghost use Rattle.std.specs.Prelude.{◌≡◌};
ghost use Rattle.refusals.specs.Refusal.{number_of, layer_of, place_of, letter_of};

/// The most bytes of a byte key.
pub const LONGEST_KEY: usize = 32;

/// Why a call was refused. A case with a number has the place at fault.
#[derive(Clone, Copy, PartialEq, Eq, Debug)]
pub enum Refusal {
    /// Book or sheet is not sound, or a run is not a run.
    NotSound,
    /// No running job has the ticket's number.
    NoSuchJob,
    /// A table to come in is malformed, or its number is taken.
    BadTable(usize),
    /// The outputs do not fit the job.
    BadOutputs(usize),
    /// The sheet, or the total of sizes, would be passed.
    Full,
    /// A setting is outside its limits or not a number.
    BadSetting,
    /// Level 0 has two runs or more where one is needed.
    ManyRuns,
    /// A table of level 0 is hidden where none may be.
    HiddenTable(usize),
    /// The id sheet is too short for the numbers of the answer.
    IdsTooShort,
    /// The choice to be booked names no table.
    NamesNoTable,
    /// The choice to be booked names a hidden table.
    AlreadyHidden(usize),
    /// The span meets that of a running move or merge to the same level.
    SpanTaken,
    /// No job slot is free, or too many tables would be hidden.
    BookFull,
    /// A byte key has more than 32 bytes.
    KeyTooLong,
}

/// The layer that refuses.
#[derive(Clone, Copy, PartialEq, Eq, Debug)]
pub enum Layer {
    /// The job book.
    Book,
    /// A strategy.
    Strategy,
    /// A table.
    Table,
    /// A key.
    Key,
}

impl Layer {
    /// The letter by which a layer is written: J, S, T or K.
    pub fn letter(self) -> char
        ensures { result ≡ letter_of self }
    {
        match self {
            Layer::Book => 'J',
            Layer::Strategy => 'S',
            Layer::Table => 'T',
            Layer::Key => 'K',
        }
    }
}

impl Refusal {
    /// The number of the refusal, 1 to 14.
    pub fn number(self) -> u8
        ensures { result ≡ number_of self }
    {
        match self {
            Refusal::NotSound => 1,
            Refusal::NoSuchJob => 2,
            Refusal::BadTable(_) => 3,
            Refusal::BadOutputs(_) => 4,
            Refusal::Full => 5,
            Refusal::BadSetting => 6,
            Refusal::ManyRuns => 7,
            Refusal::HiddenTable(_) => 8,
            Refusal::IdsTooShort => 9,
            Refusal::NamesNoTable => 10,
            Refusal::AlreadyHidden(_) => 11,
            Refusal::SpanTaken => 12,
            Refusal::BookFull => 13,
            Refusal::KeyTooLong => 14,
        }
    }

    /// The layer that refuses.
    pub fn layer(self) -> Layer
        ensures { result ≡ layer_of self }
    {
        match self {
            Refusal::BadSetting | Refusal::ManyRuns | Refusal::HiddenTable(_) => Layer::Strategy,
            Refusal::BadTable(_) | Refusal::Full => Layer::Table,
            Refusal::KeyTooLong => Layer::Key,
            _ => Layer::Book,
        }
    }

    /// The place at fault, 0 where the refusal has none.
    pub fn place(self) -> usize
        ensures { result ≡ place_of self }
    {
        match self {
            Refusal::BadTable(at)
            | Refusal::BadOutputs(at)
            | Refusal::HiddenTable(at)
            | Refusal::AlreadyHidden(at) => at,
            Refusal::KeyTooLong => LONGEST_KEY,
            _ => 0,
        }
    }
}
