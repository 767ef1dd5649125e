//! Why a line of a script was not carried out.
ghost use Rattle.std.specs.Prelude.{◌≡◌, Some};
ghost use Rattle.texts.specs.declared.fault.Fault.TheVariants.{Memory, Refused};
ghost use Rattle.texts.specs.Fault.{expected_text, fault_text};

use crate::field::Field;
use refusals::refusal::Refusal;
use std::alloc::{AllocError, AllocFailed};
use std::fmt;

/// What a malformed line should have had.
#[derive(Clone, Copy)]
pub enum Expected {
    /// A first word that the script knows.
    Word,
    /// The kind of the keys.
    KeyName,
    /// A number of its own width.
    Number(Field),
    /// A key of the history's kind.
    Key,
    StopKey,
    ByteKey,
    Bound,
    Ratio,
    Strategy,
    /// Nothing more on the line.
    End,
    /// A `keys` line before.
    Keys,
    /// An open book.
    OpenBook,
    /// No open book yet.
    NoBook,
    /// A place in the sheet for each table.
    Place,
}

/// Why a line was not carried out.
#[derive(Clone, Copy)]
pub enum Fault {
    /// The line is malformed.
    Malformed(Expected),
    /// The line is well formed and is answered by a refusal.
    Refused(Refusal),
    /// There was no memory left.
    Memory,
}

impl From<AllocError> for Fault {
    ghost from_gives = { λ _ r. r ≡ Memory };

    fn from(_e: AllocError) -> Fault {
        Fault::Memory
    }
}

impl<T: Drop> From<AllocFailed<T>> for Fault {
    ghost from_gives = { λ _ r. r ≡ Memory };

    fn from(_e: AllocFailed<T>) -> Fault {
        Fault::Memory
    }
}

impl From<fmt::Error> for Fault {
    ghost from_gives = { λ _ r. r ≡ Memory };

    fn from(_e: fmt::Error) -> Fault {
        Fault::Memory
    }
}

impl From<Refusal> for Fault {
    ghost from_gives = { λ e r. r ≡ Refused e };

    fn from(refusal: Refusal) -> Fault {
        Fault::Refused(refusal)
    }
}

impl fmt::Display for Expected {
    ghost output = { λ expected. Some (expected_text expected) };

    fn fmt<W: fmt::Write>(&self, f: &mut fmt::Formatter<W>) -> fmt::Result {
        match *self {
            Expected::Word => f.write_str("a word of the script's, as table or propose"),
            Expected::KeyName => f.write_str("stop or bytes"),
            Expected::Number(field) => write!(f, "{field}"),
            Expected::Key => f.write_str("a key"),
            Expected::StopKey => f.write_str(
                "a stop key TOUR:STOP, two decimal numbers below 2^32",
            ),
            Expected::ByteKey => f.write_str(
                "a byte key, two hex digits for each byte, or - for the empty key",
            ),
            Expected::Bound => f.write_str("a bound, * or [KEY or (KEY"),
            Expected::Ratio => f.write_str("a ratio, a decimal as 10.0 or its bits as 0x41200000"),
            Expected::Strategy => f.write_str("a strategy: leveled, fifo, major or drop-range"),
            Expected::End => f.write_str("no further word on the line"),
            Expected::Keys => f.write_str("a keys line before any other word"),
            Expected::OpenBook => f.write_str("an open line before this word"),
            Expected::NoBook => f.write_str("this word before the open line"),
            Expected::Place => f.write_str("no more tables than the sheet has places"),
        }
    }
}

impl fmt::Display for Fault {
    ghost output = { λ fault. Some (fault_text fault) };

    fn fmt<W: fmt::Write>(&self, f: &mut fmt::Formatter<W>) -> fmt::Result {
        match *self {
            Fault::Malformed(expected) => write!(f, "expected {expected}"),
            Fault::Refused(refusal) => write!(f, "refused {}", refusal.number()),
            Fault::Memory => f.write_str("there is no memory left"),
        }
    }
}
