//! The numbers of a line, each with its own width.
ghost use Rattle.std.specs.Prelude.{◌≡◌, Some};
ghost use Rattle.texts.specs.Field.{most_of, field_name, field_text};

use std::fmt;

/// A number of a line, by its name in the script's grammar.
#[derive(Clone, Copy)]
pub enum Field {
    Places,
    Number,
    Level,
    Run,
    Size,
    Created,
    Linked,
    Blob,
    Clock,
    Ticket,
    Target,
    Threshold,
    Limit,
    Ttl,
}

impl Field {
    // The greatest number that fits: a level has 8 bits, a run 16, a threshold 32, any other 64.
    pub(crate) fn most(self) -> u64
        ensures { result ≡ most_of self }
    {
        match self {
            Field::Level => u8::MAX as u64,
            Field::Run => u16::MAX as u64,
            Field::Threshold => u32::MAX as u64,
            _ => u64::MAX,
        }
    }

    // Its name in the grammar.
    fn name(self) -> &'static str
        ensures { result.now ≡ field_name self }
    {
        match self {
            Field::Places => "N",
            Field::Number => "NUMBER",
            Field::Level => "LEVEL",
            Field::Run => "RUN",
            Field::Size => "SIZE",
            Field::Created => "CREATED",
            Field::Linked => "LINKED",
            Field::Blob => "BLOB",
            Field::Clock => "CLOCK",
            Field::Ticket => "TICKET",
            Field::Target => "TARGET",
            Field::Threshold => "THRESHOLD",
            Field::Limit => "LIMIT",
            Field::Ttl => "TTL",
        }
    }
}

impl fmt::Display for Field {
    ghost output = { λ field. Some (field_text field) };

    fn fmt<W: fmt::Write>(&self, f: &mut fmt::Formatter<W>) -> fmt::Result {
        let name = self.name();
        let most = self.most();
        write!(f, "{name}, a decimal number up to {most}")
    }
}
