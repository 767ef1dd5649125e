//! The desk: what a script has said so far, and the answer to its next line.
ghost use Rattle.std.specs.Prelude.{◌≡◌, string_bytes, OnOk};
ghost use Rattle.desk.specs.declared.desk.Desk.TheVariants.{Empty};
ghost use Rattle.desk.specs.Carrying.{Appends, OnRefused, NotRefused, CarriesOut, IsRefused, Starts, Answers};
ghost use Rattle.desk.specs.Malformed.{OnMalformed, IsMalformed};

use crate::histories::History;
use keys::byte_key::ByteKey;
use keys::stop_key::StopKey;
use reports::report::write_refusal;
use scripts::command::{KeyName, Line};
use std::alloc::Global;
use texts::fault::{Expected, Fault};

/// The history that runs now, by the kind of its keys.
#[derive(Drop)]
pub enum Desk {
    Empty,
    Stops(History<StopKey>),
    Bytes(History<ByteKey>),
}

impl Desk {
    /// No history yet.
    pub fn new() -> Desk
        ensures { result ≡ Empty }
    {
        Desk::Empty
    }

    // A fresh history of a kind of keys.
    fn start(heap: Global, name: KeyName) -> Desk
        ensures { Starts name result }
    {
        match name {
            KeyName::Stop => Desk::Stops(History::new(heap)),
            KeyName::Bytes => Desk::Bytes(History::new(heap)),
        }
    }

    /// Carries a line out, and writes its answer behind what is there. A malformed line changes nothing.
    pub fn answer(&mut self, heap: Global, line: &str, out: &mut String) -> Result<(), Fault>
        ensures answers { OnOk result (Answers (string_bytes out.old) (string_bytes out.new) line.now self.old self.new) }
        ensures malformed { OnMalformed result (λ expected. (self.new ≡ self.old) × (string_bytes out.new ≡ string_bytes out.old) × IsMalformed line.now self.old expected) }
        ensures unrefused { NotRefused result }
    {
        match self.carry_out(heap, line, out) {
            Err(Fault::Refused(refusal)) => write_refusal(out, refusal),
            done => done,
        }
    }

    // Carries a line out.
    fn carry_out(&mut self, heap: Global, line: &str, out: &mut String) -> Result<(), Fault>
        ensures does { OnOk result (Appends (string_bytes out.old) (string_bytes out.new) (CarriesOut line.now self.old self.new)) }
        ensures refused { OnRefused result (λ refusal. (self.new ≡ self.old) × (string_bytes out.new ≡ string_bytes out.old) × IsRefused line.now self.old refusal) }
        ensures malformed { OnMalformed result (λ expected. (self.new ≡ self.old) × (string_bytes out.new ≡ string_bytes out.old) × IsMalformed line.now self.old expected) }
    {
        match Line::read(line)? {
            Line::Blank => Ok(()),
            Line::Keys(name) => {
                *self = Desk::start(heap, name);
                Ok(())
            }
            Line::Call(word, mut words) => match self {
                Desk::Empty => Err(Fault::Malformed(Expected::Keys)),
                Desk::Stops(history) => history.answer(heap, word, &mut words, out),
                Desk::Bytes(history) => history.answer(heap, word, &mut words, out),
            },
        }
    }
}
