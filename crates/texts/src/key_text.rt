//! How a key stands in a script.
ghost use Rattle.std.specs.Prelude.{◌≡◌, ℕ, List, Some, Result, IfErr};
ghost use Rattle.std.specs.Fmt.{WritesOnOk};
ghost use Rattle.refusals.specs.declared.refusal.Refusal.{Refusal};
ghost use Rattle.texts.specs.declared.fault.Expected.{Expected};
ghost use Rattle.texts.specs.declared.fault.Expected.TheVariants as X;
ghost use Rattle.texts.specs.Lacking.{Names, OnlyNames};
ghost use Rattle.texts.specs.Reading.{Reading};
ghost use Rattle.texts.specs.KeyText.{StopWord, ByteWord, stop_text, byte_text};

use crate::fault::{Expected, Fault};
use crate::hex::{read_hex, write_hex};
use crate::words::decimal;
use keys::byte_key::ByteKey;
use keys::key_kind::KeyKind;
use keys::stop_key::StopKey;
use refusals::refusal::Refusal;
use std::alloc::Global;
use std::fmt;

/// A key kind that a script can write down.
pub trait KeyText: KeyKind {
    // That a word says a key, or what is refused of it.
    ghost says: { List ℕ → Result Self Refusal → Type 0 };

    // What is lacking where a word says no key.
    ghost wanted: { Expected };

    // The text of a key.
    ghost spelt: { Self → List ℕ };

    /// The key that a word says, or its refusal, apart from what is malformed: a line is refused only where the rest of it is well formed.
    fn read_key(heap: Global, word: &str) -> Result<Result<Self, Refusal>, Fault>
        ensures says { Reading says word.now result }
        ensures names { IfErr result (Names (λ lacking. lacking ≡ wanted)) };

    /// Writes the key.
    fn write_key<W: fmt::Write>(&self, f: &mut fmt::Formatter<W>) -> fmt::Result
        ensures { WritesOnOk W.write_str_gives f.old result (spelt self.now) f.new };
}

/// A key that is written as a script spells it.
#[derive(Drop)]
pub struct Spelt<'a, K>(pub &'a K);

impl<K: KeyText> fmt::Display for Spelt<'_, K> {
    ghost output = { λ key. Some (K.spelt key.0.now) };

    fn fmt<W: fmt::Write>(&self, f: &mut fmt::Formatter<W>) -> fmt::Result {
        self.0.write_key(f)
    }
}

impl KeyText for StopKey {
    ghost says = { StopWord };

    ghost wanted = { X.StopKey };

    ghost spelt = { stop_text };

    fn read_key(_heap: Global, word: &str) -> Result<Result<StopKey, Refusal>, Fault>
        ensures says { Reading StopWord word.now result }
        ensures names { IfErr result (Names (λ lacking. lacking ≡ X.StopKey)) }
        ensures alone { IfErr result (OnlyNames (λ lacking. lacking ≡ X.StopKey)) }
    {
        let malformed = Fault::Malformed(Expected::StopKey);
        let (before, after) = word.split_once(':').ok_or(malformed)?;
        let tour = decimal(before, u32::MAX as u64).ok_or(malformed)?;
        let stop = decimal(after, u32::MAX as u64).ok_or(malformed)?;
        Ok(Ok(StopKey {
            tour: tour as u32,
            stop: stop as u32,
        }))
    }

    fn write_key<W: fmt::Write>(&self, f: &mut fmt::Formatter<W>) -> fmt::Result {
        let StopKey { tour, stop } = *self;
        write!(f, "{tour}:{stop}")
    }
}

impl KeyText for ByteKey {
    ghost says = { ByteWord };

    ghost wanted = { X.ByteKey };

    ghost spelt = { byte_text };

    fn read_key(heap: Global, word: &str) -> Result<Result<ByteKey, Refusal>, Fault> {
        let malformed = Fault::Malformed(Expected::ByteKey);
        match word {
            "-" => Ok(ByteKey::new(&[])),
            "" => Err(malformed),
            digits => {
                let bytes = read_hex(heap, digits)?.ok_or(malformed)?;
                Ok(ByteKey::new(bytes.as_slice()))
            }
        }
    }

    fn write_key<W: fmt::Write>(&self, f: &mut fmt::Formatter<W>) -> fmt::Result {
        let bytes = self.as_slice();
        if bytes.is_empty() {
            f.write_str("-")
        } else {
            write_hex(f, bytes)
        }
    }
}
