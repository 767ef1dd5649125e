//! The words of a line.
ghost use Rattle.std.specs.Prelude.{◌≡◌, ◌≢◌, ℕ, ◌≤◌, List, [], ◌∷◌, IfOk, MatchResult};
ghost use Rattle.std.specs.Iterator.{YieldsFirstRef, item_count};
ghost use Rattle.texts.specs.declared.fault.Expected.TheVariants.{End, Number};
ghost use Rattle.texts.specs.declared.fault.Fault.TheVariants.{Malformed};
ghost use Rattle.texts.specs.Field.{most_of};
ghost use Rattle.texts.specs.Words.{decimal_of, uncommented, words_of, NextNumber};

use crate::fault::{Expected, Fault};
use crate::field::Field;
use std::marker::Model;
use std::str::SplitWhitespace;

/// The words of a line that are still to be read.
#[derive(Drop)]
pub struct Words<'a> {
    rest: SplitWhitespace<'a>,
}

impl<'a> Model for Words<'a> {
    ghost use Rattle.std.specs.Prelude.{ℕ, List, IsTrue};
    ghost use Rattle.std.specs.Str.{is_utf8};
    ghost use Rattle.std.specs.Str.Iter.{split_whitespace_rest};
    ghost use Rattle.texts.specs.Words.{words_in};

    ghost Value = { List (List ℕ) };

    ghost view = { λ words. words_in (split_whitespace_rest words.rest) };

    ghost invariant = { λ words. IsTrue (is_utf8 (split_whitespace_rest words.rest)) };
}

// The number that decimal digits write, where it is at most `most`. There is no sign.
pub(crate) fn decimal(word: &str, most: u64) -> Option<u64>
    ensures { result ≡ decimal_of most word.now }
{
    if word.starts_with('+') {
        return None;
    }
    word.parse::<u64>().ok().filter(|n| *n <= most)
}

// A line up to its comment.
fn uncomment(line: &str) -> &str
    ensures { result.now ≡ uncommented line.now }
{
    line.split_once('#').map_or(line, |(before, _)| before)
}

impl<'a> Iterator for Words<'a> {
    type Item = &'a str;

    // The next word, if any.
    ghost next_gives = { YieldsFirstRef (λ words. words) };

    ghost remaining = { item_count (λ words. words) };

    fn next(&mut self) -> Option<&'a str> {
        self.rest.next()
    }
}

impl<'a> Words<'a> {
    /// The words of a line, without its comment.
    pub fn new(line: &'a str) -> Words<'a>
        ensures { result ≡ words_of line.now }
    {
        Words {
            rest: uncomment(line).split_whitespace(),
        }
    }

    /// The next word, which has to be there.
    pub fn expect(&mut self, expected: Expected) -> Result<&'a str, Fault>
        ensures word { MatchResult result (λ word. self.old ≡ word.now ∷ self.new) (λ e. (e ≡ Malformed expected) × (self.old ≡ [])) }
        ensures none_comes { self.old ≡ [] → self.new ≡ [] }
    {
        self.next().ok_or(Fault::Malformed(expected))
    }

    /// Nothing more on the line.
    pub fn end(&mut self) -> Result<(), Fault>
        ensures end { MatchResult result (λ _. self.old ≡ []) (λ e. (e ≡ Malformed End) × (self.old ≢ [])) }
        ensures none_comes { self.old ≡ [] → self.new ≡ [] }
    {
        match self.next() {
            Some(_) => Err(Fault::Malformed(Expected::End)),
            None => Ok(()),
        }
    }

    /// The next word as a number of its own width.
    pub fn number(&mut self, field: Field) -> Result<u64, Fault>
        ensures word { MatchResult result (λ n. NextNumber (most_of field) self.old n self.new) (λ e. (e ≡ Malformed (Number field)) × ((n : ℕ) (after : List (List ℕ)) → NextNumber (most_of field) self.old n after → ⊥)) }
        ensures bound { IfOk result (λ n. n ≤ most_of field) }
    {
        let expected = Expected::Number(field);
        let word = self.expect(expected)?;
        decimal(word, field.most()).ok_or(Fault::Malformed(expected))
    }
}
