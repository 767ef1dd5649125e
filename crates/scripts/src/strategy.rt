//! A strategy and its settings, as a line says them.
ghost use Rattle.std.specs.Prelude.{◌≡◌, ◌≢◌, ℕ, ◌≤◌, List, ◌++◌, length, codes, from_bits, Float, MatchOption, IfErr};
ghost use Rattle.std.specs.Float.{binary32};
ghost use Rattle.std.specs.Float.Parse.{parse_float};
ghost use Rattle.std.specs.Option.{SomeIff};
ghost use Rattle.std.specs.Str.Parse.{IsNumeral, digits_value};
ghost use Rattle.texts.specs.declared.field.Field.TheVariants as F;
ghost use Rattle.texts.specs.Lacking.{Names, OnlyNames};
ghost use Rattle.texts.specs.Reading.{Reading, Reads, Plain};
ghost use Rattle.scripts.specs.Strategy.{RatioWord, SaysRatios, listed, SaysLeveled, SaysFifo, SaysMajor, BoundWord, SaysBounds, SaysStrategy};
ghost use Rattle.scripts.specs.Lacking.{LacksNumber, LacksRatio, LacksLeveled, LacksFifo, bound_wanted, LacksBounds, LacksStrategy};

use keys::bounds::OwnedBounds;
use levels::settings::Settings as LeveledSettings;
use refusals::refusal::Refusal;
use standard::standard::Settings;
use std::alloc::Global;
use std::num::f32_from_bits_with_nan;
use std::ops::Bound;
use strategies::fifo::FifoSettings;
use strategies::major::MajorSettings;
use texts::fault::{Expected, Fault};
use texts::field::Field;
use texts::key_text::KeyText;
use texts::words::Words;

// A ratio by the bits of an f32, one to eight hex digits. Those of a NaN stand for NaN.
fn ratio_bits(digits: &str) -> Option<f32>
    ensures { SomeIff result (IsNumeral 16 digits.now × (length digits.now ≤ 8)) (from_bits binary32 (digits_value 16 digits.now)) }
{
    if digits.starts_with('+') || digits.len() > 8 {
        return None;
    }
    u32::from_str_radix(digits, 16)
        .ok()
        .map(|bits| f32_from_bits_with_nan(bits))
}

/// A ratio: a decimal, or `0x` and the bits of an f32.
pub fn ratio(word: &str) -> Option<f32>
    ensures bits { (digits : List ℕ) → word.now ≡ codes "0x" ++ digits → SomeIff result (IsNumeral 16 digits × (length digits ≤ 8)) (from_bits binary32 (digits_value 16 digits)) }
    ensures decimal { ((digits : List ℕ) → word.now ≢ codes "0x" ++ digits) → result ≡ parse_float binary32 word.now }
    ensures says { MatchOption result ((x : Float) → RatioWord word.now x → ⊥) (RatioWord word.now) }
{
    if let Some(digits) = word.strip_prefix("0x") {
        return ratio_bits(digits);
    }
    word.parse::<f32>().ok()
}

// Ratios to the end of the line.
fn ratios(heap: Global, words: &mut Words<'_>) -> Result<Vec<f32>, Fault>
    ensures says { Reads (Plain (SaysRatios words.old)) (listed result) }
    ensures names { IfErr result (Names (LacksRatio words.old)) }
{
    let mut ratios = Vec::new(heap);
    for word in words {
        ratios.push(ratio(word).ok_or(Fault::Malformed(Expected::Ratio))?)?;
    }
    Ok(ratios)
}

// A bound: `*`, or a key behind `[` where it is included and behind `(` where it is not.
fn read_bound<K: KeyText>(heap: Global, word: &str) -> Result<Result<Bound<K>, Refusal>, Fault>
    ensures says { Reading (BoundWord K.KeyText.says) word.now result }
    ensures names { IfErr result (Names (λ lacking. lacking ≡ bound_wanted K.KeyText.wanted word.now)) }
{
    if word == "*" {
        return Ok(Ok(Bound::Unbounded));
    }
    if let Some(text) = word.strip_prefix('[') {
        return Ok(K::read_key(heap, text)?.map(Bound::Included));
    }
    if let Some(text) = word.strip_prefix('(') {
        return Ok(K::read_key(heap, text)?.map(Bound::Excluded));
    }
    Err(Fault::Malformed(Expected::Bound))
}

// The two bounds of a range drop. A line that is malformed is malformed first, and only then refused.
fn read_bounds<K: KeyText>(heap: Global, words: &mut Words<'_>) -> Result<OwnedBounds<K>, Fault>
    ensures says { Reads (SaysBounds K.KeyText.says words.old) result }
    ensures names { IfErr result (Names (LacksBounds K.KeyText.says K.KeyText.wanted words.old)) }
{
    let start = read_bound::<K>(heap, words.expect(Expected::Bound)?)?;
    let end = read_bound::<K>(heap, words.expect(Expected::Bound)?)?;
    words.end()?;
    Ok(OwnedBounds {
        start: start?,
        end: end?,
    })
}

// A target and a threshold, then ratios.
fn read_leveled(heap: Global, words: &mut Words<'_>) -> Result<LeveledSettings, Fault>
    ensures says { Reads (Plain (SaysLeveled words.old)) result }
    ensures names { IfErr result (Names (LacksLeveled words.old)) }
{
    let target = words.number(Field::Target)?;
    let threshold = words.number(Field::Threshold)? as u32;
    let ratios = ratios(heap, words)?;
    Ok(
        LeveledSettings::default()
            .with_table_target_size(target)
            .with_l0_threshold(threshold)
            .with_level_ratio_policy(ratios.as_slice()),
    )
}

// A limit and a time to live.
fn read_fifo(words: &mut Words<'_>) -> Result<FifoSettings, Fault>
    ensures says { Reads (Plain (SaysFifo words.old)) result }
    ensures names { IfErr result (OnlyNames (LacksFifo words.old)) }
{
    let limit = words.number(Field::Limit)?;
    let ttl_seconds = words.number(Field::Ttl)?;
    words.end()?;
    Ok(FifoSettings { limit, ttl_seconds })
}

// A target.
fn read_major(words: &mut Words<'_>) -> Result<MajorSettings, Fault>
    ensures says { Reads (Plain (SaysMajor words.old)) result }
    ensures names { IfErr result (OnlyNames (LacksNumber F.Target words.old)) }
{
    let target_size = words.number(Field::Target)?;
    words.end()?;
    Ok(MajorSettings { target_size })
}

/// The settings of the strategy that the rest of a line says. Whether they are within their limits is the strategy's to say.
pub fn read_strategy<K: KeyText>(heap: Global, words: &mut Words<'_>) -> Result<Settings<K>, Fault>
    ensures says { Reads (SaysStrategy K.KeyText.says words.old) result }
    ensures names { IfErr result (Names (LacksStrategy K.KeyText.says K.KeyText.wanted words.old)) }
{
    match words.expect(Expected::Strategy)? {
        "leveled" => Ok(Settings::Leveled(read_leveled(heap, words)?)),
        "fifo" => Ok(Settings::Fifo(read_fifo(words)?)),
        "major" => Ok(Settings::Major(read_major(words)?)),
        "drop-range" => read_bounds(heap, words).map(Settings::DropRange),
        _ => Err(Fault::Malformed(Expected::Strategy)),
    }
}
