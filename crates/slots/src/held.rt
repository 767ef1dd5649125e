//! The tables of a job among those that stand. What is `pub(crate)` here serves the book, which has tested the sheet: hence the `requires`.
ghost use Rattle.std.specs.Prelude.{◌≡◌, not, filter};
ghost use Rattle.std.specs.List.{list_all};
ghost use Rattle.keys.specs.KeyRange.{meets};
ghost use Rattle.picks.specs.Movable.{meets_span};
ghost use Rattle.sheets.specs.Tables.{named};
ghost use Rattle.slots.specs.Held.{marked, clear_by, unmet};

use crate::sound::BookTest;
use keys::key_kind::KeyKind;
use keys::key_range::KeyRange;
use runs::table::Table;
use sheets::marks::marks_of;

impl<'a, K: KeyKind> BookTest<'a, K> {
    // Whether each table of the level is one of these numbers or clear of the span.
    pub(crate) fn are_clear(&self, level: u8, numbers: &[u64], span: Option<KeyRange<K>>) -> bool
        ensures { result ≡ list_all (clear_by K.ranks level numbers.now span) self.now.tables.now }
    {
        self.tables
            .iter()
            .all(|t| is_clear(t, level, numbers, span))
    }

    // Whether no two of the tables of these numbers meet: each table is looked up once.
    pub(crate) fn are_apart(&self, numbers: &[u64]) -> bool
        ensures { result ≡ unmet K.ranks (filter (named numbers.now) self.now.tables.now) }
    {
        let marks = marks_of(self.tables, |t| numbers.contains(&t.number));
        marked_are_apart(self.tables, &marks)
    }
}

// Whether a table is outside the level, clear of the span, or one of these numbers, which is looked up last.
fn is_clear<K: KeyKind>(t: &Table<K>, level: u8, numbers: &[u64], span: Option<KeyRange<K>>) -> bool
    ensures { result ≡ clear_by K.ranks level numbers.now span t.now }
{
    t.level != level || !meets_it(span, t) || numbers.contains(&t.number)
}

// Whether a table meets a span, if there is one.
fn meets_it<K: KeyKind>(span: Option<KeyRange<K>>, t: &Table<K>) -> bool
    ensures { result ≡ meets_span K.ranks (λ u. u.range) span t.now }
{
    span.is_some_and(|span| t.range.overlaps_with_key_range(&span))
}

// Whether no two of the marked tables meet.
fn marked_are_apart<K: KeyKind>(tables: &[Table<K>], marks: &[bool]) -> bool
    ensures { result ≡ unmet K.ranks (marked marks.now tables.now) }
{
    let mut tables = tables;
    let mut marks = marks;
    while let (Some((t, others)), Some((is_marked, other_marks))) = (
        tables.split_first(),
        marks.split_first(),
    ) {
        if *is_marked && !is_apart(t, others, other_marks) {
            return false;
        }
        tables = others;
        marks = other_marks;
    }
    true
}

// Whether a table meets none of the marked tables.
fn is_apart<K: KeyKind>(t: &Table<K>, tables: &[Table<K>], marks: &[bool]) -> bool
    ensures { result ≡ list_all (λ u. not (meets K.ranks t.now.range u.range)) (marked marks.now tables.now) }
{
    !tables.iter().zip(marks).any(|(u, is_marked)| *is_marked
        && t.range.overlaps_with_key_range(&u.range))
}
