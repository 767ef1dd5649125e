//! How an answer names tables: those that pass a test, in sheet order.
ghost use Rattle.std.specs.Prelude.{◌≡◌, ◌+◌, ◌^◌, ◌<◌, ◌≤◌, Bool, ◌&&◌, length, filter, if◌then◌else◌, Ok, Err, nat_le, IfOk};
ghost use Rattle.refusals.specs.declared.refusal.Refusal.TheVariants.{NotSound};
ghost use Rattle.std.specs.List.{list_any};
ghost use Rattle.runs.specs.declared.table.Table.{Table};
ghost use Rattle.sheets.specs.Edits.{laid};
ghost use Rattle.sheets.specs.Level.{numbers_of, size_of};
ghost use Rattle.sheets.specs.Tables.{named as hides};
ghost use Rattle.strategies.specs.Naming.{Tests, passing, named, written};

use keys::key_kind::KeyKind;
use refusals::refusal::Refusal;
use runs::sizes::MOST_BYTES;
use runs::table::Table;
use sheets::hidden_set::HiddenSet;

/// How many tables are named, and the sum of their sizes. Their numbers are in the id sheet.
#[derive(Clone, Copy, Default)]
pub struct Named {
    pub count: usize,
    pub bytes: u64,
}

impl Named {
    // One table more is named.
    fn add<K>(&mut self, table: &Table<K>)
        requires count { self.old.count + 1 < 2 ^ 64 }
        requires bytes { self.old.bytes + table.now.size < 2 ^ 64 }
        ensures count { self.new.count ≡ self.old.count + 1 }
        ensures bytes { self.new.bytes ≡ self.old.bytes + table.now.size }
    {
        self.count += 1;
        self.bytes += table.size;
    }
}

/// A test of tables that is a type of its own: a call takes it without a `requires`, which a closure would need.
pub trait Picks<K: KeyKind> {
    // Whether a table passes.
    ghost passes: { Self → Table K → Bool };

    /// Whether the table passes.
    fn picks(&self, table: &Table<K>) -> bool
        ensures { result ≡ passes self.now table.now };
}

// How many tables pass, each looked at once; refused where all sizes together are above the limit.
fn count_passing<K: KeyKind, P: Picks<K>>(tables: &[Table<K>], test: &P) -> Result<usize, Refusal>
    ensures { result ≡ (if nat_le (size_of tables.now) (2 ^ 53) then Ok (length (numbers_of (filter (P.Picks.passes test.now) tables.now))) else Err NotSound) }
{
    let mut left = MOST_BYTES;
    let mut count = 0;
    for t in tables {
        if left < t.size {
            return Err(Refusal::NotSound);
        }
        left -= t.size;
        if test.picks(t) {
            count += 1;
        }
    }
    Ok(count)
}

/// Whether one of the tables that pass is hidden.
pub fn has_hidden_passing<K: KeyKind, P: Picks<K>>(
    tables: &[Table<K>],
    test: &P,
    hidden_set: &HiddenSet,
) -> bool
    ensures { result ≡ list_any (λ t. P.Picks.passes test.now t && hides hidden_set.now t) tables.now }
{
    tables
        .iter()
        .any(|t| test.picks(t) && hidden_set.is_hidden(t.number))
}

/// Names the tables that pass, in an id sheet with a place for each, whose rest keeps its content.
/// Strategies call it for a sheet that was tested: hence the `requires`.
pub fn name_passing<K: KeyKind, P: Picks<K>>(
    tables: &[Table<K>],
    test: &P,
    ids: &mut [u64],
) -> Named
    requires light { size_of tables.now ≤ 2 ^ 53 }
    requires room { length (numbers_of (filter (P.Picks.passes test.now) tables.now)) ≤ length ids.old }
    ensures answer { result ≡ passing (P.Picks.passes test.now) tables.now }
    ensures ids { ids.new ≡ laid (numbers_of (filter (P.Picks.passes test.now) tables.now)) ids.old }
{
    name_those(tables, |t| test.picks(t), ids)
}

// The same for a test that is a closure.
pub(crate) fn name_those<K, F: Fn(&Table<K>) -> bool>(
    tables: &[Table<K>],
    test: F,
    ids: &mut [u64],
) -> Named
    requires can { F.IsAlwaysCallable test }
    requires light { size_of tables.now ≤ 2 ^ 53 }
    requires room { (p : Table K → Bool) × Tests F.Fn test p × (length (numbers_of (filter p tables.now)) ≤ length ids.old) }
    ensures answer { (p : Table K → Bool) → Tests F.Fn test p → result ≡ passing p tables.now }
    ensures ids { (p : Table K → Bool) → Tests F.Fn test p → ids.new ≡ laid (numbers_of (filter p tables.now)) ids.old }
{
    let mut named = Named::default();
    for t in tables {
        if test(t) {
            ids[named.count] = t.number;
            named.add(t);
        }
    }
    named
}

/// Names the tables that pass: their numbers go into the front of the id sheet, whose rest keeps its content.
/// Refused, first where all sizes together are above the limit, then where the id sheet is too short, it keeps its content whole.
pub fn name_tables<K: KeyKind, P: Picks<K>>(
    tables: &[Table<K>],
    test: &P,
    ids: &mut [u64],
) -> Result<Named, Refusal>
    ensures answer { result ≡ named (P.Picks.passes test.now) tables.now (length ids.old) }
    ensures ids { ids.new ≡ written (P.Picks.passes test.now) tables.now ids.old }
    ensures within { IfOk result (λ n. n.count ≤ length ids.new) }
{
    let count = count_passing(tables, test)?;
    if ids.len() < count {
        return Err(Refusal::IdsTooShort);
    }
    Ok(name_passing(tables, test, ids))
}
