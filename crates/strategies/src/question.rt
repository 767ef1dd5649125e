//! The question put to a strategy.
ghost use Rattle.std.specs.Prelude.{◌≡◌, ◌≤◌, length, take, if◌then◌else◌, Ok, Err, nat_le};
ghost use Rattle.refusals.specs.declared.refusal.Refusal.TheVariants.{IdsTooShort};
ghost use Rattle.sheets.specs.Edits.{laid};
ghost use Rattle.strategies.specs.Answer.{asked, noted};
ghost use Rattle.strategies.specs.Question.{count_in, proposed, ids_after};

use crate::choice::Choice;
use crate::snapshot::Snapshot;
use crate::strategy::CompactionStrategy;
use keys::key_kind::KeyKind;
use refusals::refusal::Refusal;
use runs::table::Table;
use sheets::hidden_set::HiddenSet;
use sheets::sound::{MOST_TABLES, is_sound};

impl Choice {
    /// How many tables the choice names.
    pub fn count(&self) -> usize
        ensures { result ≡ count_in self.now }
    {
        match self {
            Choice::DoNothing => 0,
            Choice::Move(input) | Choice::Merge(input) => input.tables.count,
            Choice::Drop(named) => named.count,
        }
    }
}

/// Asks a strategy about the first `standing` tables of the sheet: what it chooses, and the numbers of the tables in sheet order in the front of the id sheet, whose rest keeps its content.
/// Refused, the id sheet keeps all of it: first where the sheet is not sound, then as the strategy refuses, then where the id sheet is too short.
pub fn propose<K: KeyKind, S: CompactionStrategy<K>>(
    settings: &S::Settings,
    sheet: &[Table<K>],
    standing: usize,
    hidden_set: &HiddenSet,
    blob_total: u64,
    clock: u64,
    ids: &mut [u64],
) -> Result<Choice, Refusal>
    ensures answer { result ≡ proposed K.ranks (λ ts hs. S.CompactionStrategy.chooses settings.now ts hs blob_total clock) sheet.now standing hidden_set.now blob_total (length ids.old) }
    ensures ids { ids.new ≡ ids_after K.ranks (λ ts hs. S.CompactionStrategy.chooses settings.now ts hs blob_total clock) sheet.now standing hidden_set.now blob_total ids.old }
{
    if !is_sound(sheet, standing, blob_total) {
        return Err(Refusal::NotSound);
    }
    let snapshot = Snapshot {
        tables: &sheet[0..standing],
        hidden_set,
        blob_total,
        clock,
    };
    ask::<K, S>(settings, &snapshot, ids)
}

/// Asks a strategy about a snapshot: what it chooses, and the numbers of the tables in sheet order in the front of the id sheet, whose rest keeps its content.
/// Refused, the id sheet keeps all of it: first as the strategy refuses, then where the id sheet is too short.
pub fn ask<K: KeyKind, S: CompactionStrategy<K>>(
    settings: &S::Settings,
    snapshot: &Snapshot<'_, K>,
    ids: &mut [u64],
) -> Result<Choice, Refusal>
    ensures answer { result ≡ asked (S.CompactionStrategy.chooses settings.now snapshot.now.tables.now snapshot.now.hidden_set.now snapshot.now.blob_total snapshot.now.clock) (length ids.old) }
    ensures ids { ids.new ≡ noted (S.CompactionStrategy.chooses settings.now snapshot.now.tables.now snapshot.now.hidden_set.now snapshot.now.blob_total snapshot.now.clock) ids.old }
{
    let mut room = [0u64; MOST_TABLES];
    let choice = S::choose(settings, snapshot, &mut room)?;
    hand_out(choice, &room, ids)
}

// Copies the numbers of a choice's tables from the front of `room` into that of the id sheet.
fn hand_out(choice: Choice, room: &[u64], ids: &mut [u64]) -> Result<Choice, Refusal>
    requires { count_in choice ≤ length room.now }
    ensures answer { result ≡ (if nat_le (count_in choice) (length ids.old) then Ok choice else Err IdsTooShort) }
    ensures ids { ids.new ≡ (if nat_le (count_in choice) (length ids.old) then laid (take (count_in choice) room.now) ids.old else ids.old) }
{
    let count = choice.count();
    let (front, _) = ids.split_at_mut_checked(count).ok_or(Refusal::IdsTooShort)?;
    front.copy_from_slice(&room[..count]);
    Ok(choice)
}
