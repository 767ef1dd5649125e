//! What is asked of a hidden set, and how it changes.
ghost use Rattle.std.specs.Prelude.{◌≡◌, ◌≤◌, [], ◌∷◌, ◌++◌, length, take, if◌then◌else◌, ◌==◌, nat_le, nat_lt};
ghost use Rattle.sheets.specs.HiddenSet.{blocked, hiding, showing};
ghost use Rattle.sheets.specs.Tables.{memb};

use crate::hidden_set::HiddenSet;
use crate::keeping::keep_those;
use crate::sound::MOST_TABLES;

impl HiddenSet {
    /// A set that hides nothing.
    pub fn new() -> HiddenSet
        ensures { result ≡ [] }
    {
        HiddenSet {
            ids: [0u64; MOST_TABLES],
            count: 0,
        }
    }

    /// The hidden numbers, in the order in which they were hidden.
    pub fn as_slice(&self) -> &[u64]
        ensures numbers { result.now ≡ self.now }
        ensures few { length result.now ≤ 1024 }
    {
        &self.ids[..self.count]
    }

    /// How many tables are hidden.
    pub fn len(&self) -> usize
        ensures count { result ≡ length self.now }
        ensures few { result ≤ 1024 }
    {
        self.as_slice().len()
    }

    /// Whether no table is hidden.
    pub fn is_empty(&self) -> bool
        ensures { result ≡ (length self.now == 0) }
    {
        self.as_slice().is_empty()
    }

    /// Whether the table of this number is hidden.
    pub fn is_hidden(&self, id: u64) -> bool
        ensures { result ≡ memb id self.now }
    {
        self.as_slice().contains(&id)
    }

    /// Whether one of the tables is hidden.
    pub fn is_blocked(&self, ids: &[u64]) -> bool
        ensures { result ≡ blocked self.now ids.now }
    {
        ids.iter().any(|id| self.is_hidden(*id))
    }

    /// Hides the tables that are not hidden yet, behind those that are, and says whether they fit; where they do not, hides none.
    pub fn hide(&mut self, ids: &[u64]) -> bool
        ensures answer { result ≡ nat_le (length (hiding self.old ids.now)) 1024 }
        ensures after { self.new ≡ (if result then hiding self.old ids.now else self.old) }
    {
        let before = self.len();
        for id in ids {
            if !self.is_hidden(*id) && !self.push(*id) {
                self.truncate(before);
                return false;
            }
        }
        true
    }

    // Hides one table more, where there is room.
    fn push(&mut self, id: u64) -> bool
        ensures answer { result ≡ nat_lt (length self.old) 1024 }
        ensures after { self.new ≡ (if result then self.old ++ id ∷ [] else self.old) }
        ensures few { length self.new ≤ 1024 }
    {
        if self.count >= MOST_TABLES {
            return false;
        }
        self.ids[self.count] = id;
        self.count += 1;
        true
    }

    /// Shows the tables again: those that stay hidden keep their order.
    pub fn show(&mut self, ids: &[u64])
        ensures { self.new ≡ showing ids.now self.old }
    {
        self.count = keep_those(&mut self.ids, self.count, |id| !ids.contains(id));
    }

    /// Shows all but the first `from` hidden tables.
    pub fn truncate(&mut self, from: usize)
        ensures { self.new ≡ take from self.old }
    {
        self.count = self.count.min(from);
    }
}
