//! Which tables FIFO drops.
ghost use Rattle.std.specs.Prelude.{◌≡◌, true, ◌&&◌, ◌||◌, ◌==◌, nat_lt};
ghost use Rattle.sheets.specs.Level.{numbers_of};
ghost use Rattle.sheets.specs.Sound.{distinct};
ghost use Rattle.strategies.specs.Fifo.{older_weight, goes};

use crate::fifo::FifoSettings;
use runs::table::Table;
use std::cmp::Ordering;

// Whether one table is older than another: created before it, or at the same time and `earlier` on the sheet.
fn is_older<K>(one: &Table<K>, other: &Table<K>, earlier: bool) -> bool
    ensures { result ≡ (nat_lt one.now.created other.now.created || (one.now.created == other.now.created && earlier)) }
{
    match one.created.cmp(&other.created) {
        Ordering::Less => true,
        Ordering::Equal => earlier,
        Ordering::Greater => false,
    }
}

impl FifoSettings {
    /// Whether FIFO drops the table, one of those that stand, where `left` is what is left without the tables that have expired.
    /// It serves FIFO, whose tables have numbers that differ: hence the `requires`.
    pub fn drops<K>(&self, tables: &[Table<K>], clock: u64, left: u64, table: &Table<K>) -> bool
        requires differ { distinct (numbers_of tables.now) ≡ true }
        ensures { result ≡ goes self.now.ttl_seconds clock self.now.limit left tables.now table.now }
    {
        if table.level > 0 {
            return false;
        }
        if self.is_expired(table, clock) {
            return true;
        }
        self.older_weigh_less(tables, clock, table, left.saturating_sub(self.limit))
    }

    // Whether all live tables that are older than this one together weigh less than the excess.
    fn older_weigh_less<K>(
        &self,
        tables: &[Table<K>],
        clock: u64,
        table: &Table<K>,
        excess: u64,
    ) -> bool
        requires differ { distinct (numbers_of tables.now) ≡ true }
        ensures { result ≡ nat_lt (older_weight self.now.ttl_seconds clock tables.now table.now) excess }
    {
        let mut left = excess;
        let mut earlier = true;
        for t in tables {
            if left == 0 {
                return false;
            }
            if t.number == table.number {
                earlier = false;
            }
            if self.is_live(t, clock) && is_older(t, table, earlier) {
                left = left.saturating_sub(t.size).saturating_sub(t.linked);
            }
        }
        left > 0
    }
}
