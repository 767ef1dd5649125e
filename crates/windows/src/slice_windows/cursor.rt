//! How windows are read: the next one and its sum come from the one before, at a constant cost.
ghost use Rattle.std.specs.Prelude.{◌≡◌, ◌+◌, ◌-◌, ◌<◌, true, length, IfOk, IfSome};
ghost use Rattle.std.specs.Iterator.{item_count};
ghost use Rattle.windows.specs.declared.slice_windows.Order.TheVariants.{Growing, Shrinking};
ghost use Rattle.windows.specs.SliceWindows.{win, growing, growing_from, shrinking, shrinking_from, Within, Shorter, Longer, EachOnce, stands, Right};
ghost use Rattle.windows.specs.Cursor.{behind, standing, first_window, in_order, left, opened, readable, Weighed, Reads};

use super::{Order, Place, Reading, Summed, Window, Windows};
use refusals::refusal::Refusal;
use runs::ranged::TableFile;
use runs::sizes::{MOST_BYTES, total_size};

/// The windows of some tables: length 1 from the left, then length 2 and on.
pub fn growing_windows<T: TableFile>(tables: &[T]) -> Result<Windows<'_, T>, Refusal>
    ensures answer { opened result ≡ readable T.bytes (growing (length tables.now)) tables.now }
    ensures all { IfOk result (λ c. EachOnce (Within (length tables.now)) Shorter (left c)) }
    ensures sums { IfOk result (λ c. Weighed T.bytes c) }
{
    windows(tables, Order::Growing)
}

/// The windows of some tables: the longest first, each length from the left.
pub fn shrinking_windows<T: TableFile>(tables: &[T]) -> Result<Windows<'_, T>, Refusal>
    ensures answer { opened result ≡ readable T.bytes (shrinking (length tables.now)) tables.now }
    ensures all { IfOk result (λ c. EachOnce (Within (length tables.now)) Longer (left c)) }
    ensures sums { IfOk result (λ c. Weighed T.bytes c) }
{
    windows(tables, Order::Shrinking)
}

// The windows of some tables in an order.
fn windows<T: TableFile>(tables: &[T], order: Order) -> Result<Windows<'_, T>, Refusal>
    ensures answer { opened result ≡ readable T.bytes (in_order order (length tables.now)) tables.now }
    ensures all { IfOk result (λ c. left c ≡ in_order order (length tables.now)) }
    ensures sums { IfOk result (λ c. Weighed T.bytes c) }
{
    let bytes = total_size(tables, MOST_BYTES).ok_or(Refusal::NotSound)?;
    let next = match order {
        Order::Growing => first_alone(tables),
        Order::Shrinking => leftmost(tables.len(), bytes),
    };
    Ok(Windows {
        tables,
        order,
        next,
    })
}

impl<'a, T: TableFile> Iterator for Windows<'a, T> {
    type Item = Reading<'a, T>;

    ghost next_gives = { Reads T.bytes };

    ghost remaining = { item_count left };

    /// Reads the next window, if any is left.
    fn next(&mut self) -> Option<Reading<'a, T>> {
        let at = self.next?;
        let tables = self.tables;
        self.next = Place { tables, at }.after(self.order);
        Some(Reading {
            window: at.window,
            tables: at.window.of(tables),
            bytes: at.bytes,
        })
    }
}

impl<'a, T: TableFile> Place<'a, T> {
    // What is read behind the window.
    fn after(&self, order: Order) -> Option<Summed>
        ensures windows { standing order (length self.now.tables.now) result ≡ behind order (length self.now.tables.now) self.now.at.window }
        ensures stands { stands (length self.now.tables.now) result ≡ true }
        ensures sums { IfSome result (Right T.bytes self.now.tables.now) }
    {
        let Window { start, len } = self.at.window;
        if start + len < self.tables.len() {
            return Some(self.further());
        }
        match order {
            Order::Growing => self.longer(),
            Order::Shrinking => self.shorter(),
        }
    }

    // The window of the same length that starts one table further.
    fn further(&self) -> Summed
        requires within { self.now.at.window.start + self.now.at.window.len < length self.now.tables.now }
        ensures window { result.window ≡ win (self.now.at.window.start + 1) self.now.at.window.len }
        ensures sums { Right T.bytes self.now.tables.now result }
    {
        let Window { start, len } = self.at.window;
        let grown = self.at.bytes + self.tables[start + len].file_size();
        Summed {
            window: Window {
                start: start + 1,
                len,
            },
            bytes: grown - self.tables[start].file_size(),
            front: self.at.front,
        }
    }

    // The leftmost window that has one table more.
    fn longer(&self) -> Option<Summed>
        ensures windows { standing Growing (length self.now.tables.now) result ≡ growing_from (length self.now.tables.now) (self.now.at.window.len + 1) (length self.now.tables.now - self.now.at.window.len) }
        ensures stands { stands (length self.now.tables.now) result ≡ true }
        ensures sums { IfSome result (Right T.bytes self.now.tables.now) }
    {
        let len = self.at.window.len;
        let next = self.tables.get(len)?;
        leftmost(len + 1, self.at.front + next.file_size())
    }

    // The leftmost window that has one table less.
    fn shorter(&self) -> Option<Summed>
        ensures windows { standing Shrinking (length self.now.tables.now) result ≡ shrinking_from (length self.now.tables.now) (self.now.at.window.len - 1) }
        ensures stands { stands (length self.now.tables.now) result ≡ true }
        ensures sums { IfSome result (Right T.bytes self.now.tables.now) }
    {
        let len = self.at.window.len;
        leftmost(len - 1, self.at.front - self.tables[len - 1].file_size())
    }
}

// The window of the first table alone; of no tables there is none.
fn first_alone<T: TableFile>(tables: &[T]) -> Option<Summed>
    ensures windows { standing Growing (length tables.now) result ≡ growing (length tables.now) }
    ensures stands { stands (length tables.now) result ≡ true }
    ensures sums { IfSome result (Right T.bytes tables.now) }
{
    let first = tables.first()?;
    leftmost(1, first.file_size())
}

// The window of the first tables, with their sum; of no tables there is none.
fn leftmost(len: usize, bytes: u64) -> Option<Summed>
    ensures { result ≡ first_window len bytes }
{
    (len > 0).then_some(Summed {
        window: Window { start: 0, len },
        bytes,
        front: bytes,
    })
}
