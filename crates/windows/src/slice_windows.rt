//! Windows of a slice of tables, read one by one in two orders with their sums.
ghost use Rattle.std.specs.Prelude.{◌≡◌, ◌+◌, ◌^◌, ◌≤◌, true, length, IfSome, sum_by};
ghost use Rattle.std.proofs.Props.{props};
ghost use Rattle.windows.specs.SliceWindows.{tables_of, Within, stands, Right};

mod cursor;

pub use cursor::{growing_windows, shrinking_windows};
use runs::ranged::TableFile;

/// A stretch of neighbours: how many tables stand before it, and how many it has.
#[derive(Clone, Copy)]
pub struct Window {
    pub start: usize,
    pub len: usize,
}

impl Window {
    /// The tables of the window, which is one of theirs: hence the `requires`.
    pub fn of<'a, T>(&self, tables: &'a [T]) -> &'a [T]
        requires { self.now.start + self.now.len ≤ length tables.now }
        ensures { result.now ≡ tables_of self.now tables.now }
    {
        &tables[self.start..self.start + self.len]
    }
}

/// In which order windows are read; those of one length are read from the left.
#[derive(Clone, Copy)]
pub enum Order {
    /// Length 1 first, then length 2 and on.
    Growing,
    /// The longest first.
    Shrinking,
}

// A window, the sum of its sizes, and that of the first tables, as many as it has.
#[derive(Clone, Copy)]
struct Summed {
    window: Window,
    bytes: u64,
    front: u64,
}

// A window of some tables, with its sums.
#[derive(Drop)]
struct Place<'a, T: TableFile> {
    tables: &'a [T],
    at: Summed,
    ghost within: { Within (length tables.now) at.window },
    ghost small: { sum_by T.bytes tables.now ≤ 2 ^ 53 },
    ghost right: { Right T.bytes tables.now at },
}

/// The windows of a slice that are still to be read.
#[derive(Drop)]
pub struct Windows<'a, T: TableFile> {
    tables: &'a [T],
    order: Order,
    // The window that is read next, none behind the last.
    next: Option<Summed>,
    ghost within: { stands (length tables.now) next ≡ true },
    ghost small: { sum_by T.bytes tables.now ≤ 2 ^ 53 },
    ghost right: { IfSome next (Right T.bytes tables.now) } by { Prim.hlevel props },
}

/// A window that was read, with its tables and the sum of their sizes.
#[derive(Clone, Copy)]
pub struct Reading<'a, T> {
    pub window: Window,
    pub tables: &'a [T],
    pub bytes: u64,
}
