//! Windows with their sums, at standing tables under stop keys and at fresh ones under byte keys.
use crate::samples::{fresh, standing};
use keys::stop_key::StopKey;
use refusals::refusal::Refusal;
use runs::ranged::TableFile;
use runs::table::Table;
use std::process::Abort;
use std::test::Fail;
use windows::slice_windows::{Windows, growing_windows, shrinking_windows};

// A window that is to be read: where it starts, how many tables it has, and their bytes.
type Expected = (usize, usize, u64);

// The cursor reads exactly these windows.
fn reads<T: TableFile>(
    rt: &impl Abort,
    windows: Result<Windows<'_, T>, Refusal>,
    expected: &[Expected],
) -> Result<(), Fail> {
    let mut windows = windows.map_err(|_| Fail::new("refused"))?;
    for (start, len, bytes) in expected {
        let read = windows.next().ok_or_else(|| Fail::new("no window left"))?;
        assert_eq!(rt; read.window.start, *start);
        assert_eq!(rt; read.tables.len(), *len);
        assert_eq!(rt; read.bytes, *bytes);
    }
    assert!(rt; windows.next().is_none());
    Ok(())
}

fn reads_growing<T: TableFile>(
    rt: &impl Abort,
    tables: &[T],
    expected: &[Expected],
) -> Result<(), Fail> {
    reads(rt, growing_windows(tables), expected)
}

fn reads_shrinking<T: TableFile>(
    rt: &impl Abort,
    tables: &[T],
    expected: &[Expected],
) -> Result<(), Fail> {
    reads(rt, shrinking_windows(tables), expected)
}

fn is_refused<T: TableFile>(tables: &[T]) -> bool {
    growing_windows(tables).is_err() && shrinking_windows(tables).is_err()
}

#[test]
fn short_ones_first(rt: HostRuntime) -> Result<(), Fail> {
    let tables = [
        standing(1, 0, 9, 1),
        standing(2, 10, 19, 20),
        standing(3, 20, 29, 300),
    ];
    reads_growing(
        &rt,
        &tables,
        &[
            (0, 1, 1),
            (1, 1, 20),
            (2, 1, 300),
            (0, 2, 21),
            (1, 2, 320),
            (0, 3, 321),
        ],
    )
}

#[test]
fn long_ones_first(rt: HostRuntime) -> Result<(), Fail> {
    let tables = [
        fresh(1, b"a", b"b")?,
        fresh(2, b"c", b"d")?,
        fresh(3, b"e", b"f")?,
    ];
    reads_shrinking(
        &rt,
        &tables,
        &[
            (0, 3, 30),
            (0, 2, 20),
            (1, 2, 20),
            (0, 1, 10),
            (1, 1, 10),
            (2, 1, 10),
        ],
    )
}

#[test]
fn no_tables_no_windows(rt: HostRuntime) -> Result<(), Fail> {
    let tables: [Table<StopKey>; 0] = [];
    reads_shrinking(&rt, &tables, &[])
}

#[test]
fn sums_above_the_limit_are_refused(rt: HostRuntime) {
    let tables = [standing(1, 0, 9, 1 << 53), standing(2, 10, 19, 1)];
    assert!(rt; is_refused(&tables));
    assert!(rt; !is_refused(&tables[0..1]));
}
