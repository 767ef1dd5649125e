//! Questions on a run, at both key kinds and at standing and fresh tables.
use crate::samples::{fresh, key, standing, stops};
use keys::byte_key::ByteKey;
use keys::key_range::KeyRange;
use keys::stop_key::StopKey;
use refusals::refusal::Refusal;
use runs::run::{Run, Stretch, aggregate};
use runs::table::Table;
use std::process::Abort;
use std::test::Fail;

// The place and the length of a stretch.
fn is_stretch<T>(
    rt: &impl Abort,
    answer: Result<Stretch<'_, T>, Refusal>,
    place: usize,
    len: usize,
) -> Result<(), Fail> {
    let stretch = answer.map_err(|_| Fail::new("refused"))?;
    assert_eq!(rt; stretch.place, place);
    assert_eq!(rt; stretch.tables.len(), len);
    Ok(())
}

#[test]
fn an_empty_run(rt: HostRuntime) -> Result<(), Fail> {
    let tables: [Table<StopKey>; 0] = [];
    let run = Run { tables: &tables };
    is_stretch(&rt, run.get_overlapping(&stops(0, 9)), 0, 0)?;
    is_stretch(&rt, run.get_contained(&stops(0, 9)), 0, 0)?;
    assert!(rt; matches!(run.aggregate_key_range(), Ok(None)));
    Ok(())
}

#[test]
fn one_table(rt: HostRuntime) -> Result<(), Fail> {
    let tables = [standing(1, 5, 9, 10)];
    let run = Run { tables: &tables };
    is_stretch(&rt, run.get_overlapping(&stops(9, 20)), 0, 1)?;
    is_stretch(&rt, run.get_overlapping(&stops(10, 20)), 1, 0)?;
    is_stretch(&rt, run.get_contained(&stops(5, 9)), 0, 1)?;
    is_stretch(&rt, run.get_contained(&stops(6, 9)), 1, 0)
}

#[test]
fn meets_the_middle(rt: HostRuntime) -> Result<(), Fail> {
    let tables = [
        standing(1, 0, 9, 10),
        standing(2, 10, 19, 10),
        standing(3, 20, 29, 10),
    ];
    let run = Run { tables: &tables };
    is_stretch(&rt, run.get_overlapping(&stops(9, 12)), 0, 2)?;
    is_stretch(&rt, run.get_contained(&stops(9, 25)), 1, 1)?;
    is_stretch(&rt, run.get_contained(&stops(0, 29)), 0, 3)
}

#[test]
fn an_inverted_range(rt: HostRuntime) -> Result<(), Fail> {
    let tables = [standing(1, 0, 9, 10), standing(2, 10, 19, 10)];
    let run = Run { tables: &tables };
    is_stretch(&rt, run.get_overlapping(&stops(15, 12)), 1, 1)?;
    is_stretch(&rt, run.get_overlapping(&stops(15, 5)), 1, 0)?;
    is_stretch(&rt, run.get_contained(&stops(15, 5)), 2, 0)
}

#[test]
fn what_is_no_run_is_refused(rt: HostRuntime) {
    let unsorted = [standing(1, 10, 19, 10), standing(2, 0, 9, 10)];
    let meeting = [standing(1, 0, 9, 10), standing(2, 9, 12, 10)];
    let inverted = [standing(1, 9, 0, 10)];
    assert!(rt;
        Run { tables: &unsorted }
            .get_overlapping(&stops(0, 9))
            .is_err()
    );
    assert!(rt;
        Run { tables: &meeting }
            .get_contained(&stops(0, 9))
            .is_err()
    );
    assert!(rt; Run { tables: &inverted }.aggregate_key_range().is_err());
}

#[test]
fn spans(rt: HostRuntime) -> Result<(), Fail> {
    let tables = [
        standing(1, 10, 19, 10),
        standing(2, 0, 30, 10),
        standing(3, 5, 7, 10),
    ];
    let span = aggregate(&tables).ok_or_else(|| Fail::new("no span"))?;
    assert_eq!(rt; span.min.stop, 0);
    assert_eq!(rt; span.max.stop, 30);
    Ok(())
}

#[test]
fn fresh_tables_under_byte_keys(rt: HostRuntime) -> Result<(), Fail> {
    let tables = [fresh(1, b"a", b"ab")?, fresh(2, b"ab\0", b"c")?];
    let run = Run { tables: &tables };
    let range: KeyRange<ByteKey> = KeyRange {
        min: key(b"aa")?,
        max: key(b"ab")?,
    };
    is_stretch(&rt, run.get_overlapping(&range), 0, 1)?;
    is_stretch(&rt, run.get_contained(&range), 1, 0)
}
