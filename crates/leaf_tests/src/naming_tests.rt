//! Which tables an answer names.
use crate::samples::{standing, stop};
use keys::bounds::OwnedBounds;
use keys::stop_key::StopKey;
use std::ops::Bound;
use std::test::Fail;
use strategies::naming::name_tables;

fn from_five_to_nineteen() -> OwnedBounds<StopKey> {
    OwnedBounds {
        start: Bound::Included(stop(5)),
        end: Bound::Excluded(stop(20)),
    }
}

#[test]
fn names_in_order(rt: HostRuntime) -> Result<(), Fail> {
    let tables = [
        standing(7, 0, 4, 1),
        standing(9, 5, 9, 20),
        standing(3, 10, 19, 300),
        standing(4, 15, 25, 4000),
    ];
    let mut ids = [77u64; 3];
    let named = name_tables(&tables, &from_five_to_nineteen(), &mut ids).map_err(|_| Fail::new(
        "refused",
    ))?;
    assert_eq!(rt; named.count, 2);
    assert_eq!(rt; named.bytes, 320);
    assert_eq!(rt; ids, [9, 3, 77]);
    Ok(())
}

#[test]
fn refused_it_writes_nothing(rt: HostRuntime) {
    let tables = [standing(9, 5, 9, 20), standing(3, 10, 19, 300)];
    let mut ids = [77u64; 1];
    let refused = name_tables(&tables, &from_five_to_nineteen(), &mut ids).err();
    assert_eq!(rt; refused.map(|refusal| refusal.number()), Some(9));
    assert_eq!(rt; ids, [77]);
}

#[test]
fn the_widest_sizes_are_refused(rt: HostRuntime) {
    let tables = [standing(1, 5, 9, u64::MAX), standing(2, 10, 19, u64::MAX)];
    let mut ids = [77u64; 2];
    let refused = name_tables(&tables, &from_five_to_nineteen(), &mut ids).err();
    assert_eq!(rt; refused.map(|refusal| refusal.number()), Some(1));
}
