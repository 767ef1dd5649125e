//! Keys, ranges and bounds.
use crate::samples::{key, stop, stops};
use keys::bounds::OwnedBounds;
use keys::byte_key::ByteKey;
use keys::key_kind::KeyKind;
use keys::stop_key::StopKey;
use std::ops::Bound;
use std::test::Fail;

#[test]
fn a_prefix_is_first(rt: HostRuntime) -> Result<(), Fail> {
    assert!(rt; key(b"")?.compare(&key(b"\0")?).is_lt());
    assert!(rt; key(b"ab")?.compare(&key(b"ab\0")?).is_lt());
    assert!(rt; key(b"ab")?.compare(&key(b"ab")?).is_eq());
    assert!(rt; key(b"b")?.compare(&key(b"ab")?).is_gt());
    Ok(())
}

#[test]
fn at_most_32_bytes(rt: HostRuntime) -> Result<(), Fail> {
    assert_eq!(rt; key(&[255u8; 32])?.as_slice().len(), 32);
    let refusal = ByteKey::new(&[255u8; 33])
        .err()
        .ok_or_else(|| Fail::new("not refused"))?;
    assert_eq!(rt; refusal.number(), 14);
    assert_eq!(rt; refusal.layer().letter(), 'K');
    assert_eq!(rt; refusal.place(), 32);
    Ok(())
}

#[test]
fn the_tour_comes_first(rt: HostRuntime) {
    let last = StopKey {
        tour: 1,
        stop: u32::MAX,
    };
    let next = StopKey { tour: 2, stop: 0 };
    let widest = StopKey {
        tour: u32::MAX,
        stop: u32::MAX,
    };
    assert!(rt; last.compare(&next).is_lt());
    assert!(rt; widest.compare(&next).is_gt());
    assert!(rt; widest.compare(&widest).is_eq());
}

#[test]
fn touching_ends_meet(rt: HostRuntime) {
    assert!(rt; stops(0, 9).overlaps_with_key_range(&stops(9, 12)));
    assert!(rt; !stops(0, 9).overlaps_with_key_range(&stops(10, 12)));
    assert!(rt; stops(0, 9).contains_range(&stops(0, 9)));
    assert!(rt; !stops(0, 9).contains_range(&stops(0, 10)));
}

#[test]
fn bounds_with_and_without_their_key(rt: HostRuntime) {
    let all = OwnedBounds {
        start: Bound::Unbounded,
        end: Bound::Unbounded,
    };
    let included = OwnedBounds {
        start: Bound::Included(stop(5)),
        end: Bound::Included(stop(9)),
    };
    let excluded = OwnedBounds {
        start: Bound::Excluded(stop(5)),
        end: Bound::Excluded(stop(9)),
    };
    assert!(rt; all.contains(&stops(0, u32::MAX)));
    assert!(rt; included.contains(&stops(5, 9)));
    assert!(rt; !excluded.contains(&stops(5, 8)));
    assert!(rt; !excluded.contains(&stops(6, 9)));
    assert!(rt; excluded.contains(&stops(6, 8)));
}
