//! Keys and tables for the examples.
use keys::byte_key::ByteKey;
use keys::key_range::KeyRange;
use keys::stop_key::StopKey;
use runs::fresh::Fresh;
use runs::table::Table;
use std::test::Fail;

/// A stop of tour 0.
pub fn stop(stop: u32) -> StopKey {
    StopKey { tour: 0, stop }
}

/// The key of some bytes.
pub fn key(bytes: &[u8]) -> Result<ByteKey, Fail> {
    ByteKey::new(bytes).map_err(|_| Fail::new("too long"))
}

/// A range of stops of tour 0.
pub fn stops(min: u32, max: u32) -> KeyRange<StopKey> {
    KeyRange {
        min: stop(min),
        max: stop(max),
    }
}

/// A standing table of level 1.
pub fn standing(number: u64, min: u32, max: u32, size: u64) -> Table<StopKey> {
    Table {
        number,
        level: 1,
        run: 0,
        range: stops(min, max),
        size,
        created: 0,
        linked: 0,
    }
}

/// A fresh table under byte keys.
pub fn fresh(number: u64, min: &[u8], max: &[u8]) -> Result<Fresh<ByteKey>, Fail> {
    Ok(Fresh {
        number,
        range: KeyRange {
            min: key(min)?,
            max: key(max)?,
        },
        size: 10,
        created: 0,
        linked: 0,
    })
}
