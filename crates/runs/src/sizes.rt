//! The sum of the sizes of some tables.
ghost use Rattle.std.specs.Prelude.{◌≡◌, Some, None, sum_by, nat_le, if◌then◌else◌};

use crate::ranged::TableFile;

/// The most bytes of a size, a linked sum, the total of sizes and the blob total: 2^53.
pub const MOST_BYTES: u64 = 1 << 53;

/// The sum of the sizes, none where it is above the most that it may be.
pub fn total_size<T: TableFile>(tables: &[T], most: u64) -> Option<u64>
    ensures { result ≡ (if nat_le (sum_by T.bytes tables.now) most then Some (sum_by T.bytes tables.now) else None) }
{
    tables.iter().try_fold(0u64, |total, table| {
        total
            .checked_add(table.file_size())
            .filter(|sum| *sum <= most)
    })
}
