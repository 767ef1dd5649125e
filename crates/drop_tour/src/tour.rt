//! Dropping a tour from a sheet.
ghost use Rattle.std.specs.Prelude.{◌≡◌, length};
ghost use Rattle.drop_tour.specs.Tour.{bounds_of, dropped, left, written};

use edits::records::remove_all;
use keys::bounds::OwnedBounds;
use keys::stop_key::StopKey;
use refusals::refusal::Refusal;
use runs::table::Table;
use std::ops::Bound;
use strategies::naming::{Named, name_tables};

/// What was named, and how many tables stand after.
#[derive(Clone, Copy)]
pub struct Dropped {
    pub named: Named,
    pub standing: usize,
}

// From a tour's first stop to its last.
fn tour_bounds(tour: u32) -> OwnedBounds<StopKey>
    ensures { result ≡ bounds_of tour }
{
    OwnedBounds {
        start: Bound::Included(StopKey { tour, stop: 0 }),
        end: Bound::Included(StopKey {
            tour,
            stop: u32::MAX,
        }),
    }
}

/// Names the tables that lie wholly inside the tour, of the first `count` of the sheet, and takes them out.
/// Refused, sheet and id sheet keep their content.
pub fn drop_tour(
    sheet: &mut [Table<StopKey>],
    count: usize,
    tour: u32,
    ids: &mut [u64],
) -> Result<Dropped, Refusal>
    ensures answer { result ≡ dropped tour count sheet.old (length ids.old) }
    ensures sheet { sheet.new ≡ left tour count sheet.old (length ids.old) }
    ensures ids { ids.new ≡ written tour count sheet.old ids.old }
{
    let standing = sheet.get(..count).ok_or(Refusal::NotSound)?;
    let named = name_tables(standing, &tour_bounds(tour), ids)?;
    let left = remove_all(sheet, count, &ids[..named.count]);
    Ok(Dropped {
        named,
        standing: left,
    })
}
