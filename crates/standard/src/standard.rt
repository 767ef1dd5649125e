//! One strategy that is any of those that come with the library.
ghost use Rattle.standard.specs.Standard.{standard};
ghost use Rattle.standard.specs.StandardLaws.{standard_lawful};

use keys::bounds::OwnedBounds;
use keys::key_kind::KeyKind;
use leveled::strategy::Leveled;
use levels::settings::Settings as LeveledSettings;
use strategies::choice::Choice;
use strategies::declined::Declined;
use strategies::drop_range::DropRange;
use strategies::fifo::{Fifo, FifoSettings};
use strategies::major::{Major, MajorSettings};
use strategies::snapshot::Snapshot;
use strategies::strategy::CompactionStrategy;

/// The settings of one of the strategies.
#[derive(Clone, Copy)]
pub enum Settings<K> {
    Leveled(LeveledSettings),
    Fifo(FifoSettings),
    Major(MajorSettings),
    DropRange(OwnedBounds<K>),
}

/// The strategy that its settings are for.
#[derive(Clone, Copy)]
pub struct Standard;

impl<K: KeyKind> CompactionStrategy<K> for Standard {
    type Settings = Settings<K>;

    ghost chooses = { λ s ts hs blobs clock. standard K.ranks s ts hs blobs clock };

    ghost keeps = { λ s blobs clock. standard_lawful K.KeyKind.total s blobs clock };

    fn choose(
        settings: &Settings<K>,
        snapshot: &Snapshot<'_, K>,
        ids: &mut [u64],
    ) -> Result<Choice, Declined> {
        match settings {
            Settings::Leveled(leveled) => Leveled::choose(leveled, snapshot, ids),
            Settings::Fifo(fifo) => Fifo::choose(fifo, snapshot, ids),
            Settings::Major(major) => Major::choose(major, snapshot, ids),
            Settings::DropRange(bounds) => DropRange::choose(bounds, snapshot, ids),
        }
    }
}
