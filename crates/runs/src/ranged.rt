//! What has a key range, and what has a number and a size besides.
ghost use Rattle.std.specs.Prelude.{◌≡◌, ℕ};
ghost use Rattle.keys.specs.declared.key_range.KeyRange.{KeyRange};

use keys::key_kind::KeyKind;
use keys::key_range::KeyRange;

/// What has a key range.
pub trait Ranged {
    /// The kind of its keys.
    type Key: KeyKind;

    // The range.
    ghost spans: { Self → KeyRange Self.Key };

    /// The keys from the first to the last, both included.
    fn key_range(&self) -> &KeyRange<Self::Key>
        ensures { result.now ≡ spans self.now };
}

/// What has a number and a size, and so always a range.
pub trait TableFile: Ranged {
    // The number.
    ghost named: { Self → ℕ };

    // The size in bytes.
    ghost bytes: { Self → ℕ };

    /// The number by which a table is known.
    fn id(&self) -> u64
        ensures { result ≡ named self.now };

    /// The size of the file in bytes.
    fn file_size(&self) -> u64
        ensures { result ≡ bytes self.now };
}
