//! How a byte key is made, and the order of byte keys.
ghost use Rattle.std.specs.Prelude.{◌≡◌, ◌≤◌, [], length, if◌then◌else◌, Ok, Err, nat_lt};
ghost use Rattle.std.specs.Cmp.Lexicographic.{nat_list_cmp_total};
ghost use Rattle.refusals.specs.declared.refusal.Refusal.TheVariants.{KeyTooLong};
ghost use Rattle.keys.specs.ByteKey.{byte_ranks};
ghost use Rattle.keys.specs.KeyKind.{laws_of};

use super::ByteKey;
use crate::key_kind::KeyKind;
use refusals::refusal::{LONGEST_KEY, Refusal};
use std::cmp::Ordering;

impl ByteKey {
    /// The key of some bytes, of which there are at most 32.
    pub fn new(from: &[u8]) -> Result<ByteKey, Refusal>
        ensures { result ≡ (if nat_lt 32 (length from.now) then Err KeyTooLong else Ok from.now) }
    {
        let mut bytes = [0; LONGEST_KEY];
        let (front, _) = bytes
            .split_at_mut_checked(from.len())
            .ok_or(Refusal::KeyTooLong)?;
        front.copy_from_slice(from);
        Ok(ByteKey {
            bytes,
            len: from.len(),
        })
    }

    /// The bytes of the key.
    pub fn as_slice(&self) -> &[u8]
        ensures bytes { result.now ≡ self.now }
        ensures few { length result.now ≤ 32 }
    {
        &self.bytes[0..self.len]
    }
}

impl Default for ByteKey {
    ghost is_default = { λ key. key ≡ [] };

    /// The key of no bytes.
    fn default() -> ByteKey {
        ByteKey {
            bytes: [0; LONGEST_KEY],
            len: 0,
        }
    }
}

impl KeyKind for ByteKey {
    ghost ranks = { byte_ranks };

    ghost total = { laws_of nat_list_cmp_total };

    fn compare(&self, other: &ByteKey) -> Ordering {
        self.as_slice().cmp(&other.as_slice())
    }
}
