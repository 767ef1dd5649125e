//! A key of at most 32 bytes. The bytes behind its length are zero.

pub mod order;

use refusals::refusal::LONGEST_KEY;
use std::marker::Model;

/// A key of 0 to 32 bytes, compared byte by byte, a prefix first.
// The bytes stand in the key itself, beside how many they are: a key is copied, and no key is on the heap.
#[derive(Clone, Copy)]
pub struct ByteKey {
    bytes: [u8; LONGEST_KEY],
    len: usize,
}

// A key is seen as its bytes. Those behind its length are zero, so that its bytes give it back.
impl Model for ByteKey {
    ghost use Rattle.std.specs.Prelude.{ℕ, List, length, take};
    ghost use Rattle.keys.specs.Stored.{IsStored, stored, stored_again, length_again};

    ghost Value = { List ℕ };

    ghost view = { λ k. take k.len k.bytes };

    ghost invariant = { λ k. IsStored k.bytes k.len };

    ghost inverse = { λ key. record { bytes = stored key; len = length key } };

    ghost inverse_ok = { λ k is i. record { bytes = stored_again k.bytes k.len is i; len = length_again k.bytes k.len is i } };
}
