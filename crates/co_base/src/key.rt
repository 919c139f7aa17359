//! Keys.
ghost use Rattle.std.specs.Prelude.{◌≡◌, ◌↔◌, length, IfOk, IsErrOf, All, nat_eq, refl};
ghost use Rattle.std.specs.Ordering.{nat_cmp, as_partial_cmp};
ghost use Rattle.std.specs.Cmp.Lexicographic.{pointwise, slice_cmp};
ghost use Rattle.std.specs.Cmp.{partial_order_from_own_ties};
ghost use Rattle.std.specs.Cmp.Rules.{comparing};
ghost use Rattle.std.proofs.Common.{rules};
ghost use Rattle.co_base.specs.Letters.{IsLetter, HasLength, IsText, most_key_bytes};

use crate::fault::BaseFault;
use crate::letters::test_text;
use crate::words::{Padded, order_by_words};
use std::alloc::{AllocError, Global};
use std::cmp::Ordering;
use std::marker::Model;

/// The name of a record: 1 to 32 visible characters of ASCII. A contract sees its bytes.
///
/// Keys are ordered by their bytes. A key stands in place, and takes no memory beside it.
#[derive(Drop)]
pub struct Key {
    // No letter is zero, so keys lie as their padded letters do.
    bytes: Padded,
    len: u8,
}

impl Model for Key {
    ghost use Rattle.std.specs.Prelude.{List, ℕ, take};
    ghost use Rattle.co_base.specs.Letters.{IsText, most_key_bytes};
    ghost use Rattle.co_base.specs.Padded.{IsPadded};

    ghost Value = { List ℕ };

    ghost view = { λ k. take k.len k.bytes };

    ghost invariant = { λ k. IsText most_key_bytes (take k.len k.bytes) × IsPadded most_key_bytes k.len k.bytes };
}

impl Key {
    /// The most bytes that a key has.
    pub const MOST: usize = 32;

    /// Makes a key of these bytes. `Length` comes where their count is outside 1 to 32, else
    /// `Letter` where a byte is outside `21` to `7e` hex.
    pub fn new(_alloc: Global, bytes: &[u8]) -> Result<Key, BaseFault>
        ensures ok { IfOk result (λ k. k ≡ bytes.now) }
        ensures length { IsErrOf result BaseFault.Length ↔ ¬ (HasLength most_key_bytes bytes.now) }
        ensures letter { IsErrOf result BaseFault.Letter ↔ (HasLength most_key_bytes bytes.now × ¬ (All IsLetter bytes.now)) }
        ensures order { IsErrOf result BaseFault.Order → ⊥ }
    {
        test_text(bytes, Key::MOST)?;
        let mut padded = [0; 32];
        padded[..bytes.len()].copy_from_slice(bytes);
        Ok(Key {
            bytes: padded,
            len: bytes.len() as u8,
        })
    }

    /// The bytes.
    pub fn text(&self) -> &[u8]
        ensures value { result.now ≡ self.now }
        ensures valid { IsText most_key_bytes result.now }
    {
        &self.bytes[..self.len as usize]
    }

    /// An equal key.
    pub fn copy(&self) -> Result<Key, AllocError>
        ensures { IfOk result (λ k. k ≡ self.now) }
    {
        Ok(Key {
            bytes: self.bytes,
            len: self.len,
        })
    }
}

impl PartialEq for Key {
    ghost eq = { pointwise nat_eq };

    ghost laws = { Prim.search (comparing, rules) };

    fn eq(&self, other: &Key) -> bool {
        self.cmp(other).is_eq()
    }
}

impl Eq for Key {
    ghost laws = { Prim.search (comparing, rules) };
}

impl PartialOrd for Key {
    ghost partial_cmp = { as_partial_cmp (slice_cmp nat_cmp) };

    ghost laws = { partial_order_from_own_ties (Prim.search (comparing, rules)) (Prim.search (comparing, rules)) };

    fn partial_cmp(&self, other: &Key) -> Option<Ordering> {
        Some(self.cmp(other))
    }
}

impl Ord for Key {
    ghost cmp = { slice_cmp nat_cmp };

    ghost total = { Prim.search (comparing, rules) };

    ghost matches_partial_cmp = { λ x y. refl };

    ghost matches_eq = { Prim.search (comparing, rules) };

    fn cmp(&self, other: &Key) -> Ordering {
        order_by_words(&self.bytes, &other.bytes)
    }
}
