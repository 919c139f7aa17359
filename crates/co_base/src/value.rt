//! Values.
ghost use Rattle.std.specs.Prelude.{◌≡◌, ◌↔◌, length, IfOk, IsErrOf, All, nat_eq, refl};
ghost use Rattle.std.specs.Ordering.{nat_cmp, as_partial_cmp};
ghost use Rattle.std.specs.Cmp.Lexicographic.{pointwise, slice_cmp};
ghost use Rattle.std.specs.Cmp.{partial_order_from_own_ties};
ghost use Rattle.std.specs.Cmp.Rules.{comparing};
ghost use Rattle.std.proofs.Common.{rules};
ghost use Rattle.co_base.specs.Letters.{IsLetter, HasLength, IsText, most_value_bytes};

use crate::fault::BaseFault;
use crate::letters::test_text;
use std::alloc::{AllocError, Global};
use std::cmp::Ordering;
use std::marker::Model;

/// What a record holds: 1 to 4,096 visible characters of ASCII. A contract sees its bytes.
///
/// Values are ordered by their bytes.
#[derive(Drop)]
pub struct Value {
    bytes: Vec<u8>,
}

impl Model for Value {
    ghost use Rattle.std.specs.Prelude.{List, ℕ};
    ghost use Rattle.co_base.specs.Letters.{IsText, most_value_bytes};

    ghost Value = { List ℕ };

    ghost view = { λ v. v.bytes.items };

    ghost invariant = { λ v. IsText most_value_bytes v.bytes.items };
}

impl Value {
    /// The most bytes that a value has.
    pub const MOST: usize = 4096;

    /// Makes a value of these bytes. `Length` comes where their count is outside 1 to 4,096, else
    /// `Letter` where a byte is outside `21` to `7e` hex.
    pub fn new(alloc: Global, bytes: &[u8]) -> Result<Value, BaseFault>
        ensures ok { IfOk result (λ v. v ≡ bytes.now) }
        ensures length { IsErrOf result BaseFault.Length ↔ ¬ (HasLength most_value_bytes bytes.now) }
        ensures letter { IsErrOf result BaseFault.Letter ↔ (HasLength most_value_bytes bytes.now × ¬ (All IsLetter bytes.now)) }
        ensures order { IsErrOf result BaseFault.Order → ⊥ }
    {
        test_text(bytes, Value::MOST)?;
        Ok(Value {
            bytes: Vec::from_slice(alloc, bytes)?,
        })
    }

    /// The bytes.
    pub fn text(&self) -> &[u8]
        ensures value { result.now ≡ self.now }
        ensures valid { IsText most_value_bytes result.now }
    {
        self.bytes.as_slice()
    }

    /// An equal value.
    pub fn copy(&self) -> Result<Value, AllocError>
        ensures { IfOk result (λ v. v ≡ self.now) }
    {
        Ok(Value {
            bytes: self.bytes.clone()?,
        })
    }
}

impl PartialEq for Value {
    ghost eq = { pointwise nat_eq };

    ghost laws = { Prim.search (comparing, rules) };

    fn eq(&self, other: &Value) -> bool {
        self.bytes == other.bytes
    }
}

impl Eq for Value {
    ghost laws = { Prim.search (comparing, rules) };
}

impl PartialOrd for Value {
    ghost partial_cmp = { as_partial_cmp (slice_cmp nat_cmp) };

    ghost laws = { partial_order_from_own_ties (Prim.search (comparing, rules)) (Prim.search (comparing, rules)) };

    fn partial_cmp(&self, other: &Value) -> Option<Ordering> {
        Some(self.cmp(other))
    }
}

impl Ord for Value {
    ghost cmp = { slice_cmp nat_cmp };

    ghost total = { Prim.search (comparing, rules) };

    ghost matches_partial_cmp = { λ x y. refl };

    ghost matches_eq = { Prim.search (comparing, rules) };

    fn cmp(&self, other: &Value) -> Ordering {
        self.bytes.cmp(&other.bytes)
    }
}
