//! Walks over the elements of a lent record, each lent from the source in turn.
ghost use Rattle.std.specs.Prelude.{◌≡◌, ℕ, List, [], ◌∷◌, map, option_copied, MatchOption};
ghost use Rattle.co_record.specs.Reading.{elements, pair_at, change_at, member_at, txn_at};

use crate::element::{PairKind, read_change, read_member, read_pair};
use crate::field::read_u32;
use co_base::Txn;
use std::marker::Model;

/// The ranges or rows of a lent record. A contract sees the list of pairs that are left: the two bounds of
/// each range, or the key and the value of each row.
#[derive(Drop)]
pub struct PairWalk<'a> {
    kind: PairKind,
    left: u32,
    bytes: &'a [u8],
}

impl<'a> Model for PairWalk<'a> {
    ghost use Rattle.std.specs.Prelude.{ℕ, List};
    ghost use Rattle.co_record.specs.Reading.{elements, pair_at};

    ghost Value = { List (List ℕ × List ℕ) };

    ghost view = { λ w. elements (pair_at w.kind) w.left w.bytes.now };
}

impl<'a> PairWalk<'a> {
    /// The first `left` pairs at the front of these bytes, or those up to the first that cannot be read.
    pub(crate) fn new(kind: PairKind, left: u32, bytes: &'a [u8]) -> PairWalk<'a>
        ensures { result ≡ elements (pair_at kind) left bytes.now }
    {
        PairWalk { kind, left, bytes }
    }

    /// Another walk over what is left. Takes no memory.
    pub fn again(&self) -> PairWalk<'a>
        ensures { result ≡ self.now }
    {
        PairWalk::new(self.kind, self.left, self.bytes)
    }

    /// Lends the next pair. Takes no memory.
    #[tactic(auto, unfolding(crate::specs::Reading::elements))]
    pub fn next(&mut self) -> Option<(&'a [u8], &'a [u8])>
        ensures { MatchOption result ((self.old ≡ []) × (self.new ≡ [])) (λ pair. self.old ≡ (pair.0.now, pair.1.now) ∷ self.new) }
    {
        if self.left == 0 {
            return None;
        }
        let (pair, rest) = read_pair(self.kind, self.bytes).ok()?;
        self.left -= 1;
        self.bytes = rest;
        Some(pair)
    }
}

/// The writes or undos of a lent record. A contract sees the list of changes that are left.
#[derive(Drop)]
pub struct ChangeWalk<'a> {
    version: u8,
    left: u32,
    bytes: &'a [u8],
}

impl<'a> Model for ChangeWalk<'a> {
    ghost use Rattle.std.specs.Prelude.{List};
    ghost use Rattle.co_base.specs.declared.written.Written.{Written};
    ghost use Rattle.co_record.specs.Reading.{elements, change_at};

    ghost Value = { List Written };

    ghost view = { λ w. elements (change_at w.version) w.left w.bytes.now };
}

impl<'a> ChangeWalk<'a> {
    /// The first `left` changes of a version at the front of these bytes, or those up to the first that cannot be read.
    pub(crate) fn new(version: u8, left: u32, bytes: &'a [u8]) -> ChangeWalk<'a>
        ensures { result ≡ elements (change_at version) left bytes.now }
    {
        ChangeWalk {
            version,
            left,
            bytes,
        }
    }

    /// Another walk over what is left. Takes no memory.
    pub fn again(&self) -> ChangeWalk<'a>
        ensures { result ≡ self.now }
    {
        ChangeWalk::new(self.version, self.left, self.bytes)
    }

    /// Lends the key and the value of the next change; no value is an erased or absent record. Takes no
    /// memory.
    #[tactic(auto, unfolding(crate::specs::Reading::elements))]
    pub fn next(&mut self) -> Option<(&'a [u8], Option<&'a [u8]>)>
        ensures { MatchOption result ((self.old ≡ []) × (self.new ≡ []))
            (λ change. self.old ≡ record { key = change.0.now; value = option_copied change.1 } ∷ self.new) }
    {
        if self.left == 0 {
            return None;
        }
        let (change, rest) = read_change(self.version, self.bytes).ok()?;
        self.left -= 1;
        self.bytes = rest;
        Some(change)
    }
}

/// The members of a lent commit. A contract sees the list of numbers that are left.
#[derive(Drop)]
pub struct MemberWalk<'a> {
    left: u8,
    bytes: &'a [u8],
}

impl<'a> Model for MemberWalk<'a> {
    ghost use Rattle.std.specs.Prelude.{ℕ, List};
    ghost use Rattle.co_record.specs.Reading.{elements, member_at};

    ghost Value = { List ℕ };

    ghost view = { λ w. elements member_at w.left w.bytes.now };
}

impl<'a> MemberWalk<'a> {
    /// The first `left` members at the front of these bytes, or those up to the first that cannot be read.
    pub(crate) fn new(left: u8, bytes: &'a [u8]) -> MemberWalk<'a>
        ensures { result ≡ elements member_at left bytes.now }
    {
        MemberWalk { left, bytes }
    }

    /// The next member's number. Takes no memory.
    #[tactic(auto, unfolding(crate::specs::Reading::elements))]
    pub fn next(&mut self) -> Option<u8>
        ensures { MatchOption result ((self.old ≡ []) × (self.new ≡ [])) (λ member. self.old ≡ member ∷ self.new) }
    {
        if self.left == 0 {
            return None;
        }
        let (member, rest) = read_member(self.bytes).ok()?;
        self.left -= 1;
        self.bytes = rest;
        Some(member)
    }
}

/// The committed transactions of a lent checkpoint. A contract sees the list of numbers that are left.
#[derive(Drop)]
pub struct TxnWalk<'a> {
    left: u32,
    bytes: &'a [u8],
}

impl<'a> Model for TxnWalk<'a> {
    ghost use Rattle.std.specs.Prelude.{ℕ, List};
    ghost use Rattle.co_record.specs.Reading.{elements, txn_at};

    ghost Value = { List ℕ };

    ghost view = { λ w. elements txn_at w.left w.bytes.now };
}

impl<'a> TxnWalk<'a> {
    /// The first `left` numbers at the front of these bytes, or those that are whole.
    pub(crate) fn new(left: u32, bytes: &'a [u8]) -> TxnWalk<'a>
        ensures { result ≡ elements txn_at left bytes.now }
    {
        TxnWalk { left, bytes }
    }

    /// The next transaction's number. Takes no memory.
    #[tactic(auto, unfolding(crate::specs::Reading::elements))]
    pub fn next(&mut self) -> Option<Txn>
        ensures { MatchOption result ((self.old ≡ []) × (self.new ≡ [])) (λ txn. self.old ≡ txn ∷ self.new) }
    {
        if self.left == 0 {
            return None;
        }
        let (number, rest) = read_u32(self.bytes).ok()?;
        self.left -= 1;
        self.bytes = rest;
        Some(Txn(number))
    }
}
