//! Transactions that have voted yes and wait for the decision.
ghost use Rattle.std.specs.Prelude.{◌≡◌};
ghost use Rattle.co_pairs.specs.Free.{clash, clashes_with, are_free};

use co_base::{Sequence, Txn};
use co_state::Sets;

/// A transaction that has voted yes at a member.
#[derive(Drop)]
pub struct Prepared {
    /// Its number.
    pub txn: Txn,
    /// The coordinator that asked for the vote.
    pub coord: u8,
    /// How many operations were answered at the member.
    pub count: u16,
    /// What it read and wrote there.
    pub sets: Sets,
}

/// A list of prepared transactions.
pub type PreparedList = Sequence<Prepared>;

/// Whether two prepared transactions have one number or are in conflict.
fn clash(one: &Prepared, other: &Prepared) -> bool
    ensures { result ≡ clash one.now other.now }
{
    one.txn == other.txn
        || one.sets.meets(&other.sets)
        || other.sets.meets(&one.sets)
        || one.sets.both(&other.sets)
}

/// Whether one prepared transaction clashes with some of the others.
fn clashes_with(one: &Prepared, others: &[Prepared]) -> bool
    ensures { result ≡ clashes_with one.now others.now }
{
    for other in others {
        if clash(one, other) {
            return true;
        }
    }
    false
}

/// Whether the prepared transactions have different numbers and no conflicts with each other.
pub fn are_free(prepared: &[Prepared]) -> bool
    ensures { result ≡ are_free prepared.now }
{
    for (place, one) in prepared.iter().enumerate() {
        if clashes_with(one, &prepared[place + 1..]) {
            return false;
        }
    }
    true
}
