//! Whether what a transaction read and wrote is in the way of an operation.
ghost use Rattle.std.specs.Prelude.{◌≡◌};
ghost use Rattle.co_base.specs.Span.{span_of_key};
ghost use Rattle.co_state.specs.Keys.{writes_within};
ghost use Rattle.co_state.specs.LockRule.{writes_block};
ghost use Rattle.co_state.specs.Search.{sets_block};
ghost use Rattle.co_state.specs.Table.{lesser};

use crate::engine_state::Sets;
use crate::meeting::{reads_key, writes_key, writes_within};
use co_base::{Key, Op, Txn, Written};

/// Whether some change is one of a key of the range that has the one key alone.
fn writes_at(changes: &[Written], key: &Key) -> bool
    ensures { result ≡ writes_within changes.now (span_of_key key.now) }
{
    for change in changes {
        if *key <= change.key && change.key <= *key {
            return true;
        }
    }
    false
}

/// Whether another transaction's writes are in the way of the operation.
pub fn writes_block(changes: &[Written], op: &Op) -> bool
    ensures { result ≡ writes_block changes.now op.now }
{
    match op {
        Op::Read(key) => writes_at(changes, key),
        Op::Scan(range) => writes_within(changes, range),
        Op::Write(key, _) => writes_key(changes, key),
        Op::Erase(key) => writes_key(changes, key),
    }
}

/// Whether an active transaction that read and wrote this is in the way of the operation.
pub fn sets_block(sets: &Sets, op: &Op) -> bool
    ensures { result ≡ sets_block sets.now op.now }
{
    let written = writes_block(sets.writes(), op);
    match op {
        Op::Read(_) => written,
        Op::Scan(_) => written,
        Op::Write(key, _) => written || reads_key(sets.reads(), key),
        Op::Erase(key) => written || reads_key(sets.reads(), key),
    }
}

/// The lesser of two transactions, where there are any.
pub fn lesser(one: Option<Txn>, other: Option<Txn>) -> Option<Txn>
    ensures { result ≡ lesser one other }
{
    match (one, other) {
        (None, _) => other,
        (Some(_), None) => one,
        (Some(t), Some(u)) => Some(if t <= u { t } else { u }),
    }
}
