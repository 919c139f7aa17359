//! The operations of transactions.
ghost use Rattle.std.specs.Prelude.{◌≡◌, IfOk};

use crate::key::Key;
use crate::range::Range;
use crate::value::Value;
use std::alloc::AllocError;

/// What a transaction does at one member.
#[derive(Drop, PartialEq)]
pub enum Op {
    /// Reads one record.
    Read(Key),
    /// Writes one record.
    Write(Key, Value),
    /// Takes one record away.
    Erase(Key),
    /// Reads the records of a range.
    Scan(Range),
}

impl Op {
    /// An equal operation.
    pub fn copy(&self) -> Result<Op, AllocError>
        ensures { IfOk result (λ op. op ≡ self.now) }
    {
        match self {
            Op::Read(key) => Ok(Op::Read(key.copy()?)),
            Op::Write(key, value) => Ok(Op::Write(key.copy()?, value.copy()?)),
            Op::Erase(key) => Ok(Op::Erase(key.copy()?)),
            Op::Scan(range) => Ok(Op::Scan(range.copy()?)),
        }
    }
}
