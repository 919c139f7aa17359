//! What one operation reads and changes.
ghost use Rattle.std.specs.Prelude.{◌≡◌, IfOk};
ghost use Rattle.co_state.specs.Changes.{span_read, change_made};

use co_base::{Op, Range, Written};
use std::alloc::AllocError;

/// The range that an operation reads, if it reads one.
pub fn range_read(op: &Op) -> Result<Option<Range>, AllocError>
    ensures { IfOk result (λ range. range ≡ span_read op.now) }
{
    match op {
        Op::Read(key) => Ok(Some(Range::of_key(key)?)),
        Op::Scan(range) => Ok(Some(range.copy()?)),
        Op::Write(_, _) => Ok(None),
        Op::Erase(_) => Ok(None),
    }
}

/// The change that an operation makes, if it makes one.
pub fn change_made(op: &Op) -> Result<Option<Written>, AllocError>
    ensures { IfOk result (λ change. change ≡ change_made op.now) }
{
    match op {
        Op::Read(_) => Ok(None),
        Op::Scan(_) => Ok(None),
        Op::Write(key, value) => Ok(Some(Written {
            key: key.copy()?,
            value: Some(value.copy()?),
        })),
        Op::Erase(key) => Ok(Some(Written {
            key: key.copy()?,
            value: None,
        })),
    }
}
