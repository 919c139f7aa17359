//! Equal lists of changes and of ranges.
ghost use Rattle.std.specs.Prelude.{◌≡◌, IfOk};

use co_base::{Range, Ranges, Writes, Written};
use std::alloc::{AllocError, Global};

/// An equal list of changes.
pub fn copy_writes(alloc: Global, writes: &[Written]) -> Result<Writes, AllocError>
    ensures { IfOk result (λ copy. copy ≡ writes.now) }
{
    let mut copy = Vec::new(alloc);
    for change in writes {
        copy.push(change.copy()?)?;
    }
    Ok(Writes::of(copy))
}

/// An equal list of ranges.
pub fn copy_ranges(alloc: Global, ranges: &[Range]) -> Result<Ranges, AllocError>
    ensures { IfOk result (λ copy. copy ≡ ranges.now) }
{
    let mut copy = Vec::new(alloc);
    for range in ranges {
        copy.push(range.copy()?)?;
    }
    Ok(Ranges::of(copy))
}
