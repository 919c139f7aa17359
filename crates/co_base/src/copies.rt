//! Equal lists of records and of bytes.
ghost use Rattle.std.specs.Prelude.{◌≡◌, IfOk};

use crate::leaves::Bytes;
use crate::row::Row;
use std::alloc::{AllocError, Global};

/// Equal records.
pub fn copy_rows(alloc: Global, rows: &[Row]) -> Result<Vec<Row>, AllocError>
    ensures { IfOk result (λ copy. copy.items ≡ rows.now) }
{
    let mut copy = Vec::new(alloc);
    for row in rows {
        copy.push(Row {
            key: row.key.copy()?,
            value: row.value.copy()?,
        })?;
    }
    Ok(copy)
}

/// An equal list of bytes.
pub fn copy_bytes(alloc: Global, bytes: &[u8]) -> Result<Bytes, AllocError>
    ensures { IfOk result (λ copy. copy ≡ bytes.now) }
{
    Ok(Bytes::of(Vec::from_slice(alloc, bytes)?))
}
