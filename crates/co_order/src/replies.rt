//! What replies tell of a record.
use co_base::{Key, Op, Reply, Row, Value};
use co_check::Answered;
use co_order_check::RecordId;
use std::alloc::AllocError;

/// The row of a key, of rows in the order of their keys.
pub(crate) fn row_of<'a>(rows: &'a [Row], key: &Key) -> Option<&'a Row> {
    match rows.binary_search_by(|row| row.key.cmp(key)) {
        Ok(place) => rows.get(place),
        Err(_) => None,
    }
}

/// What an operation was told of a record that it reads.
pub(crate) fn value_told(
    record: &RecordId,
    operation: &Answered,
) -> Result<Option<Value>, AllocError> {
    match &operation.reply {
        Reply::Got(Some(value)) => Ok(Some(value.copy()?)),
        Reply::Rows(rows) => match row_of(rows.as_slice(), &record.key) {
            Some(row) => Ok(Some(row.value.copy()?)),
            None => Ok(None),
        },
        _ => Ok(None),
    }
}

/// The last value that operations left in a record.
pub(crate) fn value_left(
    record: &RecordId,
    told: &[Answered],
) -> Result<Option<Value>, AllocError> {
    let mut left = None;
    for operation in told {
        match &operation.site.op {
            Op::Write(key, value) => {
                if record.is(operation.site.member, key) {
                    left = Some(value.copy()?);
                }
            }
            Op::Erase(key) => {
                if record.is(operation.site.member, key) {
                    left = None;
                }
            }
            _ => {}
        }
    }
    Ok(left)
}

/// The operations before a place.
pub(crate) fn before(told: &[Answered], place: usize) -> &[Answered] {
    if place <= told.len() {
        &told[..place]
    } else {
        told
    }
}
