//! Parts of lent records, copied to be kept.
ghost use Rattle.std.specs.Prelude.{◌≡◌, map, IfOk, IfSome, OnOk, option_copied};
ghost use Rattle.std.specs.List.{AllByRecursion};
ghost use Rattle.std.specs.Ordering.{is_gt};
ghost use Rattle.std.specs.Prelude.{false};
ghost use Rattle.co_base.specs.Order.{key_cmp};
ghost use Rattle.co_record.specs.Reading.{span_of, row_of};
ghost use Rattle.co_record.specs.Spelling.{IsKey, IsValue, IsRange, IsRow, IsChange};
ghost use Rattle.co_serial.specs.Records.{with_changes};
ghost use Rattle.co_plain.specs.MemberView.{numbers_from};
ghost use Rattle.co_recover.specs.Locked.{without_value, without_values};

use crate::vote::LentSets;
use co_base::{BaseFault, Key, Range, Ranges, Row, Sequence, Value, Writes, Written};
use co_record::{ChangeWalk, PairWalk, TxnWalk};
use co_serial::RecordMap;
use co_state::{Sets, Table};
use std::alloc::{AllocError, Global};

/// A key of these bytes.
fn key_of(alloc: Global, bytes: &[u8]) -> Result<Key, AllocError>
    requires { IsKey bytes.now }
    ensures { IfOk result (λ key. key ≡ bytes.now) }
{
    match Key::new(alloc, bytes) {
        Ok(key) => Ok(key),
        Err(BaseFault::Memory) => Err(AllocError),
        Err(BaseFault::Length) => unreachable!(),
        Err(BaseFault::Letter) => unreachable!(),
        Err(BaseFault::Order) => unreachable!(),
    }
}

/// A value of these bytes.
fn value_of(alloc: Global, bytes: &[u8]) -> Result<Value, AllocError>
    requires { IsValue bytes.now }
    ensures { IfOk result (λ value. value ≡ bytes.now) }
{
    match Value::new(alloc, bytes) {
        Ok(value) => Ok(value),
        Err(BaseFault::Memory) => Err(AllocError),
        Err(BaseFault::Length) => unreachable!(),
        Err(BaseFault::Letter) => unreachable!(),
        Err(BaseFault::Order) => unreachable!(),
    }
}

/// The range of these bounds.
fn range_of(alloc: Global, lo: &[u8], hi: &[u8]) -> Result<Range, AllocError>
    requires lo { IsKey lo.now }
    requires hi { IsKey hi.now }
    requires order { is_gt (key_cmp lo.now hi.now) ≡ false }
    ensures { IfOk result (λ range. range ≡ span_of (lo.now, hi.now)) }
{
    match Range::new(key_of(alloc, lo)?, key_of(alloc, hi)?) {
        Ok(range) => Ok(range),
        Err(_) => unreachable!(),
    }
}

/// A value of these bytes, where there are any.
fn held_of(alloc: Global, bytes: Option<&[u8]>) -> Result<Option<Value>, AllocError>
    requires { IfSome (option_copied bytes) IsValue }
    ensures { IfOk result (λ value. value ≡ option_copied bytes.entry) }
{
    match bytes {
        None => Ok(None),
        Some(bytes) => Ok(Some(value_of(alloc, bytes)?)),
    }
}

/// The ranges of a lent record.
pub(crate) fn ranges_of(alloc: Global, mut walk: PairWalk<'_>) -> Result<Ranges, AllocError>
    requires { AllByRecursion IsRange (map span_of walk) }
    ensures { IfOk result (λ ranges. ranges ≡ map span_of walk.entry) }
{
    let mut ranges = Ranges::new(alloc);
    while let Some((lo, hi)) = walk.next() {
        ranges.push(range_of(alloc, lo, hi)?)?;
    }
    Ok(ranges)
}

/// The changes of a lent record.
pub(crate) fn writes_of(alloc: Global, mut walk: ChangeWalk<'_>) -> Result<Writes, AllocError>
    requires { AllByRecursion IsChange walk }
    ensures { IfOk result (λ writes. writes ≡ walk.entry) }
{
    let mut writes = Writes::new(alloc);
    while let Some((key, value)) = walk.next() {
        writes.push(Written {
            key: key_of(alloc, key)?,
            value: held_of(alloc, value)?,
        })?;
    }
    Ok(writes)
}

/// The changes of a lent record without their values.
fn changed_keys_of(alloc: Global, mut walk: ChangeWalk<'_>) -> Result<Writes, AllocError>
    requires { AllByRecursion IsChange walk }
    ensures { IfOk result (λ writes. writes ≡ map without_value walk.entry) }
{
    let mut writes = Writes::new(alloc);
    while let Some((key, _)) = walk.next() {
        writes.push(Written {
            key: key_of(alloc, key)?,
            value: None,
        })?;
    }
    Ok(writes)
}

/// What a lent record says was read, and which keys were written. The values stay where they are lent from.
pub(crate) fn touched_of(alloc: Global, sets: &LentSets<'_>) -> Result<Sets, AllocError>
    ensures { IfOk result (λ touched. touched ≡ without_values sets.now) }
{
    let reads = ranges_of(alloc, sets.reads.again())?;
    let writes = changed_keys_of(alloc, sets.writes.again())?;
    Ok(Sets { reads, writes })
}

/// What a lent record says was read and written.
pub(crate) fn sets_of(alloc: Global, sets: &LentSets<'_>) -> Result<Sets, AllocError>
    ensures { IfOk result (λ owned. owned ≡ sets.now) }
{
    Ok(Sets {
        reads: ranges_of(alloc, sets.reads.again())?,
        writes: writes_of(alloc, sets.writes.again())?,
    })
}

/// The rows of a lent checkpoint.
pub(crate) fn rows_of(alloc: Global, mut walk: PairWalk<'_>) -> Result<Vec<Row>, AllocError>
    requires { AllByRecursion IsRow (map row_of walk) }
    ensures { IfOk result (λ rows. rows.items ≡ map row_of walk.entry) }
{
    let mut rows = Sequence::new(alloc);
    while let Some((key, value)) = walk.next() {
        rows.push(Row {
            key: key_of(alloc, key)?,
            value: value_of(alloc, value)?,
        })?;
    }
    Ok(rows.into_vec())
}

/// The set of the committed transactions of a lent checkpoint.
pub(crate) fn numbers_of(alloc: Global, mut walk: TxnWalk<'_>) -> Result<Table<()>, AllocError>
    ensures { IfOk result (λ numbers. numbers ≡ numbers_from walk.entry) }
{
    let mut numbers = Table::new(alloc);
    while let Some(t) = walk.next() {
        numbers.insert(t, ())?;
    }
    Ok(numbers)
}

/// Lays the changes of a lent record over the records.
pub(crate) fn lay(
    alloc: Global,
    records: &mut RecordMap,
    mut walk: ChangeWalk<'_>,
) -> Result<(), AllocError>
    requires { AllByRecursion IsChange walk }
    ensures { OnOk result (records.new ≡ with_changes records.old walk.entry) }
{
    while let Some((key, value)) = walk.next() {
        let key = key_of(alloc, key)?;
        records.change(key, held_of(alloc, value)?)?;
    }
    Ok(())
}
