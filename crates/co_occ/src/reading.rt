//! What a transaction sees: the installed records with its own changes laid over.
ghost use Rattle.std.specs.Prelude.{◌≡◌, IfOk, OnOk, option_copied};
ghost use Rattle.std.specs.FinMap as map;
ghost use Rattle.co_serial.specs.Records.{all_rows, rows_within, with_changes};
ghost use Rattle.co_occ.specs.Seen.{laid_within};

use co_base::{Key, Range, Value, Written};
use co_index::{KeyMap, value_after};
use co_state::RowList;
use std::alloc::{AllocError, Global};

/// The value at a key, once changes are laid over the records.
pub fn seen_value<'a>(
    records: &'a KeyMap<Value>,
    changes: &'a [Written],
    key: &Key,
) -> Option<&'a Value>
    ensures { option_copied result ≡ map.get (with_changes records.now changes.now) key.now }
{
    value_after(records.get(key), changes, key)
}

/// Lays changes of keys of a range over the records of that range.
fn lay_within(records: &mut RowList, changes: &[Written], range: &Range) -> Result<(), AllocError>
    ensures { OnOk result (records.new ≡ laid_within records.old changes.now range.now) }
{
    for change in changes {
        if range.has(&change.key) {
            let change = change.copy()?;
            records.change(change.key, change.value)?;
        }
    }
    Ok(())
}

/// The records of a range, once changes are laid over.
pub fn records_within(
    alloc: Global,
    installed: &KeyMap<Value>,
    changes: &[Written],
    range: &Range,
) -> Result<RowList, AllocError>
    ensures { IfOk result (λ records. all_rows records ≡ rows_within (with_changes installed.now changes.now) range.now) }
{
    let mut records = RowList::new(alloc);
    for (key, value) in installed.within(range) {
        records.set(key.copy()?, value.copy()?)?;
    }
    lay_within(&mut records, changes, range)?;
    Ok(records)
}

/// All records.
pub fn all_records(alloc: Global, installed: &KeyMap<Value>) -> Result<RowList, AllocError>
    ensures { IfOk result (λ records. records ≡ installed.now) }
{
    let mut records = RowList::new(alloc);
    for (key, value) in installed.iter() {
        records.set(key.copy()?, value.copy()?)?;
    }
    Ok(records)
}
