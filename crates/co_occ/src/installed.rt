//! The records of all installs.
ghost use Rattle.std.specs.Prelude.{◌≡◌, IfOk, OnOk};
ghost use Rattle.co_serial.specs.Records.{with_change, with_changes};
ghost use Rattle.co_state.specs.Effects.{records_from};

use co_base::{Row, Value, Written};
use co_index::KeyMap;
use std::alloc::{AllocError, Global};

/// The records of these rows. Of two rows of one key the first counts.
pub fn records_of(alloc: Global, mut rows: Vec<Row>) -> Result<KeyMap<Value>, AllocError>
    ensures { IfOk result (λ records. records ≡ records_from rows.items) }
{
    let mut records = KeyMap::new(alloc);
    while let Some(row) = rows.pop() {
        records.insert(row.key, row.value)?;
    }
    Ok(records)
}

/// Makes one change: a value is laid in, and no value takes the record away.
fn make_change(records: &mut KeyMap<Value>, change: &Written) -> Result<(), AllocError>
    ensures { OnOk result (records.new ≡ with_change records.old change.now.key change.now.value) }
{
    match &change.value {
        Some(value) => records.insert(change.key.copy()?, value.copy()?),
        None => {
            let _ = records.remove(&change.key);
            Ok(())
        }
    }
}

/// Makes changes one after another, the first one first.
pub fn lay(records: &mut KeyMap<Value>, changes: &[Written]) -> Result<(), AllocError>
    ensures { OnOk result (records.new ≡ with_changes records.old changes.now) }
{
    for change in changes {
        make_change(records, change)?;
    }
    Ok(())
}
