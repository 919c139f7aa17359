//! The records at some number of installs.
ghost use Rattle.std.specs.Prelude.{◌≡◌, IfOk, reverse};
ghost use Rattle.co_state.specs.Effects.{records_from};
ghost use Rattle.co_state.specs.EngineState.{records_at};

use crate::engine_state::Install;
use co_base::Row;
use co_serial::RecordMap;
use std::alloc::{AllocError, Global};

/// The records of these rows. Of two rows of one key the first counts.
pub fn records_from(alloc: Global, mut rows: Vec<Row>) -> Result<RecordMap, AllocError>
    ensures { IfOk result (λ records. records ≡ records_from rows.items) }
{
    let mut records = RecordMap::new(alloc);
    while let Some(row) = rows.pop() {
        records.set(row.key, row.value)?;
    }
    Ok(records)
}

/// Equal records.
pub fn copy_records(alloc: Global, records: &RecordMap) -> Result<RecordMap, AllocError>
    ensures { IfOk result (λ copy. copy ≡ records.now) }
{
    let rows = records.rows(alloc)?;
    records_from(alloc, rows.into_vec())
}

/// The first so many installs laid over the base.
pub fn records_at(
    alloc: Global,
    base: &RecordMap,
    oldest_first: &[Install],
    count: u64,
) -> Result<RecordMap, AllocError>
    ensures { IfOk result (λ records. records ≡ records_at base.now (reverse oldest_first.now) count) }
{
    let mut records = copy_records(alloc, base)?;
    for (place, install) in oldest_first.iter().enumerate() {
        if count <= place as u64 {
            return Ok(records);
        }
        records.lay(install.writes.as_slice())?;
    }
    Ok(records)
}
