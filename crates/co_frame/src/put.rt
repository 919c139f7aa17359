//! Batches as they are written.
ghost use Rattle.std.specs.Prelude.{◌≡◌, ◌≤◌, ℕ, [], ◌∷◌, ◌++◌, List, length, OnOk, OnErr};
ghost use Rattle.co_frame.specs.LogText.{batch_text, closed_gate};

use crate::batches::CLOSED_GATE;
use std::alloc::AllocError;

/// Appends a batch of these records: their length, the records, and a closed gate. There are 1 to
/// 268,435,450 bytes of records. After want of memory the list begins with what it held.
pub fn put_batch(records: &[u8], into: &mut Vec<u8>) -> Result<(), AllocError>
    requires some { 1 ≤ length records.now }
    requires most { length records.now ≤ 268435450 }
    ensures ok { OnOk result (into.new.items ≡ into.old.items ++ (batch_text records.now ++ closed_gate ∷ [])) }
    ensures err { OnErr result ((more : List ℕ) × (into.new.items ≡ into.old.items ++ more)) }
{
    into.extend_from_slice(&(records.len() as u32).to_be_bytes())?;
    into.extend_from_slice(records)?;
    into.push(CLOSED_GATE)?;
    Ok(())
}
