//! The text of durable records.
ghost use Rattle.std.specs.Prelude.{◌≡◌, ◌++◌, ◌≤◌, ℕ, List, Some, take, OnOk, OnErr, IsErrOf};
ghost use Rattle.co_outside.specs.Faults.{HasRisen};
ghost use Rattle.co_serial.specs.RecordText.{records_text};

use co_outside::{Sink, SinkFault, put_all};
use co_serial::{MemberRow, append_record};
use std::alloc::{AllocError, Global};

/// How many bytes of text are put at once, but for the last line of them.
const PIECE: usize = 65_536;

/// Puts the text where a whole piece has come together, and leaves nothing of it then.
///
/// `Failed` comes where the sink failed and its count of faults rose, and only there; `Memory` where there was
/// none. With either fault the sink took a front of the text.
fn put_piece<K: Sink>(alloc: Global, out: &mut K, text: &mut Vec<u8>) -> Result<(), SinkFault>
    ensures put { (held : List ℕ) → K.told out.old ≡ Some held → OnOk result ((more : List ℕ) × (K.told out.new ≡ Some (held ++ more)) × (more ++ text.new.items ≡ text.old.items)) }
    ensures front { (held : List ℕ) → K.told out.old ≡ Some held → OnErr result ((count : ℕ) × (K.told out.new ≡ Some (held ++ take count text.old.items))) }
    ensures counts { K.faults out.old ≤ K.faults out.new }
    ensures failed { IsErrOf result SinkFault.Failed → HasRisen (K.faults out.old) (K.faults out.new) }
    ensures quiet { (IsErrOf result SinkFault.Failed → ⊥) → K.faults out.new ≡ K.faults out.old }
{
    if text.len() < PIECE {
        return Ok(());
    }
    put_all(alloc, out, text.as_slice())?;
    text.clear();
    Ok(())
}

/// Puts the lines of these records, `NODE KEY VALUE` each, a piece of them at a time.
///
/// `Failed` comes where the sink failed and its count of faults rose, and only there; `Memory` where there was
/// none. With either fault the sink took a front of the text.
pub fn put_records<K: Sink>(alloc: Global, out: &mut K, rows: &[MemberRow]) -> Result<(), SinkFault>
    ensures put { (held : List ℕ) → K.told out.old ≡ Some held → OnOk result (K.told out.new ≡ Some (held ++ records_text rows.now)) }
    ensures front { (held : List ℕ) → K.told out.old ≡ Some held → OnErr result ((count : ℕ) × (K.told out.new ≡ Some (held ++ take count (records_text rows.now)))) }
    ensures counts { K.faults out.old ≤ K.faults out.new }
    ensures failed { IsErrOf result SinkFault.Failed → HasRisen (K.faults out.old) (K.faults out.new) }
    ensures quiet { (IsErrOf result SinkFault.Failed → ⊥) → K.faults out.new ≡ K.faults out.old }
{
    let mut text = Vec::new(alloc);
    for row in rows {
        append_record(&mut text, row.member, &row.row)?;
        put_piece(alloc, out, &mut text)?;
    }
    put_all(alloc, out, text.as_slice())
}
