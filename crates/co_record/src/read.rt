//! Reading the record at the front of some bytes.
ghost use Rattle.std.specs.Prelude.{◌≡◌, ◌≤◌, ◌++◌, List, ℕ, length, IfOk, Ok};
ghost use Rattle.co_base.specs.Limits.{most_log_bytes};
ghost use Rattle.co_record.specs.declared.record.Record.{Record};
ghost use Rattle.co_record.specs.Lent.{record_of, reading, Shows, StandsAt};
ghost use Rattle.co_record.specs.Slices.{AreSlicesOf, keys_and_values};
ghost use Rattle.co_record.specs.Format.{IsVersion};
ghost use Rattle.co_record.specs.Spelling.{spelling, IsSpelledIn};

use crate::fault::RecordFault;
use crate::miss::Miss;
use crate::part::read_any;
use crate::view::RecordView;

/// The place of a fault in so many bytes.
fn fault_of(length: usize, miss: Miss) -> RecordFault
    requires { length ≤ most_log_bytes }
    ensures { result ≡ Rattle.co_record.specs.Lent.fault_of length miss }
{
    match miss {
        Miss::Short => RecordFault::Short,
        Miss::Kind => RecordFault::Kind,
        Miss::Outside { left } => RecordFault::Field {
            at: length.saturating_sub(left) as u32,
        },
    }
}

/// The record of this version, 1 or 2, at the front of these bytes, lent from them, and how many bytes it takes. There are at most
/// 268,435,456 bytes, and others may stand behind it. Takes no memory.
///
/// Fields are read from the left. `Short` comes exactly where the bytes end before the record does and
/// every field and element that is whole is in its set, `Kind` exactly where the first byte is no kind,
/// and `Field` exactly where a field or element behind the kind is whole and outside its set.
pub fn read_record(bytes: &[u8], version: u8) -> Result<(RecordView<'_>, u32), RecordFault>
    requires version { IsVersion version }
    requires most { length bytes.now ≤ most_log_bytes }
    // What is read stands there, each byte of it.
    ensures found { IfOk result (λ shown. StandsAt version bytes.now (record_of shown.0) shown.1) }
    // Each key and each value of it is the slice of these bytes at its span.
    ensures slices { IfOk result (λ shown. AreSlicesOf bytes.now (keys_and_values (record_of shown.0))) }
    // What stands there is read.
    ensures only { (item : Record) (rest : List ℕ) → IsSpelledIn version item → bytes.now ≡ spelling version item ++ rest → Shows result (Ok (item, length (spelling version item))) }
    // Else it is the first fault from the left.
    ensures exact { Shows result (reading version bytes.now) }
{
    match read_any(version, bytes) {
        Ok((view, rest)) => Ok((view, (bytes.len() - rest.len()) as u32)),
        Err(miss) => Err(fault_of(bytes.len(), miss)),
    }
}
