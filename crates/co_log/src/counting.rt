//! Lists that are too long for their records.
ghost use Rattle.std.specs.Prelude.{◌≡◌, ◌<◌, true, false, length};
ghost use Rattle.std.specs.List.{AllByRecursion};
ghost use Rattle.co_base.specs.Limits.{most_log_bytes};
ghost use Rattle.co_record.specs.Format.{newest};
ghost use Rattle.co_record.specs.Spelling.{IsWritable, spelling};
ghost use Rattle.co_log.specs.LogFile.{spelled};
ghost use Rattle.co_log.specs.Spare.{IsFillable};

use co_record::Record;

/// Whether each list of a record has fewer than 4,294,967,296 elements, so that its count can be spelled. Where one has
/// not, its spelling alone is longer than a file.
fn is_counted(item: &Record) -> bool
    requires { IsFillable item.now }
    ensures yes { result ≡ true → IsWritable item.now }
    ensures no { result ≡ false → most_log_bytes < length (spelling newest item.now) }
{
    match item {
        Record::Checkpoint {
            rows,
            undos,
            committed,
        } => {
            let most = u32::MAX as usize;
            let longest = rows.len().max(undos.len()).max(committed.as_slice().len());
            longest <= most
        }
        Record::Header { .. }
        | Record::Prepare { .. }
        | Record::Commit { .. }
        | Record::Abort { .. }
        | Record::End { .. } => true,
    }
}

/// The same for each of these records.
pub(crate) fn are_counted(items: &[Record]) -> bool
    requires { AllByRecursion IsFillable items.now }
    ensures yes { result ≡ true → AllByRecursion IsWritable items.now }
    ensures no { result ≡ false → most_log_bytes < length (spelled items.now) }
{
    for item in items {
        if !is_counted(item) {
            return false;
        }
    }
    true
}
