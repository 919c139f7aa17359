//! The records from which a resumed run started, line by line.
ghost use Rattle.std.specs.Prelude.{◌≡◌, IfOk, IfErr, IfSome, IfNone};
ghost use Rattle.co_schedule.specs.Faults.{IsFirstFault};
ghost use Rattle.co_serial.specs.declared.member_row.MemberRow.{MemberRow};
ghost use Rattle.co_check.specs.Starts.{IsRecord, record_words, record_text, record_places, is_behind};

use co_base::{Key, MOST_MEMBERS, Row};
use co_schedule::{ReadFault, Words, key_of, value_of};
use co_serial::MemberRow;
use std::alloc::{AllocError, Global};

/// Which record it is.
#[derive(Drop)]
pub struct RecordName {
    /// The member that has it.
    pub member: u8,
    /// Its key.
    pub key: Key,
}

/// Reads the words of a record.
fn read_fields(alloc: Global, words: &mut Words<'_>) -> Result<MemberRow, ReadFault>
    ensures found { IfOk result (λ row. IsRecord row × (words.old ≡ record_words row)) }
    ensures fault { IfErr result (IsFirstFault record_places words.old) }
{
    let member = words.member(MOST_MEMBERS)?;
    let key = words.key()?;
    let value = words.value()?;
    words.end()?;
    let key = key_of(alloc, key)?;
    let value = value_of(alloc, value)?;
    Ok(MemberRow {
        member,
        row: Row { key, value },
    })
}

/// Reads a line, without its newline, as a record; none comes exactly where it is the line of no record.
pub(crate) fn read_record(alloc: Global, line: &[u8]) -> Result<Option<MemberRow>, AllocError>
    ensures found { IfOk result (λ found. IfSome found (λ row. IsRecord row × (line.now ≡ record_text row))) }
    ensures none { IfOk result (λ found. IfNone found ((row : MemberRow) → IsRecord row → line.now ≡ record_text row → ⊥)) }
{
    let mut words = Words::of(line);
    match read_fields(alloc, &mut words) {
        Ok(row) => Ok(Some(row)),
        Err(ReadFault::Mistake(_)) => Ok(None),
        Err(ReadFault::Memory) => Err(AllocError),
    }
}

/// Whether a record stands behind the last one, if there is one: members ascend, and the keys of each.
pub(crate) fn is_behind(last: &Option<RecordName>, row: &MemberRow) -> bool
    ensures { result ≡ is_behind last.now row.now }
{
    match last {
        Some(last) => {
            last.member < row.member || last.member == row.member && last.key < row.row.key
        }
        None => true,
    }
}
