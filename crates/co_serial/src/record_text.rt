//! The text of records.
ghost use Rattle.std.specs.Prelude.{◌≡◌, ◌++◌, OnOk, OnErr};
ghost use Rattle.co_base.specs.Lent.{Begins};
ghost use Rattle.co_serial.specs.RecordText.{record_line};

use co_base::Row;
use itoa::Buffer;
use std::alloc::AllocError;

/// Appends the line of a record: the member, the key and the value. After want of memory the list begins with what it held.
pub fn append_record(into: &mut Vec<u8>, member: u8, row: &Row) -> Result<(), AllocError>
    ensures ok { OnOk result (into.new.items ≡ into.old.items ++ record_line (record { member = member; row = row.now })) }
    ensures err { OnErr result (Begins into.old.items into.new.items) }
{
    into.push(b'm')?;
    into.extend_from_slice(Buffer::new().format(member).as_bytes())?;
    into.push(b' ')?;
    into.extend_from_slice(row.key.text())?;
    into.push(b' ')?;
    into.extend_from_slice(row.value.text())?;
    into.push(b'\n')?;
    Ok(())
}
