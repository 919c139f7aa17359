//! The text of a verdict.
ghost use Rattle.std.specs.Prelude.{◌≡◌, ◌++◌, OnOk, OnErr};
ghost use Rattle.co_base.specs.Lent.{Begins};
ghost use Rattle.co_base.specs.Limits.{most_members};
ghost use Rattle.co_serial.specs.MemberRows.{member_rows, numbered_rows};
ghost use Rattle.co_serial.specs.RecordText.{records_text};
ghost use Rattle.co_serial.specs.Family.{family_of};
ghost use Rattle.co_check.specs.Text.{serial_text, differs_text, reply_line, reasons_text, told_in};

use crate::verdict::Verdict;
use co_base::{MOST_MEMBERS, Reply, Row};
use co_schedule::append_number;
use co_serial::{SerialMap, append_record};
use co_transcript::append_reply;
use std::alloc::AllocError;

/// Appends the lines of the records of a member.
fn append_rows(into: &mut Vec<u8>, member: u8, rows: &[Row]) -> Result<(), AllocError>
    ensures ok { OnOk result (into.new.items ≡ into.old.items ++ records_text (member_rows member rows.now)) }
    ensures err { OnErr result (Begins into.old.items into.new.items) }
{
    for row in rows {
        append_record(into, member, row)?;
    }
    Ok(())
}

/// Appends the lines of the records of all members.
fn append_map(into: &mut Vec<u8>, map: &SerialMap) -> Result<(), AllocError>
    ensures ok { OnOk result (into.new.items ≡ into.old.items ++ records_text (numbered_rows (family_of map.now) 1 most_members)) }
    ensures err { OnErr result (Begins into.old.items into.new.items) }
{
    for member in 1..MOST_MEMBERS + 1 {
        let rows = map.rows(member)?;
        append_rows(into, member, rows.as_slice())?;
    }
    Ok(())
}

/// Appends what is told of a serial transcript.
fn append_serial(into: &mut Vec<u8>, transactions: u32, map: &SerialMap) -> Result<(), AllocError>
    ensures ok { OnOk result (into.new.items ≡ into.old.items ++ serial_text transactions map.now) }
    ensures err { OnErr result (Begins into.old.items into.new.items) }
{
    into.extend_from_slice(b"serial")?;
    append_number(into, u64::from(transactions))?;
    into.push(b'\n')?;
    append_map(into, map)
}

/// Appends what is told of a transcript that is not serial.
fn append_difference(into: &mut Vec<u8>, txn: u32, line: u32) -> Result<(), AllocError>
    ensures ok { OnOk result (into.new.items ≡ into.old.items ++ differs_text txn line) }
    ensures err { OnErr result (Begins into.old.items into.new.items) }
{
    into.extend_from_slice(b"not serial")?;
    append_number(into, u64::from(txn))?;
    append_number(into, u64::from(line))?;
    into.push(b'\n')?;
    Ok(())
}

/// How much is told of a transcript that is not serial.
#[derive(Clone, Copy)]
pub enum Detail {
    /// The transaction and the line.
    Verdict,
    /// And what it was answered there, and what the serial run answers.
    Reasons,
}

/// Appends a word and behind it a reply, as a line.
fn append_reply_line(into: &mut Vec<u8>, word: &[u8], reply: &Reply) -> Result<(), AllocError>
    ensures ok { OnOk result (into.new.items ≡ into.old.items ++ reply_line word.now reply.now) }
    ensures err { OnErr result (Begins into.old.items into.new.items) }
{
    into.extend_from_slice(word)?;
    append_reply(into, reply)?;
    into.push(b'\n')?;
    Ok(())
}

/// Appends what the transaction was answered, and what the serial run answers.
fn append_reasons(into: &mut Vec<u8>, told: &Reply, serial: &Reply) -> Result<(), AllocError>
    ensures ok { OnOk result (into.new.items ≡ into.old.items ++ reasons_text told.now serial.now) }
    ensures err { OnErr result (Begins into.old.items into.new.items) }
{
    append_reply_line(into, b"told", told)?;
    append_reply_line(into, b"serial", serial)
}

/// Appends the text of a verdict: `serial N` and the records that the serial run leaves, a line `NODE KEY VALUE` each, members ascending and
/// the keys of each ascending; or `not serial T LINE`, and for the reasons the lines `told REPLY` and `serial REPLY`. N is how many
/// transactions are committed. After want of memory the list begins with what it held.
pub fn put_verdict(detail: Detail, verdict: &Verdict, into: &mut Vec<u8>) -> Result<(), AllocError>
    ensures ok { OnOk result (into.new.items ≡ into.old.items ++ told_in detail verdict.now) }
    ensures err { OnErr result (Begins into.old.items into.new.items) }
{
    match (verdict, detail) {
        (Verdict::Serial { transactions, map }, _) => append_serial(into, *transactions, map),
        (Verdict::Differs { txn, line, .. }, Detail::Verdict) => {
            append_difference(into, txn.0, *line)
        }
        (
            Verdict::Differs {
                txn,
                line,
                told,
                serial,
            },
            Detail::Reasons,
        ) => {
            append_difference(into, txn.0, *line)?;
            append_reasons(into, told, serial)
        }
    }
}
