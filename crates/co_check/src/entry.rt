//! What a line tells: a record, or an item of a transcript.
ghost use Rattle.std.specs.Prelude.{◌≡◌, ◌<◌, length, IfOk, IfSome, IfNone};
ghost use Rattle.co_check.specs.Stages.{IsEntry, entry_text};
ghost use Rattle.co_check.specs.declared.entry.Entry.{Entry};

use crate::starting::read_record;
use co_message::Item;
use co_serial::MemberRow;
use co_transcript::{ItemFault, read_item};
use std::alloc::{AllocError, Global};

/// What a line tells.
#[derive(Drop)]
pub enum Entry {
    /// A record from which a run started.
    Record(MemberRow),
    /// An item of its transcript.
    Item(Item),
}

/// Reads a line, without its newline; none comes exactly where it is the line of no record and of no item.
pub(crate) fn read_entry(alloc: Global, line: &[u8]) -> Result<Option<Entry>, AllocError>
    requires { length line.now < 4294967296 }
    ensures found { IfOk result (λ found. IfSome found (λ e. IsEntry e × (line.now ≡ entry_text e))) }
    ensures none { IfOk result (λ found. IfNone found ((e : Entry) → IsEntry e → line.now ≡ entry_text e → ⊥)) }
{
    match read_item(alloc, line) {
        Ok(item) => Ok(Some(Entry::Item(item))),
        Err(ItemFault::Text { at: _ }) => match read_record(alloc, line)? {
            Some(row) => Ok(Some(Entry::Record(row))),
            None => Ok(None),
        },
        Err(ItemFault::Memory) => Err(AllocError),
    }
}
