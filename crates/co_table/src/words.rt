//! What a table says of each item.
ghost use Rattle.std.specs.Prelude.{◌≡◌, ◌++◌, ◌∷◌, [], OnOk, IfOk, codes, decimal};
ghost use Rattle.co_picture.specs.Lanes.{receiver};
ghost use Rattle.co_schedule.specs.Spelling.{node_word};
ghost use Rattle.co_schedule.specs.Words.{behind};
ghost use Rattle.co_table.specs.Entry.{escaped, escaped_letter, arrow, brief_words, words_as, words_of};
ghost use Rattle.co_transcript.specs.Spelling.{mark_word};

use co_base::{Bytes, Mark, MarkKind, Sequence, Txn};
use co_message::{Item, ItemKind, Message};
use co_picture::{line_of, receiver, told_of};
use co_schedule::{append_event, append_head, append_node, append_number, append_word};
use co_transcript::put_item;
use std::alloc::{AllocError, Global};

/// Appends a letter as a cell has it: a bar would end the cell.
fn append_letter(into: &mut Vec<u8>, letter: u8) -> Result<(), AllocError>
    ensures { OnOk result (into.new.items ≡ into.old.items ++ escaped_letter letter) }
{
    if letter == b'|' {
        return into.extend_from_slice(b"\\|");
    }
    into.push(letter)?;
    Ok(())
}

/// Appends a text as a cell has it.
fn append_escaped(into: &mut Vec<u8>, text: &[u8]) -> Result<(), AllocError>
    ensures { OnOk result (into.new.items ≡ into.old.items ++ escaped text.now) }
{
    for letter in text {
        append_letter(into, *letter)?;
    }
    Ok(())
}

/// The word of a kind of records.
fn mark_word(kind: MarkKind) -> &'static [u8]
    ensures { result.now ≡ mark_word kind }
{
    match kind {
        MarkKind::Header => b"header",
        MarkKind::Prepare => b"prepare",
        MarkKind::Commit => b"commit",
        MarkKind::Abort => b"abort",
        MarkKind::End => b"end",
        MarkKind::Checkpoint => b"checkpoint",
    }
}

/// Appends what a record is.
fn append_mark(into: &mut Vec<u8>, mark: &Mark) -> Result<(), AllocError>
    ensures { OnOk result (into.new.items ≡ into.old.items ++ (codes "log" ++ behind (mark_word mark.now.kind ∷ decimal mark.now.number ∷ []))) }
{
    into.extend_from_slice(b"log")?;
    append_word(into, mark_word(mark.kind))?;
    append_number(into, u64::from(mark.number))
}

/// Appends a word and the number of a transaction.
fn append_of(into: &mut Vec<u8>, word: &[u8], txn: Txn) -> Result<(), AllocError>
    ensures { OnOk result (into.new.items ≡ into.old.items ++ behind (word.now ∷ decimal txn ∷ [])) }
{
    append_word(into, word)?;
    append_number(into, u64::from(txn.0))
}

/// Appends the words of a message but its sender and its receiver.
fn append_brief(into: &mut Vec<u8>, message: &Message) -> Result<(), AllocError>
    ensures { OnOk result (into.new.items ≡ into.old.items ++ behind (brief_words message.now)) }
{
    match *message {
        Message::Prepare { txn, count, .. } => {
            append_of(into, b"prepare", txn)?;
            append_number(into, u64::from(count))
        }
        Message::Vote { txn, yes, .. } => {
            append_of(into, b"vote", txn)?;
            append_word(into, if yes { b"yes" } else { b"no" })
        }
        Message::Decide { txn, commit, .. } => {
            append_of(into, b"decide", txn)?;
            append_word(into, if commit { b"commit" } else { b"abort" })
        }
        Message::Ask { txn, .. } => append_of(into, b"ask", txn),
        Message::Ack { txn, .. } => append_of(into, b"ack", txn),
    }
}

/// Appends what is sent, behind an arrow, and to whom.
fn append_sent(into: &mut Vec<u8>, message: &Message) -> Result<(), AllocError>
    ensures { OnOk result (into.new.items ≡ into.old.items ++ (arrow ++ behind (node_word (receiver message.now) ∷ brief_words message.now))) }
{
    into.extend_from_slice(b"\xE2\x86\x92")?;
    append_node(into, receiver(*message))?;
    append_brief(into, message)
}

/// Appends what is answered.
fn append_answer(into: &mut Vec<u8>, told: &[u8]) -> Result<(), AllocError>
    ensures { OnOk result (into.new.items ≡ into.old.items ++ (codes "**" ++ (told.now ++ codes "**"))) }
{
    into.extend_from_slice(b"**")?;
    into.extend_from_slice(told)?;
    into.extend_from_slice(b"**")
}

/// Appends the words of an item, which has this line.
fn append_words(into: &mut Vec<u8>, line: &[u8], what: &ItemKind) -> Result<(), AllocError>
    ensures { OnOk result (into.new.items ≡ into.old.items ++ words_as line.now what.now) }
{
    match what {
        ItemKind::Head(head) => {
            into.push(b'`')?;
            append_head(into, head)?;
            into.extend_from_slice(b"`")
        }
        ItemKind::Event(event) => {
            into.push(b'`')?;
            append_event(into, event)?;
            into.extend_from_slice(b"`")
        }
        ItemKind::Log(mark) => append_mark(into, mark),
        ItemKind::Sent(message) => append_sent(into, message),
        ItemKind::Answered(_) => append_answer(into, told_of(line, what)),
    }
}

/// What a table says of an item.
pub(crate) fn text_of(alloc: Global, item: &Item) -> Result<Bytes, AllocError>
    ensures { IfOk result (λ text. text ≡ escaped (words_of item.now)) }
{
    let mut line = Vec::new(alloc);
    put_item(item, &mut line)?;
    let mut words = Vec::new(alloc);
    append_words(&mut words, line_of(&line, item), &item.what)?;
    let mut text = Vec::new(alloc);
    append_escaped(&mut text, &words)?;
    Ok(Sequence::of(text))
}
