//! Items as lines.
ghost use Rattle.std.specs.Prelude.{◌≡◌, [], ◌∷◌, ◌++◌, OnOk, OnErr, decimal};
ghost use Rattle.co_base.specs.Lent.{Begins};
ghost use Rattle.co_schedule.specs.Words.{space, behind};
ghost use Rattle.co_schedule.specs.Spelling.{node_word};
ghost use Rattle.co_transcript.specs.Spelling.{mark_word, cause_word, row_words, reply_form, reply_fields, reply_words, answer_form, answer_fields, kind_words, item_text};

use co_base::{Mark, MarkKind, Node, Reply, Row};
use co_message::{Answer, Cause, Item, ItemKind};
use co_schedule::{
    append_event, append_head, append_message, append_node, append_number, append_word,
};
use itoa::Buffer;
use std::alloc::AllocError;

/// The word of the kind of record.
pub fn mark_text(kind: MarkKind) -> &'static [u8]
    ensures { result.now ≡ mark_word kind }
{
    match kind {
        MarkKind::Header => b"header",
        MarkKind::Prepare => b"prepare",
        MarkKind::Commit => b"commit",
        MarkKind::Abort => b"abort",
        MarkKind::End => b"end",
        MarkKind::Checkpoint => b"checkpoint",
    }
}

/// The word of the cause.
pub fn cause_text(cause: Cause) -> &'static [u8]
    ensures { result.now ≡ cause_word cause }
{
    match cause {
        Cause::Vote => b"vote",
        Cause::Timer => b"timer",
        Cause::Client => b"client",
    }
}

fn append_mark(out: &mut Vec<u8>, mark: &Mark) -> Result<(), AllocError>
    ensures ok { OnOk result (out.new.items ≡ out.old.items ++ behind (node_word mark.now.node ∷ mark_word mark.now.kind ∷ decimal mark.now.number ∷ [])) }
    ensures err { OnErr result (Begins out.old.items out.new.items) }
{
    append_node(out, mark.node)?;
    append_word(out, mark_text(mark.kind))?;
    append_number(out, u64::from(mark.number))
}

fn append_rows(out: &mut Vec<u8>, rows: &[Row]) -> Result<(), AllocError>
    ensures ok { OnOk result (out.new.items ≡ out.old.items ++ behind (row_words rows.now)) }
    ensures err { OnErr result (Begins out.old.items out.new.items) }
{
    for row in rows {
        append_word(out, row.key.text())?;
        append_word(out, row.value.text())?;
    }
    Ok(())
}

fn reply_text(reply: &Reply) -> &'static [u8]
    ensures { behind (reply_form reply.now) ≡ space ∷ result.now }
{
    match reply {
        Reply::Got(Some(_)) => b"got",
        Reply::Got(None) => b"missing",
        Reply::Rows(_) => b"rows",
        Reply::Done => b"done",
    }
}

fn append_reply_fields(out: &mut Vec<u8>, reply: &Reply) -> Result<(), AllocError>
    ensures ok { OnOk result (out.new.items ≡ out.old.items ++ behind (reply_fields reply.now)) }
    ensures err { OnErr result (Begins out.old.items out.new.items) }
{
    match reply {
        Reply::Got(Some(value)) => append_word(out, value.text()),
        Reply::Rows(rows) => {
            append_number(out, rows.len() as u64)?;
            append_rows(out, rows.as_slice())
        }
        Reply::Got(None) | Reply::Done => Ok(()),
    }
}

/// Appends a reply as items tell it, each of its words behind a space. After want of memory the list begins with what it held.
pub fn append_reply(out: &mut Vec<u8>, reply: &Reply) -> Result<(), AllocError>
    ensures ok { OnOk result (out.new.items ≡ out.old.items ++ behind (reply_words reply.now)) }
    ensures err { OnErr result (Begins out.old.items out.new.items) }
{
    append_word(out, reply_text(reply))?;
    append_reply_fields(out, reply)
}

fn answer_text(answer: &Answer) -> &'static [u8]
    ensures { behind (answer_form answer.now) ≡ space ∷ result.now }
{
    match answer {
        Answer::Opened => b"open",
        Answer::Begun => b"begun",
        Answer::Replied(reply) => reply_text(reply),
        Answer::Blocked(_) => b"blocked",
        Answer::Gone { .. } => b"gone",
        Answer::TooMany => b"too many",
        Answer::Waiting(_) => b"waiting",
        Answer::Committed => b"committed",
        Answer::Aborted(_) => b"aborted",
        Answer::Decided => b"decided",
        Answer::Ended => b"ended",
        Answer::Idle => b"idle",
        Answer::Unknown => b"unknown",
        Answer::Yes => b"yes",
        Answer::NoLost { .. } => b"no lost",
        Answer::NoStale(_) => b"no stale",
        Answer::Held(_) => b"held",
        Answer::Voted => b"voted",
        Answer::Unasked => b"unasked",
        Answer::Unvoted => b"unvoted",
        Answer::Already => b"already",
        Answer::Absent => b"absent",
        Answer::Installed => b"installed",
        Answer::Dropped => b"dropped",
        Answer::Kept => b"kept",
        Answer::Asking => b"asking",
        Answer::Crashed => b"crashed",
        Answer::Up => b"up",
        Answer::Running => b"running",
        Answer::Armed => b"armed",
        Answer::Closed => b"closed",
        Answer::Filled(_) => b"filled",
        Answer::Stopped(_) => b"stopped",
        Answer::Used => b"used",
        Answer::NotBegun => b"not begun",
        Answer::Asked => b"asked",
        Answer::Unsent => b"unsent",
        Answer::Down(_) => b"down",
    }
}

fn append_answer_fields(out: &mut Vec<u8>, answer: &Answer) -> Result<(), AllocError>
    ensures ok { OnOk result (out.new.items ≡ out.old.items ++ behind (answer_fields answer.now)) }
    ensures err { OnErr result (Begins out.old.items out.new.items) }
{
    match answer {
        Answer::Replied(reply) => append_reply_fields(out, reply),
        Answer::Blocked(txn) | Answer::Held(txn) => append_number(out, u64::from(txn.0)),
        Answer::Gone { kept, carried } | Answer::NoLost { kept, carried } => {
            append_number(out, u64::from(*kept))?;
            append_number(out, u64::from(*carried))
        }
        Answer::Waiting(member) => append_node(out, Node::Member(*member)),
        Answer::Aborted(cause) => append_word(out, cause_text(*cause)),
        Answer::NoStale(key) => append_word(out, key.text()),
        Answer::Filled(generation) => append_number(out, u64::from(*generation)),
        Answer::Stopped(call) => append_number(out, u64::from(*call)),
        Answer::Down(node) => append_node(out, *node),
        _ => Ok(()),
    }
}

fn append_answer(out: &mut Vec<u8>, answer: &Answer) -> Result<(), AllocError>
    ensures ok { OnOk result (out.new.items ≡ out.old.items ++ behind (answer_form answer.now ++ answer_fields answer.now)) }
    ensures err { OnErr result (Begins out.old.items out.new.items) }
{
    append_word(out, answer_text(answer))?;
    append_answer_fields(out, answer)
}

fn append_kind(out: &mut Vec<u8>, what: &ItemKind) -> Result<(), AllocError>
    ensures ok { OnOk result (out.new.items ≡ out.old.items ++ behind (kind_words what.now)) }
    ensures err { OnErr result (Begins out.old.items out.new.items) }
{
    match what {
        ItemKind::Head(head) => {
            out.extend_from_slice(b" event ")?;
            append_head(out, head)
        }
        ItemKind::Event(event) => {
            out.extend_from_slice(b" event ")?;
            append_event(out, event)
        }
        ItemKind::Log(mark) => {
            append_word(out, b"log")?;
            append_mark(out, mark)
        }
        ItemKind::Sent(message) => {
            append_word(out, b"send")?;
            append_message(out, message)
        }
        ItemKind::Answered(answer) => {
            append_word(out, b"reply")?;
            append_answer(out, answer)
        }
    }
}

fn append_item(out: &mut Vec<u8>, item: &Item) -> Result<(), AllocError>
    ensures ok { OnOk result (out.new.items ≡ out.old.items ++ item_text item.now ++ 10 ∷ []) }
    ensures err { OnErr result (Begins out.old.items out.new.items) }
{
    out.extend_from_slice(Buffer::new().format(item.number).as_bytes())?;
    append_kind(out, &item.what)?;
    out.push(b'\n')?;
    Ok(())
}

/// Appends the one line of the item, with its newline. After want of memory nothing is appended.
pub fn put_item(item: &Item, into: &mut Vec<u8>) -> Result<(), AllocError>
    ensures ok { OnOk result (into.new.items ≡ into.old.items ++ item_text item.now ++ 10 ∷ []) }
    ensures err { OnErr result (into.new.items ≡ into.old.items) }
{
    let held = into.len();
    let appended = append_item(into, item);
    if appended.is_err() {
        into.truncate(held);
    }
    appended
}
