//! Events as lines.
ghost use Rattle.std.specs.Prelude.{◌≡◌, ◌<◌, ◌≤◌, [], ◌∷◌, map, ◌++◌, ◌⊎◌, length, OnOk, OnErr, IfErr, IsErrOf, decimal, codes};
ghost use Rattle.co_base.specs.Lent.{Begins};
ghost use Rattle.co_message.specs.declared.message.Message.TheVariants as message;
ghost use Rattle.co_schedule.specs.Limits.{longest_line};
ghost use Rattle.co_schedule.specs.Words.{space, behind, spaced};
ghost use Rattle.co_schedule.specs.Spelling.{member_word, coord_word, node_word, leaves_word, message_words, event_words, line_text, head_text, kind_word};

use crate::fault::LineFault;
use co_base::{Head, Kind, Leaves, Node, Txn};
use co_message::{Event, Message};
use itoa::Buffer;
use std::alloc::AllocError;

/// Appends a space and the word. After want of memory the list begins with what it held.
pub fn append_word(out: &mut Vec<u8>, word: &[u8]) -> Result<(), AllocError>
    ensures ok { OnOk result (out.new.items ≡ out.old.items ++ space ∷ word.now) }
    ensures err { OnErr result (Begins out.old.items out.new.items) }
{
    out.push(b' ')?;
    out.extend_from_slice(word)
}

/// Appends a space and the number. After want of memory the list begins with what it held.
pub fn append_number(out: &mut Vec<u8>, number: u64) -> Result<(), AllocError>
    ensures ok { OnOk result (out.new.items ≡ out.old.items ++ space ∷ decimal number) }
    ensures err { OnErr result (Begins out.old.items out.new.items) }
{
    append_word(out, Buffer::new().format(number).as_bytes())
}

fn append_named(out: &mut Vec<u8>, letter: u8, number: u8) -> Result<(), AllocError>
    ensures ok { OnOk result (out.new.items ≡ out.old.items ++ space ∷ letter ∷ decimal number) }
    ensures err { OnErr result (Begins out.old.items out.new.items) }
{
    out.push(b' ')?;
    out.push(letter)?;
    out.extend_from_slice(Buffer::new().format(number).as_bytes())
}

fn append_member(out: &mut Vec<u8>, number: u8) -> Result<(), AllocError>
    ensures ok { OnOk result (out.new.items ≡ out.old.items ++ space ∷ member_word number) }
    ensures err { OnErr result (Begins out.old.items out.new.items) }
{
    append_named(out, b'm', number)
}

fn append_coord(out: &mut Vec<u8>, number: u8) -> Result<(), AllocError>
    ensures ok { OnOk result (out.new.items ≡ out.old.items ++ space ∷ coord_word number) }
    ensures err { OnErr result (Begins out.old.items out.new.items) }
{
    append_named(out, b'c', number)
}

/// Appends a space and the name of the node. After want of memory the list begins with what it held.
pub fn append_node(out: &mut Vec<u8>, node: Node) -> Result<(), AllocError>
    ensures ok { OnOk result (out.new.items ≡ out.old.items ++ space ∷ node_word node) }
    ensures err { OnErr result (Begins out.old.items out.new.items) }
{
    match node {
        Node::Member(number) => append_member(out, number),
        Node::Coord(number) => append_coord(out, number),
    }
}

fn append_leaves(out: &mut Vec<u8>, leaves: &Leaves) -> Result<(), AllocError>
    ensures ok { OnOk result (out.new.items ≡ out.old.items ++ space ∷ leaves_word leaves.now) }
    ensures err { OnErr result (Begins out.old.items out.new.items) }
{
    match leaves {
        Leaves::Old => append_word(out, b"old"),
        Leaves::New => append_word(out, b"new"),
        Leaves::Filled(bytes) => {
            append_word(out, b"x")?;
            let digits = hex::encode(*out.allocator(), bytes.as_slice())?;
            out.extend_from_slice(digits.as_bytes())
        }
    }
}

fn append_at_member(out: &mut Vec<u8>, form: &[u8], txn: Txn, member: u8) -> Result<(), AllocError>
    ensures ok { OnOk result (out.new.items ≡ out.old.items ++ spaced (form.now ∷ decimal txn ∷ member_word member ∷ [])) }
    ensures err { OnErr result (Begins out.old.items out.new.items) }
{
    out.extend_from_slice(form)?;
    append_number(out, u64::from(txn.0))?;
    append_member(out, member)
}

fn append_at_coord(out: &mut Vec<u8>, form: &[u8], txn: Txn, coord: u8) -> Result<(), AllocError>
    ensures ok { OnOk result (out.new.items ≡ out.old.items ++ spaced (form.now ∷ decimal txn ∷ coord_word coord ∷ [])) }
    ensures err { OnErr result (Begins out.old.items out.new.items) }
{
    out.extend_from_slice(form)?;
    append_number(out, u64::from(txn.0))?;
    append_coord(out, coord)
}

fn append_of_txn(out: &mut Vec<u8>, form: &[u8], txn: Txn) -> Result<(), AllocError>
    ensures ok { OnOk result (out.new.items ≡ out.old.items ++ spaced (form.now ∷ decimal txn ∷ [])) }
    ensures err { OnErr result (Begins out.old.items out.new.items) }
{
    out.extend_from_slice(form)?;
    append_number(out, u64::from(txn.0))
}

fn append_of_node(out: &mut Vec<u8>, form: &[u8], node: Node) -> Result<(), AllocError>
    ensures ok { OnOk result (out.new.items ≡ out.old.items ++ spaced (form.now ∷ node_word node ∷ [])) }
    ensures err { OnErr result (Begins out.old.items out.new.items) }
{
    out.extend_from_slice(form)?;
    append_node(out, node)
}

fn append_from_coord(
    out: &mut Vec<u8>,
    form: &[u8],
    txn: Txn,
    coord: u8,
    member: u8,
) -> Result<(), AllocError>
    ensures ok { OnOk result (out.new.items ≡ out.old.items ++ behind (form.now ∷ decimal txn ∷ coord_word coord ∷ member_word member ∷ [])) }
    ensures err { OnErr result (Begins out.old.items out.new.items) }
{
    append_word(out, form)?;
    append_number(out, u64::from(txn.0))?;
    append_coord(out, coord)?;
    append_member(out, member)
}

fn append_from_member(
    out: &mut Vec<u8>,
    form: &[u8],
    txn: Txn,
    member: u8,
    coord: u8,
) -> Result<(), AllocError>
    ensures ok { OnOk result (out.new.items ≡ out.old.items ++ behind (form.now ∷ decimal txn ∷ member_word member ∷ coord_word coord ∷ [])) }
    ensures err { OnErr result (Begins out.old.items out.new.items) }
{
    append_word(out, form)?;
    append_number(out, u64::from(txn.0))?;
    append_member(out, member)?;
    append_coord(out, coord)
}

fn append_prepare(
    out: &mut Vec<u8>,
    txn: Txn,
    coord: u8,
    member: u8,
    count: u16,
) -> Result<(), AllocError>
    ensures ok { OnOk result (out.new.items ≡ out.old.items ++ behind (message_words (message.Prepare txn coord member count))) }
    ensures err { OnErr result (Begins out.old.items out.new.items) }
{
    append_from_coord(out, b"prepare", txn, coord, member)?;
    append_number(out, u64::from(count))
}

fn append_vote(
    out: &mut Vec<u8>,
    txn: Txn,
    member: u8,
    coord: u8,
    yes: bool,
) -> Result<(), AllocError>
    ensures ok { OnOk result (out.new.items ≡ out.old.items ++ behind (message_words (message.Vote txn member coord yes))) }
    ensures err { OnErr result (Begins out.old.items out.new.items) }
{
    append_from_member(out, b"vote", txn, member, coord)?;
    append_word(out, if yes { b"yes" } else { b"no" })
}

fn append_decision(
    out: &mut Vec<u8>,
    txn: Txn,
    coord: u8,
    member: u8,
    commit: bool,
) -> Result<(), AllocError>
    ensures ok { OnOk result (out.new.items ≡ out.old.items ++ behind (message_words (message.Decide txn coord member commit))) }
    ensures err { OnErr result (Begins out.old.items out.new.items) }
{
    append_from_coord(out, b"decide", txn, coord, member)?;
    append_word(out, if commit { b"commit" } else { b"abort" })
}

/// Appends the words of the message, each behind a space. After want of memory the list begins with what it held.
pub fn append_message(out: &mut Vec<u8>, message: &Message) -> Result<(), AllocError>
    ensures ok { OnOk result (out.new.items ≡ out.old.items ++ behind (message_words message.now)) }
    ensures err { OnErr result (Begins out.old.items out.new.items) }
{
    match *message {
        Message::Prepare {
            txn,
            coord,
            member,
            count,
        } => append_prepare(out, txn, coord, member, count),
        Message::Vote {
            txn,
            member,
            coord,
            yes,
        } => append_vote(out, txn, member, coord, yes),
        Message::Decide {
            txn,
            coord,
            member,
            commit,
        } => append_decision(out, txn, coord, member, commit),
        Message::Ask { txn, member, coord } => append_from_member(out, b"ask", txn, member, coord),
        Message::Ack { txn, member, coord } => append_from_member(out, b"ack", txn, member, coord),
    }
}

fn append_with_word(
    out: &mut Vec<u8>,
    form: &[u8],
    txn: Txn,
    member: u8,
    word: &[u8],
) -> Result<(), AllocError>
    ensures ok { OnOk result (out.new.items ≡ out.old.items ++ spaced (form.now ∷ decimal txn ∷ member_word member ∷ word.now ∷ [])) }
    ensures err { OnErr result (Begins out.old.items out.new.items) }
{
    append_at_member(out, form, txn, member)?;
    append_word(out, word)
}

fn append_with_words(
    out: &mut Vec<u8>,
    form: &[u8],
    txn: Txn,
    member: u8,
    first: &[u8],
    second: &[u8],
) -> Result<(), AllocError>
    ensures ok { OnOk result (out.new.items ≡ out.old.items ++ spaced (form.now ∷ decimal txn ∷ member_word member ∷ first.now ∷ second.now ∷ [])) }
    ensures err { OnErr result (Begins out.old.items out.new.items) }
{
    append_with_word(out, form, txn, member, first)?;
    append_word(out, second)
}

fn append_delivery(out: &mut Vec<u8>, message: &Message) -> Result<(), AllocError>
    ensures ok { OnOk result (out.new.items ≡ out.old.items ++ spaced (codes "deliver" ∷ message_words message.now)) }
    ensures err { OnErr result (Begins out.old.items out.new.items) }
{
    out.extend_from_slice(b"deliver")?;
    append_message(out, message)
}

fn append_timer(out: &mut Vec<u8>, txn: Txn, at: Node) -> Result<(), AllocError>
    ensures ok { OnOk result (out.new.items ≡ out.old.items ++ spaced (codes "timer" ∷ decimal txn ∷ node_word at ∷ [])) }
    ensures err { OnErr result (Begins out.old.items out.new.items) }
{
    append_of_txn(out, b"timer", txn)?;
    append_node(out, at)
}

fn append_arm(out: &mut Vec<u8>, node: Node, call: u8, leaves: &Leaves) -> Result<(), AllocError>
    ensures ok { OnOk result (out.new.items ≡ out.old.items ++ spaced (codes "arm" ∷ node_word node ∷ decimal call ∷ leaves_word leaves.now ∷ [])) }
    ensures err { OnErr result (Begins out.old.items out.new.items) }
{
    append_of_node(out, b"arm", node)?;
    append_number(out, u64::from(call))?;
    append_leaves(out, leaves)
}

/// Appends the line of the event, however long it is. After want of memory the list begins with what it held.
pub fn append_event(out: &mut Vec<u8>, event: &Event) -> Result<(), AllocError>
    ensures ok { OnOk result (out.new.items ≡ out.old.items ++ line_text event.now) }
    ensures err { OnErr result (Begins out.old.items out.new.items) }
{
    match event {
        Event::Begin { txn, coord } => append_at_coord(out, b"begin", *txn, *coord),
        Event::Local { txn, member } => append_at_member(out, b"local", *txn, *member),
        Event::Read { txn, member, key } => {
            append_with_word(out, b"read", *txn, *member, key.text())
        }
        Event::Write {
            txn,
            member,
            key,
            value,
        } => append_with_words(out, b"write", *txn, *member, key.text(), value.text()),
        Event::Erase { txn, member, key } => {
            append_with_word(out, b"erase", *txn, *member, key.text())
        }
        Event::Scan { txn, member, range } => {
            let (low, high) = (range.lo().text(), range.hi().text());
            append_with_words(out, b"scan", *txn, *member, low, high)
        }
        Event::Commit { txn } => append_of_txn(out, b"commit", *txn),
        Event::Abort { txn } => append_of_txn(out, b"abort", *txn),
        Event::Deliver(message) => append_delivery(out, message),
        Event::Vote { txn, member } => append_at_member(out, b"vote", *txn, *member),
        Event::Timer { txn, node } => append_timer(out, *txn, *node),
        Event::Ask { txn, member } => append_at_member(out, b"ask", *txn, *member),
        Event::Resend { txn, coord } => append_at_coord(out, b"resend", *txn, *coord),
        Event::Crash(node) => append_of_node(out, b"crash", *node),
        Event::Restart(node) => append_of_node(out, b"restart", *node),
        Event::Arm { node, call, leaves } => append_arm(out, *node, *call, leaves),
        Event::Checkpoint(node) => append_of_node(out, b"checkpoint", *node),
    }
}

/// The word of the kind.
pub fn kind_text(kind: Kind) -> &'static [u8]
    ensures { result.now ≡ kind_word kind }
{
    match kind {
        Kind::Lock => b"lock",
        Kind::Occ => b"occ",
        Kind::Mv => b"mv",
    }
}

fn append_kinds(out: &mut Vec<u8>, kinds: &[Kind]) -> Result<(), AllocError>
    ensures ok { OnOk result (out.new.items ≡ out.old.items ++ behind (map kind_word kinds.now)) }
    ensures err { OnErr result (Begins out.old.items out.new.items) }
{
    for kind in kinds {
        append_word(out, kind_text(*kind))?;
    }
    Ok(())
}

/// Appends the line of the head. After want of memory the list begins with what it held.
pub fn append_head(out: &mut Vec<u8>, head: &Head) -> Result<(), AllocError>
    ensures ok { OnOk result (out.new.items ≡ out.old.items ++ head_text head.now) }
    ensures err { OnErr result (Begins out.old.items out.new.items) }
{
    out.extend_from_slice(b"members")?;
    append_kinds(out, head.kinds.as_slice())?;
    append_word(out, b"coords")?;
    append_number(out, u64::from(head.coords))
}

/// Appends the one line of the event, without a newline. `Long` comes exactly where the line has
/// more than 8,192 bytes, unless memory ran out before. After a fault nothing is appended.
pub fn put_line(event: &Event, into: &mut Vec<u8>) -> Result<(), LineFault>
    ensures ok { OnOk result ((into.new.items ≡ into.old.items ++ line_text event.now) × (length (line_text event.now) ≤ longest_line)) }
    ensures long { IsErrOf result LineFault.Long → longest_line < length (line_text event.now) }
    ensures faults { IfErr result (λ fault. (fault ≡ LineFault.Long) ⊎ (fault ≡ LineFault.Memory)) }
    ensures err { OnErr result (into.new.items ≡ into.old.items) }
{
    let mut line = Vec::new(*into.allocator());
    append_event(&mut line, event)?;
    if line.len() > LONGEST_LINE {
        return Err(LineFault::Long);
    }
    into.extend_from_slice(&line)?;
    Ok(())
}

/// The most bytes of a line, without its newline.
pub const LONGEST_LINE: usize = 8192;
