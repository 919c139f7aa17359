//! What is drawn of each item.
ghost use Rattle.std.specs.Prelude.{◌≡◌, ◌<◌, ◌≤◌, ◌+◌, ◌-◌, ◌^◌, ◌++◌, ◌∷◌, ◌==◌, ℕ, List, [], Some, option_map, length, take, reverse, position, IfOk, OnOk, OnErr, vec_len};
ghost use Rattle.co_base.specs.Lent.{Begins};
ghost use Rattle.co_transcript.specs.Spelling.{item_text};
ghost use Rattle.co_picture.specs.Entry.{is_space, behind_word, told_of, cut, most_letters, titled, text_of, sends, latest, link_in, lane_in, role_of, entry_of, entries_of, entries_from};
ghost use Rattle.co_picture.specs.Read.{most_lines_drawn};

use crate::course::{Course, decides};
use crate::lane::{Lane, sender};
use co_base::{Bytes, Node, Sequence};
use co_message::{Event, Item, ItemKind, Message};
use co_transcript::put_item;
use itoa::Buffer;
use std::alloc::{AllocError, Global};

/// The most letters of a line that a picture shows.
const MOST_LETTERS: usize = 40;

/// What an item is in its group.
#[derive(Clone, Copy)]
pub enum Role {
    /// An event, or the head.
    Event,
    /// A record.
    Record,
    /// A message that is sent.
    Sending,
    /// The answer.
    Answer,
}

/// What else is drawn of an item.
#[derive(Clone, Copy)]
pub enum Link {
    /// Nothing.
    Nothing,
    /// An arrow from the client to this node.
    Call(Node),
    /// An arrow to this lane from this node, where it leaves in the row of the latest sending, counted from 0.
    Arrow {
        /// The node.
        from: Node,
        /// The row.
        row: u16,
    },
    /// A short arrow to this lane: the message was not sent before.
    Stub,
}

/// What is drawn of an item.
#[derive(Drop)]
pub struct Entry {
    /// The number of its line in the schedule.
    pub number: u32,
    /// What it is.
    pub role: Role,
    /// Where it is drawn.
    pub lane: Lane,
    /// Its words.
    pub text: Bytes,
    /// What else is drawn.
    pub link: Link,
    /// The nodes that are down.
    pub down: Sequence<Node>,
}

/// The place of the first space.
fn space_in(text: &[u8]) -> Option<usize>
    ensures { result ≡ position is_space text.now }
{
    text.iter().position(|byte| *byte == b' ')
}

/// What stands behind the first space.
fn behind_word(text: &[u8]) -> &[u8]
    ensures { result.now ≡ behind_word text.now }
{
    match space_in(text) {
        Some(at) => &text[at + 1..],
        None => &[],
    }
}

/// The words of an item that are shown, of its line: not its number and not what it is. Of a record the node is left out, since it
/// stands in the lane of that, and of a delivery the word `deliver`.
pub fn told_of<'a>(line: &'a [u8], what: &ItemKind) -> &'a [u8]
    ensures { result.now ≡ told_of line.now what.now }
{
    let told = behind_word(behind_word(line));
    match what {
        ItemKind::Log(_) | ItemKind::Event(Event::Deliver(_)) => behind_word(told),
        _ => told,
    }
}

/// Appends a text, of which at most 40 letters are shown.
fn append_cut(into: &mut Vec<u8>, text: &[u8]) -> Result<(), AllocError>
    ensures { OnOk result (into.new.items ≡ into.old.items ++ cut text.now) }
{
    let most = MOST_LETTERS;
    if most < text.len() {
        let shown = &text[..most];
        into.extend_from_slice(shown)?;
        return into.extend_from_slice(b"..");
    }
    into.extend_from_slice(text)
}

/// Appends the number of a decision, if the item is one.
fn append_title(into: &mut Vec<u8>, course: &Course, what: &ItemKind) -> Result<(), AllocError>
    ensures { OnOk result (into.new.items ≡ into.old.items ++ titled course.now what.now) }
{
    if let ItemKind::Log(mark) = what {
        if decides(course.homes.as_slice(), mark) {
            into.push(b'#')?;
            into.extend_from_slice(Buffer::new().format(course.decided).as_bytes())?;
            into.push(b' ')?;
        }
    }
    Ok(())
}

/// The line of an item, without its newline.
#[tactic(auto, using(crate::proofs::Texts::long_line, crate::proofs::Texts::without_newline))]
pub fn line_of<'a>(line: &'a [u8], item: &Item) -> &'a [u8]
    requires { line.now ≡ item_text item.now ++ 10 ∷ [] }
    ensures { result.now ≡ item_text item.now }
{
    let end = line.len() - 1;
    &line[..end]
}

/// The words that are drawn of an item.
fn text_of(alloc: Global, course: &Course, item: &Item) -> Result<Bytes, AllocError>
    ensures { IfOk result (λ text. text ≡ text_of course.now item.now) }
{
    let mut line = Vec::new(alloc);
    put_item(item, &mut line)?;
    let mut text = Vec::new(alloc);
    append_title(&mut text, course, &item.what)?;
    append_cut(&mut text, told_of(line_of(&line, item), &item.what))?;
    Ok(Sequence::of(text))
}

/// Whether the item is a sending of this message.
fn sends(item: &Item, message: &Message) -> bool
    ensures { result ≡ sends message.now item.now }
{
    match &item.what {
        ItemKind::Sent(sent) => sent == message,
        _ => false,
    }
}

/// The row of the latest sending of the message.
fn latest(before: &[Item], message: &Message) -> Option<u16>
    requires { length before.now ≤ most_lines_drawn }
    ensures { result ≡ latest before.now message.now }
{
    let mut found = None;
    for (row, item) in before.iter().enumerate() {
        if sends(item, message) {
            found = Some(row as u16);
        }
    }
    found
}

/// What else is drawn of an item.
fn link_in(before: &[Item], course: &Course, what: &ItemKind) -> Link
    requires { length before.now ≤ most_lines_drawn }
    ensures { result ≡ link_in before.now course.now what.now }
{
    match (what, course.lane, course.node) {
        (ItemKind::Event(Event::Deliver(message)), _, _) => match latest(before, message) {
            Some(row) => Link::Arrow {
                from: sender(*message),
                row,
            },
            None => Link::Stub,
        },
        (ItemKind::Event(_), Lane::Client(_), Some(node)) => Link::Call(node),
        _ => Link::Nothing,
    }
}

/// The lane of an item: that of its event, or of the node whose record or message it is.
fn lane_in(course: &Course, what: &ItemKind) -> Lane
    ensures { result ≡ lane_in course.now what.now }
{
    match what {
        ItemKind::Log(mark) => Lane::At(mark.node),
        ItemKind::Sent(message) => Lane::At(sender(*message)),
        _ => course.lane,
    }
}

/// What an item is.
fn role_of(what: &ItemKind) -> Role
    ensures { result ≡ role_of what.now }
{
    match what {
        ItemKind::Head(_) | ItemKind::Event(_) => Role::Event,
        ItemKind::Log(_) => Role::Record,
        ItemKind::Sent(_) => Role::Sending,
        ItemKind::Answered(_) => Role::Answer,
    }
}

/// These nodes.
fn copy_nodes(alloc: Global, nodes: &[Node]) -> Result<Sequence<Node>, AllocError>
    ensures { IfOk result (λ copy. copy ≡ nodes.now) }
{
    Ok(Sequence::of(Vec::from_slice(alloc, nodes)?))
}

/// What is drawn of an item behind these ones.
fn entry_of(
    alloc: Global,
    before: &[Item],
    course: &Course,
    item: &Item,
) -> Result<Entry, AllocError>
    requires { length before.now ≤ most_lines_drawn }
    ensures { IfOk result (λ entry. entry ≡ entry_of before.now course.now item.now) }
{
    let text = text_of(alloc, course, item)?;
    let down = copy_nodes(alloc, course.down.as_slice())?;
    Ok(Entry {
        number: item.number,
        role: role_of(&item.what),
        lane: lane_in(course, &item.what),
        text,
        link: link_in(before, course, &item.what),
        down,
    })
}

/// What is drawn of each item, in their order.
pub(crate) fn entries_of(alloc: Global, items: &[Item]) -> Result<Vec<Entry>, AllocError>
    requires { length items.now ≤ most_lines_drawn }
    ensures ok { IfOk result (λ entries. entries.items ≡ entries_of items.now) }
    ensures few { IfOk result (λ entries. vec_len entries ≤ most_lines_drawn) }
{
    let mut course = Course::new(alloc);
    let mut entries = Vec::new(alloc);
    for (row, item) in items.iter().enumerate() {
        course.item(alloc, item)?;
        entries.push(entry_of(alloc, &items[..row], &course, item)?)?;
    }
    Ok(entries)
}
