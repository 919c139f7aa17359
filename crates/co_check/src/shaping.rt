//! The shape of a transcript, line by line.
ghost use Rattle.std.specs.Prelude.{◌≡◌, ◌<◌, ◌≤◌, ◌+◌, ◌^◌, ◌==◌, false, Some, IfOk, OnOk};
ghost use Rattle.co_check.specs.Account.{Account, marked, replied};
ghost use Rattle.co_check.specs.Kept.{Keeps, IsNext};
ghost use Rattle.co_serial.specs.SerialRun.{AllRecords};
ghost use Rattle.co_check.specs.declared.ledger.Ledger.{Ledger};
ghost use Rattle.co_check.specs.declared.place.Place.TheVariants.{InHead, InGroup, Behind};
ghost use Rattle.co_check.specs.Shape.{has_node, has_members, has_coords, has_headers, with_header, number_at, at_place, at_front, is_open, opens, sends, in_head, in_group, behind, told_at, next};

use crate::fitting::fits;
use crate::ledger::Ledger;
use crate::place::Place;
use co_base::{Head, Mark, MarkKind, Node, Sequence};
use co_message::{Answer, Event, Item, ItemKind};
use std::alloc::{AllocError, Global};

/// Whether a node is among these.
fn has_node(seen: &[Node], node: Node) -> bool
    ensures { result ≡ has_node seen.now node }
{
    for other in seen {
        if *other == node {
            return true;
        }
    }
    false
}

/// The nodes whose header was told, after this mark.
fn with_header(seen: Sequence<Node>, mark: Mark) -> Result<Sequence<Node>, AllocError>
    ensures { IfOk result (λ after. after ≡ with_header seen mark) }
{
    let mut seen = seen;
    let is_first = matches!(mark.kind, MarkKind::Header) && mark.number == 1;
    if is_first && !has_node(seen.as_slice(), mark.node) {
        seen.push(mark.node)?;
    }
    Ok(seen)
}

/// Whether a header of each of so many members was told.
fn has_members(seen: &[Node], count: u8) -> bool
    ensures { result ≡ has_members seen.now count }
{
    let mut left = count;
    while left > 0 {
        if !has_node(seen, Node::Member(left)) {
            return false;
        }
        left -= 1;
    }
    true
}

/// Whether a header of each of so many coordinators was told.
fn has_coords(seen: &[Node], count: u8) -> bool
    ensures { result ≡ has_coords seen.now count }
{
    let mut left = count;
    while left > 0 {
        if !has_node(seen, Node::Coord(left)) {
            return false;
        }
        left -= 1;
    }
    true
}

/// Whether a header of every node of the head was told.
fn has_headers(seen: &[Node], head: &Head) -> bool
    ensures { result ≡ has_headers seen.now head.now }
{
    has_members(seen, head.kinds.len() as u8) && has_coords(seen, head.coords)
}

/// A mark in the group of the head.
fn marked_in_head(head: Head, seen: Sequence<Node>, mark: Mark) -> Result<Option<Place>, AllocError>
    ensures { IfOk result (λ place. place ≡ Some (InHead head (with_header seen mark) false)) }
{
    let seen = with_header(seen, mark)?;
    Ok(Some(Place::InHead {
        head,
        seen,
        sending: false,
    }))
}

/// Whether the answer says that the logs are open.
fn is_open(answer: &Answer) -> bool
    ensures { result ≡ is_open answer.now }
{
    matches!(answer, Answer::Opened)
}

/// The answer that ends the group of the head.
fn opens(head: Head, seen: Sequence<Node>, answer: Answer) -> Option<Place>
    ensures { (start : AllRecords) (l : Ledger) (a : Account) → Keeps start l a → IsNext start (opens a head seen answer) result l }
{
    if is_open(&answer) && has_headers(seen.as_slice(), &head) {
        return Some(Place::Behind { head, number: 1 });
    }
    drop((head, seen, answer));
    None
}

/// A message in the group of the head, behind which no mark may stand: every header has been told.
fn sends(head: Head, seen: Sequence<Node>) -> Option<Place>
    ensures { (start : AllRecords) (l : Ledger) (a : Account) → Keeps start l a → IsNext start (sends a head seen) result l }
{
    if has_headers(seen.as_slice(), &head) {
        return Some(Place::InHead {
            head,
            seen,
            sending: true,
        });
    }
    drop((head, seen));
    None
}

/// A line of the group of the head.
fn in_head(
    head: Head,
    seen: Sequence<Node>,
    sending: bool,
    what: ItemKind,
) -> Result<Option<Place>, AllocError>
    ensures { (start : AllRecords) (l : Ledger) (a : Account) → Keeps start l a → IfOk result (λ place. IsNext start (in_head a head seen sending what) place l) }
{
    match what {
        ItemKind::Log(mark) if !sending => marked_in_head(head, seen, mark),
        ItemKind::Sent(_) => Ok(sends(head, seen)),
        ItemKind::Answered(answer) => Ok(opens(head, seen, answer)),
        other => {
            drop((head, seen, other));
            Ok(None)
        }
    }
}

/// A mark in the group of an event.
fn marked_in_group(
    ledger: &mut Ledger,
    head: Head,
    number: u32,
    event: Event,
    mark: Mark,
) -> Result<Option<Place>, AllocError>
    requires { ledger.old.transactions + 1 < 2 ^ 32 }
    ensures next { (start : AllRecords) (a : Account) → Keeps start ledger.old a → IfOk result (λ place. IsNext start (at_place (InGroup head number event false) (marked a mark)) place ledger.new) }
    ensures few { OnOk result (ledger.new.transactions ≤ ledger.old.transactions + 1) }
{
    if ledger.mark(mark)? {
        return Ok(Some(Place::InGroup {
            head,
            number,
            event,
            sending: false,
        }));
    }
    drop((head, event));
    Ok(None)
}

/// The answer that ends the group of an event.
fn replied_in_group(
    ledger: &mut Ledger,
    head: Head,
    number: u32,
    event: Event,
    answer: Answer,
) -> Result<Option<Place>, AllocError>
    requires { ledger.old.transactions + 1 < 2 ^ 32 }
    ensures next { (start : AllRecords) (a : Account) → Keeps start ledger.old a → IfOk result (λ place. IsNext start (at_place (Behind head number) (replied a number event answer)) place ledger.new) }
    ensures few { OnOk result (ledger.new.transactions ≤ ledger.old.transactions + 1) }
{
    if ledger.reply(number, event, answer)? {
        Ok(Some(Place::Behind { head, number }))
    } else {
        drop(head);
        Ok(None)
    }
}

/// A line of the group of an event.
fn in_group(
    ledger: &mut Ledger,
    head: Head,
    number: u32,
    event: Event,
    sending: bool,
    what: ItemKind,
) -> Result<Option<Place>, AllocError>
    requires { ledger.old.transactions + 1 < 2 ^ 32 }
    ensures next { (start : AllRecords) (a : Account) → Keeps start ledger.old a → IfOk result (λ place. IsNext start (in_group a head number event sending what) place ledger.new) }
    ensures few { OnOk result (ledger.new.transactions ≤ ledger.old.transactions + 1) }
{
    match what {
        ItemKind::Log(mark) if !sending => marked_in_group(ledger, head, number, event, mark),
        ItemKind::Sent(_) => Ok(Some(Place::InGroup {
            head,
            number,
            event,
            sending: true,
        })),
        ItemKind::Answered(answer) => replied_in_group(ledger, head, number, event, answer),
        other => {
            drop((head, event, other));
            Ok(None)
        }
    }
}

/// A line behind a whole group.
fn behind(head: Head, number: u32, what: ItemKind) -> Option<Place>
    ensures { (start : AllRecords) (l : Ledger) (a : Account) → Keeps start l a → IsNext start (behind a head number what) result l }
{
    match what {
        ItemKind::Event(event) => {
            if fits(&head, &event) {
                return Some(Place::InGroup {
                    head,
                    number,
                    event,
                    sending: false,
                });
            }
            drop((head, event));
            None
        }
        other => {
            drop((head, other));
            None
        }
    }
}

/// The first line, which is a head.
fn at_front(alloc: Global, what: ItemKind) -> Option<Place>
    ensures { (start : AllRecords) (l : Ledger) (a : Account) → Keeps start l a → IsNext start (at_front a what) result l }
{
    match what {
        ItemKind::Head(head) => Some(Place::InHead {
            head,
            seen: Sequence::new(alloc),
            sending: false,
        }),
        _ => None,
    }
}

/// Whether an item has the number of its place.
fn is_numbered(place: &Place, number: u32) -> bool
    ensures { result ≡ (number == number_at place.now) }
{
    match place {
        Place::AtFront | Place::InHead { .. } => number == 1,
        Place::InGroup { number: group, .. } => number == *group,
        Place::Behind { number: last, .. } => number != 0 && number - 1 == *last,
    }
}

/// Where the transcript stands behind one more line, which has the number of its place.
fn told_at(
    alloc: Global,
    place: Place,
    ledger: &mut Ledger,
    number: u32,
    what: ItemKind,
) -> Result<Option<Place>, AllocError>
    requires few { ledger.old.transactions + 1 < 2 ^ 32 }
    requires numbered { number ≡ number_at place }
    ensures next { (start : AllRecords) (a : Account) → Keeps start ledger.old a → IfOk result (λ after. IsNext start (told_at a place what) after ledger.new) }
    ensures few { OnOk result (ledger.new.transactions ≤ ledger.old.transactions + 1) }
{
    match place {
        Place::AtFront => Ok(at_front(alloc, what)),
        Place::InHead {
            head,
            seen,
            sending,
        } => in_head(head, seen, sending, what),
        Place::InGroup {
            head,
            number,
            event,
            sending,
        } => in_group(ledger, head, number, event, sending, what),
        Place::Behind { head, number: _ } => Ok(behind(head, number, what)),
    }
}

/// Where the transcript stands behind one more line, or nothing where the line breaks its shape.
pub(crate) fn next(
    alloc: Global,
    place: Place,
    ledger: &mut Ledger,
    item: Item,
) -> Result<Option<Place>, AllocError>
    requires { ledger.old.transactions + 1 < 2 ^ 32 }
    ensures next { (start : AllRecords) (a : Account) → Keeps start ledger.old a → IfOk result (λ after. IsNext start (next (record { place = place; account = a }) item) after ledger.new) }
    ensures few { OnOk result (ledger.new.transactions ≤ ledger.old.transactions + 1) }
{
    let Item { number, what } = item;
    if is_numbered(&place, number) {
        return told_at(alloc, place, ledger, number, what);
    }
    drop((place, what));
    Ok(None)
}
