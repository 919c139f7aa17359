//! The columns of a picture: its lanes, each as wide as its longest text.
ghost use Rattle.std.specs.Prelude.{◌≡◌, ◌<◌, ◌≤◌, ◌+◌, ◌*◌, ◌-◌, ◌++◌, ◌==◌, [], ℕ, List, Option, length, OnOk, OnErr, IfOk, decimal, option_copied, vec_len};
ghost use Rattle.co_schedule.specs.Spelling.{kind_word};
ghost use Rattle.co_picture.specs.Columns.{kind_of, has_rank, slot_in, with_lane, with_entry, coord_lanes, member_lanes, lanes_in_head, lanes_of, node_title, title_of, longest, column_of, columns_of, place_from, place_of, left, end_from, page_width, most_lanes};
ghost use Rattle.co_picture.specs.Read.{most_lines_drawn};

use crate::column::Column;
use crate::entry::{Entry, Link};
use crate::lane::Lane;
use co_base::{Head, Kind, Node, Sequence};
use co_schedule::{append_number, append_word};
use co_svg::{LETTER, WIDEST};
use itoa::Buffer;
use std::alloc::{AllocError, Global};

/// The room at the left edge for the numbers of the lines, in pixels.
const LEFT: u64 = 48;
/// The room behind a text, and the least width of a page, in pixels.
const GAP: u64 = 24;

const LEAST: u64 = 420;

/// Whether a lane of this rank is among them.
fn has_rank(lanes: &[Lane], rank: u64) -> bool
    ensures { result ≡ has_rank lanes.now rank }
{
    lanes.iter().any(|other| other.rank() == rank)
}

/// The place of the first lane with a greater rank, or the end.
fn slot_in(lanes: &[Lane], rank: u64) -> usize
    ensures ok { result ≡ slot_in lanes.now rank }
    ensures within { result ≤ length lanes.now }
{
    for (slot, other) in lanes.iter().enumerate() {
        if rank < other.rank() {
            return slot;
        }
    }
    lanes.len()
}

/// Adds a lane at its place, unless it is there.
fn add_lane(lanes: &mut Vec<Lane>, lane: Lane) -> Result<(), AllocError>
    ensures ok { OnOk result (lanes.new.items ≡ with_lane lanes.old.items lane) }
    ensures few { OnOk result (vec_len lanes.new ≤ vec_len lanes.old + 1) }
{
    let rank = lane.rank();
    if has_rank(lanes, rank) {
        return Ok(());
    }
    let slot = slot_in(lanes, rank);
    lanes.insert(slot, lane)?;
    Ok(())
}

/// Adds the lanes of an entry.
fn add_lanes(lanes: &mut Vec<Lane>, entry: &Entry) -> Result<(), AllocError>
    ensures ok { OnOk result (lanes.new.items ≡ with_entry lanes.old.items entry.now) }
    ensures few { OnOk result (vec_len lanes.new ≤ vec_len lanes.old + 2) }
{
    match entry.lane {
        Lane::Front => {}
        lane => add_lane(lanes, lane)?,
    }
    match entry.link {
        Link::Call(node) => add_lane(lanes, Lane::At(node)),
        _ => Ok(()),
    }
}

/// The lanes of so many coordinators and members.
fn lanes_of_nodes(alloc: Global, coords: u8, members: u8) -> Result<Vec<Lane>, AllocError>
    ensures ok { IfOk result (λ lanes. lanes.items ≡ coord_lanes coords ++ member_lanes members) }
    ensures few { IfOk result (λ lanes. vec_len lanes ≤ coords + members) }
{
    let mut lanes = Vec::new(alloc);
    for number in 0..coords {
        lanes.push(Lane::At(Node::Coord(number + 1)))?;
    }
    for number in 0..members {
        lanes.push(Lane::At(Node::Member(number + 1)))?;
    }
    Ok(lanes)
}

/// The lanes of the nodes of a head.
fn lanes_in_head(alloc: Global, head: Option<&Head>) -> Result<Vec<Lane>, AllocError>
    ensures ok { IfOk result (λ lanes. lanes.items ≡ lanes_in_head (option_copied head.entry)) }
    ensures few { IfOk result (λ lanes. vec_len lanes ≤ 24) }
{
    match head {
        Some(head) => lanes_of_nodes(alloc, head.coords, head.kinds.len() as u8),
        None => Ok(Vec::new(alloc)),
    }
}

/// The lanes of a picture, in their order.
fn lanes_of(alloc: Global, head: Option<&Head>, entries: &[Entry]) -> Result<Vec<Lane>, AllocError>
    requires { length entries.now ≤ most_lines_drawn }
    ensures ok { IfOk result (λ lanes. lanes.items ≡ lanes_of (option_copied head.entry) entries.now) }
    ensures few { IfOk result (λ lanes. vec_len lanes ≤ most_lanes) }
{
    let mut lanes = lanes_in_head(alloc, head)?;
    for entry in entries {
        add_lanes(&mut lanes, entry)?;
    }
    Ok(lanes)
}

/// The kind of a member, where the head has it.
fn kind_of(head: Option<&Head>, member: u8) -> Option<Kind>
    ensures { result ≡ kind_of (option_copied head.entry) member }
{
    match head {
        Some(head) if member > 0 => head.kinds.as_slice().get(member as usize - 1).copied(),
        _ => None,
    }
}

/// The word of a kind.
fn word_of(kind: Kind) -> &'static [u8]
    ensures { result.now ≡ kind_word kind }
{
    match kind {
        Kind::Lock => b"lock",
        Kind::Occ => b"occ",
        Kind::Mv => b"mv",
    }
}

/// Appends the title of the lane of a node.
fn append_node_title(into: &mut Vec<u8>, head: Option<&Head>, node: Node) -> Result<(), AllocError>
    ensures { OnOk result (into.new.items ≡ into.old.items ++ node_title (option_copied head.entry) node) }
{
    match node {
        Node::Coord(number) => {
            into.push(b'c')?;
            into.extend_from_slice(Buffer::new().format(number).as_bytes())
        }
        Node::Member(number) => {
            into.push(b'm')?;
            into.extend_from_slice(Buffer::new().format(number).as_bytes())?;
            match kind_of(head, number) {
                Some(kind) => append_word(into, word_of(kind)),
                None => Ok(()),
            }
        }
    }
}

/// Appends the title of a lane.
fn append_title(into: &mut Vec<u8>, head: Option<&Head>, lane: &Lane) -> Result<(), AllocError>
    ensures { OnOk result (into.new.items ≡ into.old.items ++ title_of (option_copied head.entry) lane.now) }
{
    match lane {
        Lane::Front => Ok(()),
        Lane::Client(txn) => {
            into.extend_from_slice(b"client")?;
            append_number(into, u64::from(txn.0))
        }
        Lane::At(node) => append_node_title(into, head, *node),
    }
}

/// The letters of the longest text in a lane, at least so many and at most 64.
fn longest(least: usize, lane: &Lane, entries: &[Entry]) -> usize
    ensures ok { result ≡ longest least lane.now entries.now }
    ensures few { result ≤ 64 }
{
    let rank = lane.rank();
    let mut most = least.min(WIDEST);
    for entry in entries {
        if entry.lane.rank() == rank {
            most = most.max(entry.text.len()).min(WIDEST);
        }
    }
    most
}

/// The column of a lane.
fn column_of(
    alloc: Global,
    head: Option<&Head>,
    entries: &[Entry],
    lane: Lane,
) -> Result<Column, AllocError>
    ensures { IfOk result (λ column. column ≡ column_of (option_copied head.entry) entries.now lane) }
{
    let mut title = Vec::new(alloc);
    append_title(&mut title, head, &lane)?;
    let letters = longest(title.len(), &lane, entries);
    Ok(Column {
        lane,
        title: Sequence::of(title),
        width: (GAP + LETTER * letters as u64) as u16,
    })
}

/// The columns of a picture.
pub(crate) fn columns_of(
    alloc: Global,
    head: Option<&Head>,
    entries: &[Entry],
) -> Result<Vec<Column>, AllocError>
    requires { length entries.now ≤ most_lines_drawn }
    ensures ok { IfOk result (λ columns. columns.items ≡ columns_of (option_copied head.entry) entries.now) }
    ensures few { IfOk result (λ columns. vec_len columns ≤ most_lanes) }
{
    let lanes = lanes_of(alloc, head, entries)?;
    let mut columns = Vec::new(alloc);
    for lane in &lanes {
        columns.push(column_of(alloc, head, entries, *lane)?)?;
    }
    Ok(columns)
}

/// Where the lane of this rank begins.
fn place_among(columns: &[Column], rank: u64) -> u64
    requires { length columns.now ≤ most_lanes }
    ensures ok { result ≡ place_from left columns.now rank }
    ensures least { 48 ≤ result }
    ensures most { result ≤ 48 + 65535 * length columns.now }
{
    let mut place = LEFT;
    for column in columns {
        if column.lane.rank() == rank {
            return place;
        }
        place += u64::from(column.width);
    }
    place
}

/// Where a lane begins, in pixels from the left edge. A lane that has no column is at the right of all.
pub(crate) fn place_of(columns: &[Column], lane: Lane) -> u64
    requires { length columns.now ≤ most_lanes }
    ensures ok { result ≡ place_of columns.now lane }
    ensures least { 48 ≤ result }
    ensures most { result ≤ 48 + 65535 * length columns.now }
{
    match lane {
        Lane::Front => LEFT,
        _ => place_among(columns, lane.rank()),
    }
}

/// How wide the page is.
pub(crate) fn page_width(columns: &[Column]) -> u64
    requires { length columns.now ≤ most_lanes }
    ensures { result ≡ page_width columns.now }
{
    let mut end = LEFT;
    for column in columns {
        end += u64::from(column.width);
    }
    LEAST.max(end + GAP)
}
