//! The table of a transcript, in Markdown.
ghost use Rattle.std.specs.Prelude.{◌≡◌, ◌≤◌, ◌++◌, length, OnOk, IfOk};
ghost use Rattle.co_picture.specs.Read.{most_lines_drawn};
ghost use Rattle.co_table.specs.Table.{title_text, titles_text, rules_text, title_line, rule_line, front_text, part_text, cell_text, node_cell, node_cells, parts_of, number_cell, event_cell, row_text, row_at, rows_text, table_text};

use crate::entry::{Entry, entries_of};
use crate::place::{Place, nodes_of};
use co_base::Node;
use co_message::Item;
use co_schedule::append_node;
use itoa::Buffer;
use std::alloc::{AllocError, Global};

/// Appends the titles of the nodes.
fn append_titles(into: &mut Vec<u8>, nodes: &[Node]) -> Result<(), AllocError>
    ensures { OnOk result (into.new.items ≡ into.old.items ++ titles_text nodes.now) }
{
    for node in nodes {
        append_title(into, *node)?;
    }
    Ok(())
}

/// Appends the title of a node.
fn append_title(into: &mut Vec<u8>, node: Node) -> Result<(), AllocError>
    ensures { OnOk result (into.new.items ≡ into.old.items ++ title_text node) }
{
    append_node(into, node)?;
    into.extend_from_slice(b" |")
}

/// Appends the rules under so many titles.
fn append_rules(into: &mut Vec<u8>, count: usize) -> Result<(), AllocError>
    ensures { OnOk result (into.new.items ≡ into.old.items ++ rules_text count) }
{
    for _ruled in 0..count {
        into.extend_from_slice(b"---|")?;
    }
    Ok(())
}

/// Appends the line of the titles.
fn append_title_line(into: &mut Vec<u8>, nodes: &[Node]) -> Result<(), AllocError>
    ensures { OnOk result (into.new.items ≡ into.old.items ++ title_line nodes.now) }
{
    into.extend_from_slice(b"| Line | Event |")?;
    append_titles(into, nodes)?;
    into.extend_from_slice(b"\n")
}

/// Appends the line of the rules.
fn append_rule_line(into: &mut Vec<u8>, nodes: &[Node]) -> Result<(), AllocError>
    ensures { OnOk result (into.new.items ≡ into.old.items ++ rule_line nodes.now) }
{
    into.extend_from_slice(b"|---|---|")?;
    append_rules(into, nodes.len())?;
    into.extend_from_slice(b"\n")
}

/// Appends the first two lines.
fn append_front(into: &mut Vec<u8>, nodes: &[Node]) -> Result<(), AllocError>
    ensures { OnOk result (into.new.items ≡ into.old.items ++ front_text nodes.now) }
{
    append_title_line(into, nodes)?;
    append_rule_line(into, nodes)
}

/// Appends what is told of an item, behind something else or not.
fn append_part(into: &mut Vec<u8>, behind: bool, part: &Entry) -> Result<(), AllocError>
    ensures { OnOk result (into.new.items ≡ into.old.items ++ part_text behind part.now) }
{
    if behind {
        into.extend_from_slice(b", ")?;
    }
    into.extend_from_slice(part.text.as_slice())
}

/// Appends all that is told in this place, behind something else or not.
fn append_cell(
    into: &mut Vec<u8>,
    behind: bool,
    place: Place,
    parts: &[Entry],
) -> Result<(), AllocError>
    ensures { OnOk result (into.new.items ≡ into.old.items ++ cell_text behind place parts.now) }
{
    let mut told = behind;
    for part in parts {
        if place.has(part.place) {
            append_part(into, told, part)?;
            told = true;
        }
    }
    Ok(())
}

/// Appends the cell of a node.
fn append_node_cell(into: &mut Vec<u8>, parts: &[Entry], node: Node) -> Result<(), AllocError>
    ensures { OnOk result (into.new.items ≡ into.old.items ++ node_cell parts.now node) }
{
    into.push(b' ')?;
    append_cell(into, false, Place::At(node), parts)?;
    into.extend_from_slice(b" |")
}

/// Appends the cells of the nodes.
fn append_node_cells(into: &mut Vec<u8>, parts: &[Entry], nodes: &[Node]) -> Result<(), AllocError>
    ensures { OnOk result (into.new.items ≡ into.old.items ++ node_cells parts.now nodes.now) }
{
    for node in nodes {
        append_node_cell(into, parts, *node)?;
    }
    Ok(())
}

/// What belongs to an event, of all that is told behind it: all up to the next event.
fn parts_of(entries: &[Entry]) -> &[Entry]
    ensures { result.now ≡ parts_of entries.now }
{
    for (at, entry) in entries.iter().enumerate() {
        if entry.place.is_front() {
            return &entries[..at];
        }
    }
    entries
}

/// Appends the cell of a number.
fn append_number_cell(into: &mut Vec<u8>, number: u32) -> Result<(), AllocError>
    ensures { OnOk result (into.new.items ≡ into.old.items ++ number_cell number) }
{
    into.extend_from_slice(b"| ")?;
    into.extend_from_slice(Buffer::new().format(number).as_bytes())?;
    into.extend_from_slice(b" |")
}

/// Appends the cell of an event, with what has no column.
fn append_event_cell(into: &mut Vec<u8>, event: &Entry, parts: &[Entry]) -> Result<(), AllocError>
    ensures { OnOk result (into.new.items ≡ into.old.items ++ event_cell event.now parts.now) }
{
    into.push(b' ')?;
    into.extend_from_slice(event.text.as_slice())?;
    append_cell(into, true, Place::Beside, parts)?;
    into.extend_from_slice(b" |")
}

/// Appends the row of an event.
fn append_row(
    into: &mut Vec<u8>,
    nodes: &[Node],
    event: &Entry,
    parts: &[Entry],
) -> Result<(), AllocError>
    ensures { OnOk result (into.new.items ≡ into.old.items ++ row_text nodes.now event.now parts.now) }
{
    append_number_cell(into, event.number)?;
    append_event_cell(into, event, parts)?;
    append_node_cells(into, parts, nodes)?;
    into.extend_from_slice(b"\n")
}

/// Appends the row of what is told, where it is an event, with what is told behind it.
fn append_row_at(
    into: &mut Vec<u8>,
    nodes: &[Node],
    entry: &Entry,
    behind: &[Entry],
) -> Result<(), AllocError>
    ensures { OnOk result (into.new.items ≡ into.old.items ++ row_at nodes.now entry.now behind.now) }
{
    if entry.place.is_front() {
        return append_row(into, nodes, entry, parts_of(behind));
    }
    Ok(())
}

/// Appends a row for each event.
fn append_rows(into: &mut Vec<u8>, nodes: &[Node], entries: &[Entry]) -> Result<(), AllocError>
    ensures { OnOk result (into.new.items ≡ into.old.items ++ rows_text nodes.now entries.now) }
{
    for (at, entry) in entries.iter().enumerate() {
        append_row_at(into, nodes, entry, &entries[at + 1..])?;
    }
    Ok(())
}

/// The table of a transcript, as a text in Markdown. Each event has a row, and what became stable, what was sent and what was answered stand in it,
/// in the column of the node that did it. What has no column there stands beside the event.
pub fn table_of(alloc: Global, items: &[Item]) -> Result<Vec<u8>, AllocError>
    requires { length items.now ≤ most_lines_drawn }
    ensures { IfOk result (λ text. text.items ≡ table_text items.now) }
{
    let nodes = nodes_of(alloc, items)?;
    let entries = entries_of(alloc, &nodes, items)?;
    let mut text = Vec::new(alloc);
    append_front(&mut text, &nodes)?;
    append_rows(&mut text, &nodes, &entries)?;
    Ok(text)
}
