//! What a table tells of each item of a transcript.
ghost use Rattle.std.specs.Prelude.{◌≡◌, ◌≤◌, length, IfOk};
ghost use Rattle.co_picture.specs.Read.{most_lines_drawn};
ghost use Rattle.co_table.specs.Entry.{entry_of, entries_of};

use crate::place::{Place, place_of};
use crate::words::text_of;
use co_base::{Bytes, Node};
use co_message::Item;
use co_picture::Course;
use std::alloc::{AllocError, Global};

/// What a table tells of an item.
#[derive(Drop)]
pub struct Entry {
    /// The number of its line in the schedule.
    pub number: u32,
    /// Where it stands.
    pub place: Place,
    /// Its words, as a cell has them.
    pub text: Bytes,
}

/// What is told of an item behind those that tell this with it.
fn entry_of(
    alloc: Global,
    nodes: &[Node],
    course: &Course,
    item: &Item,
) -> Result<Entry, AllocError>
    ensures { IfOk result (λ entry. entry ≡ entry_of nodes.now course.now item.now) }
{
    let text = text_of(alloc, item)?;
    Ok(Entry {
        number: item.number,
        place: place_of(nodes, course, &item.what),
        text,
    })
}

/// What is told of each item, in their order.
pub(crate) fn entries_of(
    alloc: Global,
    nodes: &[Node],
    items: &[Item],
) -> Result<Vec<Entry>, AllocError>
    requires { length items.now ≤ most_lines_drawn }
    ensures { IfOk result (λ entries. entries.items ≡ entries_of nodes.now items.now) }
{
    let mut course = Course::new(alloc);
    let mut entries = Vec::new(alloc);
    for item in items {
        course.item(alloc, item)?;
        entries.push(entry_of(alloc, nodes, &course, item)?)?;
    }
    Ok(entries)
}
