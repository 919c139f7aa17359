//! The picture of a transcript.
ghost use Rattle.std.specs.Prelude.{◌≡◌, ◌<◌, ◌≤◌, ◌+◌, ◌-◌, ◌*◌, ◌^◌, ◌++◌, ◌∷◌, [], ℕ, List, map, length, OnOk, IfOk, option_copied, decimal};
ghost use Rattle.co_picture.specs.Columns.{columns_of, place_of, page_width, most_lanes};
ghost use Rattle.co_picture.specs.Entry.{entries_of};
ghost use Rattle.co_picture.specs.Picture.{height_of, option_line_text, head_of, life_line, title_label, down_line, link_line, lines_of, lines_from, lives_from, titles_from, number_label, number_labels, numbers_from, text_label, texts_from, style_of, picture_in, picture_of};
ghost use Rattle.co_picture.specs.Read.{most_lines_drawn};
ghost use Rattle.co_svg.specs.Svg.{line_text, lines_text, label_text, labels_text, svg_text};

use crate::column::Column;
use crate::columns::{columns_of, page_width, place_of};
use crate::entry::{Entry, Link, Role, entries_of};
use crate::lane::Lane;
use co_base::{Head, Node};
use co_message::{Item, ItemKind};
use co_svg::{Line, Stroke, Style, append_end, append_front, append_label, append_line};
use itoa::Buffer;
use std::alloc::{AllocError, Global};

/// How high a row is, and where the middle of the first one is, in pixels.
const ROW: u64 = 18;

const TOP: u64 = 48;
/// Where the titles stand.
const TITLES: u64 = 20;
/// Where the life lines begin.
const LIVES: u64 = 30;

/// The middle of a row, in pixels from the upper edge.
fn height_of(row: u64) -> u64
    requires { row < 2 ^ 32 }
    ensures { result ≡ height_of row }
{
    TOP + ROW * row
}

/// The head of a transcript, where it has one.
fn head_of(items: &[Item]) -> Option<&Head>
    ensures { option_copied result ≡ head_of items.now }
{
    match items {
        [
            Item {
                what: ItemKind::Head(head),
                ..
            },
            ..
        ] => Some(head),
        _ => None,
    }
}

/// The life line of a lane.
fn life_line(all: &[Column], top: u64, bottom: u64, lane: Lane) -> Line
    requires { length all.now ≤ most_lanes }
    ensures { result ≡ life_line all.now top bottom lane }
{
    let place = place_of(all, lane);
    Line {
        stroke: Stroke::Life,
        x1: place,
        y1: top,
        x2: place,
        y2: bottom,
    }
}

/// Appends the life lines of these columns, which are of all of them.
fn append_lives(
    into: &mut Vec<u8>,
    all: &[Column],
    columns: &[Column],
    top: u64,
    bottom: u64,
) -> Result<(), AllocError>
    requires { length all.now ≤ most_lanes }
    ensures { OnOk result (into.new.items ≡ into.old.items ++ lines_text (lives_from all.now top bottom columns.now)) }
{
    for column in columns {
        append_line(into, &life_line(all, top, bottom, column.lane))?;
    }
    Ok(())
}

/// The dashes of a node that is down in this row.
fn down_line(columns: &[Column], row: u64, node: Node) -> Line
    requires few { length columns.now ≤ most_lanes }
    requires row { row < 2 ^ 32 }
    ensures { result ≡ down_line columns.now row node }
{
    let place = place_of(columns, Lane::At(node));
    Line {
        stroke: Stroke::Down,
        x1: place,
        y1: height_of(row) - 9,
        x2: place,
        y2: height_of(row) + 9,
    }
}

/// Appends the dashes of the nodes that are down in this row.
fn append_downs(
    into: &mut Vec<u8>,
    columns: &[Column],
    row: u64,
    down: &[Node],
) -> Result<(), AllocError>
    requires few { length columns.now ≤ most_lanes }
    requires row { row < 2 ^ 32 }
    ensures { OnOk result (into.new.items ≡ into.old.items ++ lines_text (map (down_line columns.now row) down.now)) }
{
    for node in down {
        append_line(into, &down_line(columns, row, *node))?;
    }
    Ok(())
}

/// The arrow of an entry, where it has one.
fn link_line(columns: &[Column], row: u64, lane: Lane, link: Link) -> Option<Line>
    requires few { length columns.now ≤ most_lanes }
    requires row { row < 2 ^ 32 }
    ensures { result ≡ link_line columns.now row lane link }
{
    let (place, height) = (place_of(columns, lane), height_of(row));
    match link {
        Link::Nothing => None,
        Link::Call(node) => Some(Line {
            stroke: Stroke::Call,
            x1: place,
            y1: height,
            x2: place_of(columns, Lane::At(node)),
            y2: height,
        }),
        Link::Arrow { from, row } => Some(Line {
            stroke: Stroke::Message,
            x1: place_of(columns, Lane::At(from)),
            y1: height_of(u64::from(row)),
            x2: place,
            y2: height,
        }),
        Link::Stub => Some(Line {
            stroke: Stroke::Stub,
            x1: place - 24,
            y1: height,
            x2: place,
            y2: height,
        }),
    }
}

/// Appends a line, where there is one.
fn append_some(into: &mut Vec<u8>, line: Option<Line>) -> Result<(), AllocError>
    ensures { OnOk result (into.new.items ≡ into.old.items ++ option_line_text line) }
{
    match line {
        Some(line) => append_line(into, &line),
        None => Ok(()),
    }
}

/// Appends the lines of an entry.
fn append_lines_of(
    into: &mut Vec<u8>,
    columns: &[Column],
    row: u64,
    entry: &Entry,
) -> Result<(), AllocError>
    requires few { length columns.now ≤ most_lanes }
    requires row { row < 2 ^ 32 }
    ensures { OnOk result (into.new.items ≡ into.old.items ++ lines_text (lines_of columns.now row entry.now)) }
{
    append_downs(into, columns, row, entry.down.as_slice())?;
    append_some(into, link_line(columns, row, entry.lane, entry.link))
}

/// Appends the lines of all entries.
#[tactic(auto, using(crate::proofs::Appending::lines_behind))]
fn append_lines(into: &mut Vec<u8>, columns: &[Column], entries: &[Entry]) -> Result<(), AllocError>
    requires few { length columns.now ≤ most_lanes }
    requires rows { length entries.now ≤ most_lines_drawn }
    ensures { OnOk result (into.new.items ≡ into.old.items ++ lines_text (lines_from columns.now 0 entries.now)) }
{
    for (row, entry) in entries.iter().enumerate() {
        append_lines_of(into, columns, row as u64, entry)?;
    }
    Ok(())
}

/// Appends the title of a column.
fn append_title(
    into: &mut Vec<u8>,
    all: &[Column],
    height: u64,
    column: &Column,
) -> Result<(), AllocError>
    requires few { length all.now ≤ most_lanes }
    requires low { 12 ≤ height }
    ensures { OnOk result (into.new.items ≡ into.old.items ++ label_text (title_label all.now height column.now)) }
{
    let place = place_of(all, column.lane);
    append_label(into, Style::Title, place, height, column.title.as_slice())
}

/// Appends the titles of these columns, which are of all of them.
fn append_titles(
    into: &mut Vec<u8>,
    all: &[Column],
    columns: &[Column],
    height: u64,
) -> Result<(), AllocError>
    requires few { length all.now ≤ most_lanes }
    requires low { 12 ≤ height }
    ensures { OnOk result (into.new.items ≡ into.old.items ++ labels_text (titles_from all.now height columns.now)) }
{
    for column in columns {
        append_title(into, all, height, column)?;
    }
    Ok(())
}

/// Appends the number of a line, in its row.
fn append_number_in(into: &mut Vec<u8>, row: u64, number: u32) -> Result<(), AllocError>
    requires { row < 2 ^ 32 }
    ensures { OnOk result (into.new.items ≡ into.old.items ++ label_text (number_label row number)) }
{
    let height = height_of(row) + 4;
    append_label(
        into,
        Style::Number,
        4,
        height,
        Buffer::new().format(number).as_bytes(),
    )
}

/// Appends the number of a line beside its event.
fn append_number(into: &mut Vec<u8>, row: u64, role: Role, number: u32) -> Result<(), AllocError>
    requires { row < 2 ^ 32 }
    ensures { OnOk result (into.new.items ≡ into.old.items ++ labels_text (number_labels row role number)) }
{
    match role {
        Role::Event => append_number_in(into, row, number),
        _ => Ok(()),
    }
}

/// Appends the numbers of the lines.
#[tactic(auto, using(crate::proofs::Appending::labels_behind))]
fn append_numbers(into: &mut Vec<u8>, entries: &[Entry]) -> Result<(), AllocError>
    requires { length entries.now ≤ most_lines_drawn }
    ensures { OnOk result (into.new.items ≡ into.old.items ++ labels_text (numbers_from 0 entries.now)) }
{
    for (row, entry) in entries.iter().enumerate() {
        append_number(into, row as u64, entry.role, entry.number)?;
    }
    Ok(())
}

/// The looks of the text of an item.
fn style_of(role: Role) -> Style
    ensures { result ≡ style_of role }
{
    match role {
        Role::Event => Style::Event,
        Role::Record => Style::Record,
        Role::Sending => Style::Sending,
        Role::Answer => Style::Answer,
    }
}

/// Appends the text of an item, in its row.
fn append_text(
    into: &mut Vec<u8>,
    columns: &[Column],
    row: u64,
    entry: &Entry,
) -> Result<(), AllocError>
    requires few { length columns.now ≤ most_lanes }
    requires row { row < 2 ^ 32 }
    ensures { OnOk result (into.new.items ≡ into.old.items ++ label_text (text_label columns.now row entry.now)) }
{
    let place = place_of(columns, entry.lane) + 8;
    append_label(
        into,
        style_of(entry.role),
        place,
        height_of(row) + 4,
        entry.text.as_slice(),
    )
}

/// Appends the texts of all items.
fn append_texts(into: &mut Vec<u8>, columns: &[Column], entries: &[Entry]) -> Result<(), AllocError>
    requires few { length columns.now ≤ most_lanes }
    requires rows { length entries.now ≤ most_lines_drawn }
    ensures { OnOk result (into.new.items ≡ into.old.items ++ labels_text (texts_from columns.now 0 entries.now)) }
{
    for (row, entry) in entries.iter().enumerate() {
        append_text(into, columns, row as u64, entry)?;
    }
    Ok(())
}

/// Appends the lines of a picture.
#[tactic(auto, using(crate::proofs::Appending::lines_behind))]
fn append_all_lines(
    into: &mut Vec<u8>,
    columns: &[Column],
    entries: &[Entry],
    bottom: u64,
) -> Result<(), AllocError>
    requires few { length columns.now ≤ most_lanes }
    requires rows { length entries.now ≤ most_lines_drawn }
    requires bottom { bottom ≡ height_of (length entries.now) }
    ensures { OnOk result (into.new.items ≡ into.old.items ++ lines_text (picture_in columns.now entries.now).lines) }
{
    append_lives(into, columns, columns, LIVES, bottom)?;
    append_lines(into, columns, entries)
}

/// Appends the texts of a picture.
#[tactic(auto, using(crate::proofs::Appending::labels_behind))]
fn append_all_labels(
    into: &mut Vec<u8>,
    columns: &[Column],
    entries: &[Entry],
) -> Result<(), AllocError>
    requires few { length columns.now ≤ most_lanes }
    requires rows { length entries.now ≤ most_lines_drawn }
    ensures { OnOk result (into.new.items ≡ into.old.items ++ labels_text (picture_in columns.now entries.now).labels) }
{
    append_titles(into, columns, columns, TITLES)?;
    append_numbers(into, entries)?;
    append_texts(into, columns, entries)
}

/// Appends the picture of these entries in these columns.
fn append_picture(
    into: &mut Vec<u8>,
    columns: &[Column],
    entries: &[Entry],
) -> Result<(), AllocError>
    requires few { length columns.now ≤ most_lanes }
    requires rows { length entries.now ≤ most_lines_drawn }
    ensures { OnOk result (into.new.items ≡ into.old.items ++ svg_text (picture_in columns.now entries.now)) }
{
    let bottom = height_of(entries.len() as u64);
    append_front(into, page_width(columns), bottom)?;
    append_all_lines(into, columns, entries, bottom)?;
    append_all_labels(into, columns, entries)?;
    append_end(into)
}

/// The picture of a transcript, as a text in Scalable Vector Graphics. Each item has a row, and its words stand in the lane of the client that asks
/// or of the node where it happens. Arrows lead from clients to nodes, and from the latest sending of a message to its arrival. Nodes that
/// are down have a dashed life line, and decisions to commit are numbered in their order.
pub fn drawing_of(alloc: Global, items: &[Item]) -> Result<Vec<u8>, AllocError>
    requires { length items.now ≤ most_lines_drawn }
    ensures { IfOk result (λ text. text.items ≡ svg_text (picture_of items.now) ++ 10 ∷ []) }
{
    let entries = entries_of(alloc, items)?;
    let columns = columns_of(alloc, head_of(items), &entries)?;
    let mut text = Vec::new(alloc);
    append_picture(&mut text, &columns, &entries)?;
    text.push(b'\n')?;
    Ok(text)
}
