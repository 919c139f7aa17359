//! The note of a status, spelled without memory.
ghost use Rattle.std.specs.Prelude.{◌≡◌, ◌+◌, ◌≤◌, ◌++◌, codes, decimal, length};
ghost use Rattle.arrayvec.specs.ArrayVec.{array_vec_len};
ghost use Rattle.co_outside.specs.Spots.{node_name, part_name, spot_name};
ghost use Rattle.co_top.specs.Ends.{note_of, words_of, kind_word, byte_word};

use crate::status::{LimitKind, Status};
use arrayvec::ArrayVec;
use co_outside::Spot;
use co_schedule::LineKind;
use itoa::{Buffer, Integer};

/// More bytes than a note has: the longest one tells of a byte that differs, and has at most 52.
const ROOM: usize = 64;

/// A note, spelled in place.
pub(crate) type Note = ArrayVec<u8, ROOM>;

/// Appends a text.
fn append(note: &mut Note, text: &[u8])
    requires { array_vec_len note.old + length text.now ≤ 64 }
    ensures { note.new.items ≡ note.old.items ++ text.now }
{
    match note.try_extend_from_slice(text) {
        Ok(()) => {}
        Err(_) => unreachable!(),
    }
}

/// Appends a number.
fn append_number<I: Integer>(note: &mut Note, number: I)
    requires { array_vec_len note.old + I.MAX_STR_LEN ≤ 64 }
    ensures spelled { note.new.items ≡ note.old.items ++ I.text number }
    ensures short { length (I.text number) ≤ I.MAX_STR_LEN }
{
    append(note, Buffer::new().format(number).as_bytes());
}

/// Appends the name of a node, by its byte.
fn append_node(note: &mut Note, node: u8)
    requires { array_vec_len note.old + 4 ≤ 64 }
    ensures spelled { note.new.items ≡ note.old.items ++ node_name node }
    ensures short { length (node_name node) ≤ 4 }
{
    if node < 0x80 {
        append(note, b"m");
        append_number(note, node);
    } else {
        append(note, b"c");
        append_number(note, node - 0x80);
    }
}

/// Appends the name of a log file.
fn append_spot(note: &mut Note, spot: Spot)
    requires { array_vec_len note.old + 6 ≤ 64 }
    ensures spelled { note.new.items ≡ note.old.items ++ spot_name spot }
    ensures short { length (spot_name spot) ≤ 6 }
{
    append_node(note, spot.node);
    append(note, b".");
    append(note, if spot.part == 0 { b"a" } else { b"b" });
}

/// Appends a byte in hex, or `none` where it is missing.
fn append_byte(note: &mut Note, byte: Option<u8>)
    requires { array_vec_len note.old + 4 ≤ 64 }
    ensures spelled { note.new.items ≡ note.old.items ++ byte_word byte }
    ensures short { length (byte_word byte) ≤ 4 }
{
    match byte {
        None => append(note, b"none"),
        Some(byte) => {
            let digits = b"0123456789abcdef";
            note.push(digits[usize::from(byte / 16)]);
            note.push(digits[usize::from(byte % 16)]);
        }
    }
}

/// Appends a text and the name of a log file.
fn append_at_spot(note: &mut Note, text: &[u8], spot: Spot)
    requires { array_vec_len note.old + length text.now + 6 ≤ 64 }
    ensures spelled { note.new.items ≡ note.old.items ++ (text.now ++ spot_name spot) }
    ensures short { length (spot_name spot) ≤ 6 }
{
    append(note, text);
    append_spot(note, spot);
}

/// Appends a text, the name of a log file and a place in it.
fn append_place(note: &mut Note, text: &[u8], spot: Spot, at: u32)
    requires { array_vec_len note.old + length text.now + 20 ≤ 64 }
    ensures spelled { note.new.items ≡ note.old.items ++ (text.now ++ spot_name spot ++ codes " at " ++ decimal at) }
    ensures short { length (spot_name spot ++ codes " at " ++ decimal at) ≤ 20 }
{
    append_at_spot(note, text, spot);
    append(note, b" at ");
    append_number(note, at);
}

/// Appends what is noted of a byte that differs.
fn append_difference(note: &mut Note, spot: Spot, at: u32, kept: Option<u8>, read: Option<u8>)
    requires { array_vec_len note.old + 51 ≤ 64 }
    ensures spelled { note.new.items ≡ note.old.items ++ words_of (Status.Differs spot at kept read) }
    ensures short { length (words_of (Status.Differs spot at kept read)) ≤ 51 }
{
    append_place(note, b"differs: ", spot, at);
    append(note, b": kept ");
    append_byte(note, kept);
    append(note, b", read ");
    append_byte(note, read);
}

/// Appends a text and a number.
fn append_line(note: &mut Note, text: &[u8], line: u32)
    requires { array_vec_len note.old + length text.now + 10 ≤ 64 }
    ensures spelled { note.new.items ≡ note.old.items ++ (text.now ++ decimal line) }
    ensures short { length (decimal line) ≤ 10 }
{
    append(note, text);
    append_number(note, line);
}

/// What is noted of a line, by what is wrong with it.
fn kind_text(kind: LineKind) -> &'static [u8]
    ensures word { result.now ≡ kind_word kind }
    ensures short { length (kind_word kind) ≤ 8 }
{
    match kind {
        LineKind::Word => b": word",
        LineKind::Number => b": number",
        LineKind::Name => b": name",
        LineKind::Extra => b": extra",
        LineKind::Head => b": head",
    }
}

/// Appends what is noted of a line outside the grammar.
fn append_mistake(note: &mut Note, line: u32, kind: LineKind)
    requires { array_vec_len note.old + 32 ≤ 64 }
    ensures spelled { note.new.items ≡ note.old.items ++ words_of (Status.Schedule line kind) }
    ensures short { length (words_of (Status.Schedule line kind)) ≤ 32 }
{
    append_line(note, b"schedule line ", line);
    append(note, kind_text(kind));
}

/// Appends what is noted of a limit.
fn append_limit(note: &mut Note, limit: &LimitKind)
    requires { array_vec_len note.old + 30 ≤ 64 }
    ensures spelled { note.new.items ≡ note.old.items ++ words_of (Status.Limit limit.now) }
    ensures short { length (words_of (Status.Limit limit.now)) ≤ 30 }
{
    match limit {
        LimitKind::Line { line } => {
            append_line(note, b"limit: line ", *line);
            append(note, b" is long");
        }
        LimitKind::Lines => append(note, b"limit: lines"),
        LimitKind::Transactions => append(note, b"limit: transactions"),
        LimitKind::Log { spot } => append_at_spot(note, b"limit: log ", *spot),
    }
}

/// Appends the note of a status, but its newline.
fn append_words(note: &mut Note, status: &Status)
    requires { array_vec_len note.old + 51 ≤ 64 }
    ensures spelled { note.new.items ≡ note.old.items ++ words_of status.now }
    ensures short { length (words_of status.now) ≤ 51 }
{
    match status {
        Status::Done | Status::NotSerial { .. } => {}
        Status::Usage => append(note, b"usage"),
        Status::Schedule { line, kind } => append_mistake(note, *line, *kind),
        Status::Read => append(note, b"read fault"),
        Status::Write => append(note, b"write fault"),
        Status::Device { spot } => append_at_spot(note, b"device fault: ", *spot),
        Status::Differs {
            spot,
            at,
            kept,
            read,
        } => append_difference(note, *spot, *at, *kept, *read),
        Status::InUse { spot } => append_at_spot(note, b"logs in use: ", *spot),
        Status::BadLog { spot, at } => append_place(note, b"bad log: ", *spot, *at),
        Status::Limit(limit) => append_limit(note, limit),
        Status::Memory => append(note, b"want of memory"),
        Status::OldLog { spot } => append_at_spot(note, b"old log: ", *spot),
        Status::Transcript { line } => append_line(note, b"transcript line ", *line),
    }
}

/// The note of a status.
pub(crate) fn note_of(status: &Status) -> Note
    ensures { result.items ≡ note_of status.now }
{
    let mut note = Note::new();
    append_words(&mut note, status);
    match status {
        Status::Done | Status::NotSerial { .. } => {}
        _ => append(&mut note, b"\n"),
    }
    note
}
