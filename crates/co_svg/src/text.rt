//! The text of lines and labels, in Scalable Vector Graphics (W3C, SVG 2).
ghost use Rattle.std.specs.Prelude.{◌≡◌, ◌<◌, ◌≤◌, ◌+◌, ◌-◌, ◌*◌, ◌^◌, ◌++◌, ◌∷◌, [], ℕ, List, length, OnOk, decimal, codes};
ghost use Rattle.co_svg.specs.Svg.{attribute, attribute_text, number_attribute, element, escaped, escaped_letter, stroke_word, style_word, line_text, ground_width, box_text, ground_text, opening_text, page_text, label_text, letters_text, looks, front_text, end_text, label, page_attributes, attributes_text};

use crate::shape::{Line, Stroke, Style};
use itoa::Buffer;
use std::alloc::AllocError;

/// How wide a letter is, in pixels.
pub const LETTER: u64 = 8;
/// The most letters that a text has a ground for.
pub const WIDEST: usize = 64;

/// Appends an attribute with its value.
fn append_attribute(into: &mut Vec<u8>, name: &[u8], value: &[u8]) -> Result<(), AllocError>
    ensures { OnOk result (into.new.items ≡ into.old.items ++ attribute_text (attribute name.now value.now)) }
{
    into.push(b' ')?;
    into.extend_from_slice(name)?;
    into.extend_from_slice(b"=\"")?;
    into.extend_from_slice(value)?;
    into.push(b'"')?;
    Ok(())
}

/// Appends an attribute whose value is a number.
fn append_number(into: &mut Vec<u8>, name: &[u8], number: u64) -> Result<(), AllocError>
    ensures { OnOk result (into.new.items ≡ into.old.items ++ attribute_text (number_attribute name.now number)) }
{
    append_attribute(into, name, Buffer::new().format(number).as_bytes())
}

/// The word of the looks of a line.
fn stroke_word(stroke: Stroke) -> &'static [u8]
    ensures { result.now ≡ stroke_word stroke }
{
    match stroke {
        Stroke::Life => b"life",
        Stroke::Down => b"down",
        Stroke::Call => b"call",
        Stroke::Message => b"message",
        Stroke::Stub => b"stub",
    }
}

/// The word of the looks of a text.
fn style_word(style: Style) -> &'static [u8]
    ensures { result.now ≡ style_word style }
{
    match style {
        Style::Title => b"title",
        Style::Number => b"number",
        Style::Event => b"event",
        Style::Record => b"record",
        Style::Sending => b"sending",
        Style::Answer => b"answer",
    }
}

/// Appends the front of an element of this name, up to its class.
fn append_start(into: &mut Vec<u8>, name: &[u8], class: &[u8]) -> Result<(), AllocError>
    ensures { OnOk result (into.new.items ≡ into.old.items ++ (60 ∷ (name.now ++ attribute_text (attribute (codes "class") class.now)))) }
{
    into.push(b'<')?;
    into.extend_from_slice(name)?;
    append_attribute(into, b"class", class)
}

/// Appends two attributes whose values are numbers.
fn append_numbers(
    into: &mut Vec<u8>,
    name: &[u8],
    number: u64,
    other_name: &[u8],
    other: u64,
) -> Result<(), AllocError>
    ensures { OnOk result (into.new.items ≡ into.old.items ++ (attribute_text (number_attribute name.now number) ++ attribute_text (number_attribute other_name.now other))) }
{
    append_number(into, name, number)?;
    append_number(into, other_name, other)
}

/// Appends a line.
pub fn append_line(into: &mut Vec<u8>, line: &Line) -> Result<(), AllocError>
    ensures { OnOk result (into.new.items ≡ into.old.items ++ line_text line.now) }
{
    append_start(into, b"line", stroke_word(line.stroke))?;
    append_numbers(into, b"x1", line.x1, b"y1", line.y1)?;
    append_numbers(into, b"x2", line.x2, b"y2", line.y2)?;
    into.extend_from_slice(b"></line>")
}

/// Appends a letter of a text: `&`, `<` and `>` by their names, and a question mark for what no line has.
fn append_letter(into: &mut Vec<u8>, letter: u8) -> Result<(), AllocError>
    ensures { OnOk result (into.new.items ≡ into.old.items ++ escaped_letter letter) }
{
    match letter {
        b'&' => into.extend_from_slice(b"&amp;"),
        b'<' => into.extend_from_slice(b"&lt;"),
        b'>' => into.extend_from_slice(b"&gt;"),
        b' '..=b'~' => {
            into.push(letter)?;
            Ok(())
        }
        _ => into.extend_from_slice(b"?"),
    }
}

/// Appends the letters of a text.
fn append_escaped(into: &mut Vec<u8>, text: &[u8]) -> Result<(), AllocError>
    ensures { OnOk result (into.new.items ≡ into.old.items ++ escaped text.now) }
{
    for letter in text {
        append_letter(into, *letter)?;
    }
    Ok(())
}

/// How wide the ground of a text of so many letters is.
fn ground_width(letters: usize) -> u64
    ensures { result ≡ ground_width letters }
{
    LETTER * letters.min(WIDEST) as u64
}

/// Appends a box of this class.
fn append_box(
    into: &mut Vec<u8>,
    class: &[u8],
    x: u64,
    y: u64,
    width: u64,
    height: u64,
) -> Result<(), AllocError>
    ensures { OnOk result (into.new.items ≡ into.old.items ++ box_text class.now x y width height) }
{
    append_start(into, b"rect", class)?;
    append_numbers(into, b"x", x, b"y", y)?;
    append_numbers(into, b"width", width, b"height", height)?;
    into.extend_from_slice(b"></rect>")
}

/// Appends a ground that is so wide.
fn append_ground(into: &mut Vec<u8>, x: u64, top: u64, width: u64) -> Result<(), AllocError>
    ensures { OnOk result (into.new.items ≡ into.old.items ++ ground_text x top width) }
{
    append_box(into, b"ground", x, top, width, 16)
}

/// Appends the tag that opens a text.
fn append_opening(into: &mut Vec<u8>, style: Style, x: u64, y: u64) -> Result<(), AllocError>
    ensures { OnOk result (into.new.items ≡ into.old.items ++ opening_text style x y) }
{
    append_start(into, b"text", style_word(style))?;
    append_numbers(into, b"x", x, b"y", y)?;
    into.push(b'>')?;
    Ok(())
}

/// Appends the letters of a label.
fn append_letters(
    into: &mut Vec<u8>,
    style: Style,
    x: u64,
    y: u64,
    text: &[u8],
) -> Result<(), AllocError>
    ensures { OnOk result (into.new.items ≡ into.old.items ++ letters_text (label style x y text.now)) }
{
    append_opening(into, style, x, y)?;
    append_escaped(into, text)?;
    into.extend_from_slice(b"</text>")
}

/// Appends a text that begins here, on white.
pub fn append_label(
    into: &mut Vec<u8>,
    style: Style,
    x: u64,
    y: u64,
    text: &[u8],
) -> Result<(), AllocError>
    requires { 12 ≤ y }
    ensures { OnOk result (into.new.items ≡ into.old.items ++ label_text (label style x y text.now)) }
{
    append_ground(into, x, y - 12, ground_width(text.len()))?;
    append_letters(into, style, x, y, text)
}

/// The looks of lines and texts, the head of an arrow, and the ground.
fn looks_text() -> &'static [u8]
    ensures { result.now ≡ looks }
{
    b"<style>.ground{fill:white}line{stroke:#888;stroke-width:1}.life{stroke:#ccc}.down{stroke:white;stroke-width:3;stroke-dasharray:5 4}.call,.message,.stub{marker-end:url(#head)}.message{stroke:#36c;stroke-width:1.5}.stub{stroke:#c33}text{font:12px monospace;white-space:pre}.title{font-weight:bold}.number{fill:#999}.event{fill:#555}.record{fill:#060}.sending{fill:#36c}.answer{font-weight:bold}</style><defs><marker id=\"head\" markerWidth=\"8\" markerHeight=\"8\" refX=\"8\" refY=\"4\" orient=\"auto\" markerUnits=\"userSpaceOnUse\"><path d=\"M0 0L8 4L0 8z\" fill=\"context-stroke\"></path></marker></defs><rect class=\"ground\" width=\"100%\" height=\"100%\"></rect>"
}

/// Appends the tag that opens a picture.
fn append_page(into: &mut Vec<u8>, width: u64, height: u64) -> Result<(), AllocError>
    ensures { OnOk result (into.new.items ≡ into.old.items ++ page_text width height) }
{
    into.extend_from_slice(b"<svg")?;
    append_attribute(into, b"xmlns", b"http://www.w3.org/2000/svg")?;
    append_numbers(into, b"width", width, b"height", height)?;
    into.push(b'>')?;
    Ok(())
}

/// Appends what every picture begins with, on a page that is so large.
pub fn append_front(into: &mut Vec<u8>, width: u64, height: u64) -> Result<(), AllocError>
    ensures { OnOk result (into.new.items ≡ into.old.items ++ front_text width height) }
{
    append_page(into, width, height)?;
    into.extend_from_slice(looks_text())
}

/// Appends what every picture ends with.
pub fn append_end(into: &mut Vec<u8>) -> Result<(), AllocError>
    ensures { OnOk result (into.new.items ≡ into.old.items ++ end_text) }
{
    into.extend_from_slice(b"</svg>")
}
