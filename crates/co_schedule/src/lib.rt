//! Schedule lines, both ways, and the lines of a source.
//!
//! Each event and each head has one line (`one_line`). Reading a line gives what it spells, or the
//! first fault from the left. `Lines` lends the lines of a source one at a time and never holds more
//! than one of them.
//!
//! **What is proved.** Lines both ways: `put_line` writes the one spelling; `read_line` and `read_head` read exactly what is spelled for a head, else name the first
//! fault from the left. `Lines` lends the lines of a source one at a time, exactly, with `Long` and `Many` where the limits are passed, and holds one
//! line at most: no more was ever taken of what lay ahead than a line and its newline may have (`HasMoved`).
#![tactic(auto)]

mod counts;
mod events;
mod fault;
mod fields;
mod form;
mod head;
mod laws;
mod lines;
mod messages;
mod reading;
mod view;
mod word;
mod words;
mod writing;

pub use counts::NodeCounts;
pub use events::{read_event, read_event_fields};
pub use fault::{LineFault, LineKind, LinesFault, Mistake, ReadFault};
pub use form::{Form, MessageForm, form_of, message_form_of};
pub use head::{read_head, read_head_kinds};
pub use laws::one_line;
pub use lines::{Lines, MOST_OF_TEXT};
pub use messages::read_message;
pub use reading::read_line;
pub use view::{LeavesView, LineView, key_of, value_of};
pub use word::{is_text_of, long_number_within, named_within};
pub use words::{Piece, Words};
pub use writing::{
    LONGEST_LINE, append_event, append_head, append_message, append_node, append_number,
    append_word, put_line,
};
