//! Pictures of transcripts.
//!
//! `draw` reads the items of a transcript and writes their picture. A picture has a lane for each client and each node, and a row for each
//! item, in their order (`each_item_is_drawn_once`). An arrow leads from the latest sending of a message to its arrival
//! (`arrows_come_from_the_latest_sending`). All of it lies within the page (`pictures_lie_within_the_page`), and its text is well formed
//! (`co_svg`).
#![tactic(auto)]

mod column;
mod columns;
mod course;
mod drawing;
mod entry;
mod fault;
mod lane;
mod laws;
mod note;
mod outcome;
mod reading;
mod stand;

pub use column::Column;
pub use course::{Course, Home, same_node};
pub use drawing::drawing_of;
pub use entry::{Entry, Link, Role, line_of, told_of};
pub use fault::DrawFault;
pub use lane::{Lane, receiver, sender};
pub use laws::{
    arrows_come_from_the_latest_sending, each_item_is_drawn_once, pictures_lie_within_the_page,
};
pub use outcome::{Outcome, draw, note_outcome};
pub use reading::{MOST_LINES, Reader, read_items};
pub use stand::Stand;
