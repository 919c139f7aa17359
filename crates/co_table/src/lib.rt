//! Tables of transcripts.
//!
//! `table` reads the items of a transcript and writes their table, in Markdown: a row for each event, a column for each node. A cell says what the node did:
//! the records that became stable there, the messages that it sent, and its answer. Each item is told once, in its place
//! (`each_item_is_told_once`), and no letter of an item ends a cell (`cells_are_well_formed`). `show` is what `co_draw` does: a picture without
//! words, a table with the word `table`.
#![tactic(auto)]

mod asked;
mod entry;
mod laws;
mod outcome;
mod place;
mod telling;
mod words;

pub use asked::{Form, show};
pub use entry::Entry;
pub use laws::{cells_are_well_formed, each_item_is_told_once};
pub use outcome::table;
pub use place::Place;
pub use telling::table_of;
