//! The records of a log.
//!
//! **What is proved.** In each of two versions a record has one spelling, and no spelling begins another; the two differ in the version byte of a header and in the
//! greatest length of a value. `put_record` appends that of version 2 and only it; `read_record` gives exactly the record of the version that is
//! asked for that stands at the front, else the first fault from the left with its place.
#![tactic(auto)]

mod element;
mod fault;
mod field;
mod format;
mod laws;
mod lent;
mod list;
mod marks;
mod miss;
mod order;
mod part;
mod put;
mod read;
mod record;
mod view;
mod views;
mod walk;

pub use fault::RecordFault;
pub use format::{NEWEST_VERSION, OLDEST_VERSION};
pub use laws::one_spelling;
pub use lent::LentPrepare;
pub use marks::mark_of;
pub use put::{put_prepare, put_record};
pub use read::read_record;
pub use record::Record;
pub use view::RecordView;
pub use views::{Views, text_version};
pub use walk::{ChangeWalk, MemberWalk, PairWalk, TxnWalk};
