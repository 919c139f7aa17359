//! What the logs of a whole federation tell: its durable records, read and written as text.
//!
//! **What is proved.** `read_durable` and `read_directory` give, and `put_records` writes, the durable records that the bytes of the log files say, members and keys
//! ascending, and change no file; the first fault is named in the order of nodes, what is no log before what a log may not hold. Proved over homes
//! that tell their bytes; such a directory has one list of durable records or one fault of its files, and not both.
#![tactic(auto)]

mod fault;
mod laws;
mod laying;
mod nodes;
mod reading;
mod records;
mod recovering;
mod text;

pub use fault::WorldFault;
pub use laws::directories_are_read_once;
pub use laying::durable_rows;
pub use records::{read_directory, read_durable};
pub use recovering::{Numbers, numbers_from};
pub use text::put_records;
