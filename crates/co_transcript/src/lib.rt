//! The items of a transcript, both ways.
//!
//! Each item has one text (`one_text`). Reading a line gives the item whose text it is, or the place
//! of the first fault from the left.
//!
//! **What is proved.** `put_item` writes the one spelling of an item; `read_item` reads exactly what is spelled, else names the place of the first fault.
#![tactic(auto)]

mod fault;
mod fields;
mod form;
mod laws;
mod reading;
mod writing;

pub use fault::ItemFault;
pub use form::{AnswerForm, ToldForm};
pub use laws::one_text;
pub use reading::read_item;
pub use writing::{append_reply, put_item};
