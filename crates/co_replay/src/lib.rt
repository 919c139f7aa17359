//! The text of items. What a schedule and a transcript are as a whole is defined in `specs/`.
//!
//! **What is proved.** Events and items are written as their one text. Which lines are a schedule's, and which items a run's, is defined here.
#![tactic(auto)]

mod texts;

pub use texts::{put_event, put_items};
