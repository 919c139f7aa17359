//! The maker of trial schedules: from a number, one event after another, so that a trial can be made again from its number alone.
//!
//! What comes next is defined by the words of the generator (`Making`); no clock and no memory has a say in it.
//!
//! **What is proved.** The events of a trial are those that its number defines, by the words of the generator and the messages that were sent.
#![tactic(auto)]

mod clients;
mod maker;
mod network;
mod nodes;
mod words;

pub use maker::Maker;
