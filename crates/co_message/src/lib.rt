//! What happens in a federation, and what it answers: the messages between nodes, the events that a
//! schedule lists, the answers of nodes and the items of a transcript.
//!
//! **What is proved.** `Wire` is the set of sent messages in the order of first sending; `Unsent` exactly where a message was never sent.
#![tactic(auto)]

mod answer;
mod event;
mod item;
mod message;
mod wire;

pub use answer::{Answer, Cause};
pub use event::Event;
pub use item::{Item, ItemKind, Items};
pub use message::{Message, Messages};
pub use wire::{Wire, WireFault};
