//! What every engine promises, whatever it keeps: the answers that the state of an engine gives.
//!
//! An engine stands for a state, by a relation of its own. Each call answers as that state does, and
//! afterwards the engine stands for the state that the call leaves. What engines keep alike stands here too:
//! what undecided transactions read and wrote, and the dump of an engine that writes in place.
//!
//! **What is proved.** The contract of all engines, by the engine state; `play` answers any list of calls as the state does, proved once over the trait.
#![tactic(auto)]

mod answers;
mod command;
mod dumping;
mod engine;
mod known;
mod operations;
mod pinning;
mod player;
mod sets;
mod undecided;

pub use answers::{Dump, Seen};
pub use command::{Answers, Command, Played};
pub use dumping::dump_in_place;
pub use engine::Engine;
pub use operations::{copy_value, writing};
pub use pinning::{Pinned, Pinning};
pub use player::play;
pub use sets::{grow, grown, prepared_sets};
pub use undecided::{Roll, Undecided};
