//! The federation on its directory of logs: members, coordinators, what clients did, and the messages that were sent.
//!
//! One call of `World::step` does the event of one schedule line: one action of one node, with at most one log write. A refusal of the session
//! or of the wire comes first, then that of a node that is down, then the node's own answer.
//!
//! **What is proved.**
//!
//! - The federation on its logs.
//! - `attach` gives one that stands for the plain federation over the logs that were found, and the items that opening tells (`opened`, `held`), or
//!   the refusals of `open_nodes`, each exactly where its cause is, over files that are told and unless the directory fails or there is no memory
//!   (`exact`).
//! - `step` does each event of a schedule line: for every plain federation that it stands for (`RepresentsWorld`) whose nodes are whole and can be
//!   written, it is answered as the plain step is (`answered`): it tells the items of the plain step, stands for the state after it, with sessions,
//!   messages, armed stops, crashes and restarts, and the directory holds the logs; or after a fault the files have what was stable before the event,
//!   or what the event leaves, or what it leaves where no stop is armed, the directory failed as the fault says, and a file is said to be too long
//!   only where the event, were no stop armed, would leave a log whose records are too long for a file, or that has no next generation.
//! - `Count` comes exactly where the event begins a transaction whose number is neither begun nor used, and 65,536 are (`limit`, a definition over
//!   the plain federation; `count`, by what is kept of the clients).
//! - All readings and lists of the nodes are those of `co_cluster`; beside them it tells what a client carries at a member (`carried`), which
//!   operations of a transaction were answered (`operations`), how many transactions were begun (`begun`) and which node decides one (`decider`).
//! - Pins stay at each member that is up after an event, and one that goes down or up has none (`PinsStay`); `pin`, `look` and `unpin` at a member
//!   are those of `co_cluster`, and so is `dump`.
//! - `hand` gives a member a verdict and is the step of the definitions for it, with all that is said of `step`.
#![tactic(auto)]

mod attaching;
mod clients;
mod disarming;
mod events;
mod handing;
mod listing;
mod pinning;
mod reading;
mod stepping;
mod telling;
mod world;

pub use world::World;
