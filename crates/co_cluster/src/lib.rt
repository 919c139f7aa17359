//! The nodes of a federation, each on its log: what is asked of one of them, and what they tell.
//!
//! What clients did and which messages were sent is not theirs: a cluster does what it is asked, one action of one node with at most one log
//! write. Its readings are those of the definitions, each in its order; of a node that is down its log tells.
//!
//! **What is proved.**
//!
//! - The nodes of a federation, each on its log, for engines of any type that meets the contract of engines.
//! - For every plain federation that they stand for (`RepresentsCluster`), `member_does`, `coord_does` and `op` do what one node is asked, tell what
//!   the plain step tells, and stand for what it leaves; the directory holds all logs then, or the files have what was stable before, or what the
//!   completed write leaves.
//! - The readings take no memory and are exact for every such federation: whether a node is up, the first node that is down (`first_down`), the first
//!   exchange that can help (`first_exchange`) and the first timer that ends a transaction (`first_timer`), each in the order of settling, whether a
//!   state is quiet (`quiet`), the first exchange that can help one transaction (`exchange_with`) and whether an exchange can be about it at all
//!   (`is_busy`); whether anything is open (`anything_open`, which reads the logs of nodes that are down); where a transaction stands at a member
//!   (`knows`).
//! - `dump` is the dump of a member's engine. Pins stay at each member that is up after a call, and one that goes down or up has none (`PinsStay`);
//!   `pin`, `look` and `unpin` at a member change nothing of the state, and no pins of another member.
//! - The lists are exact too, with everything that the plain federation has and nothing else, each in its order: the open transactions
//!   (`still_open`), the members in doubt (`doubts`) and the held votes (`waits`); and the records that the logs alone give (`durable`), which are
//!   those of the definitions that the law `logs_alone` speaks of.
//! - `still_open` and `durable` read the logs of nodes that are down.
//! - `disarm` takes every armed stop away.
#![tactic(auto)]

mod alone;
mod busy;
mod calls;
mod cluster;
mod coords;
mod disarming;
mod doubting;
mod dues;
mod exchanges;
mod faults;
mod members;
mod noting;
mod opens;
mod pinning;
mod reading;
mod recovering;
mod waiting;
mod walking;

pub use calls::{CoordCall, MemberCall};
pub use cluster::Cluster;
pub use co_wait::{Wait, Waits};
pub use doubting::{Doubt, Doubts};
pub use dues::Due;
pub use exchanges::{Exchange, ExchangeKind};
