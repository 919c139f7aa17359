//! What the clients did in this run: which transactions they began, where each is decided, what was
//! answered to them, and which ones were asked to end.
//!
//! A number is begun once, and never where it stands in an opened log. A contract sees `Sessions` as a plain
//! table of sessions.
//!
//! **What is proved.** Who may begin, at a coordinator or at the one member that a local transaction visits; who may act at a member, or ask for the end, with the node
//! that decides, exactly as the definitions of leave say; answered operations, counts and participants.
#![tactic(auto)]

mod client;
mod fault;
mod sessions;

pub use fault::SessionFault;
pub use sessions::Sessions;
