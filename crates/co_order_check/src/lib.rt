//! Checkers of what is said of the orders of committed transactions: that they run serially in one, and that they do so in none.
//!
//! A refutation carries its ways as data, so that no checker searches: each read that has one source, each step from version to version, and
//! each conclusion from what was concluded before (Papadimitriou, *The serializability of concurrent database updates*, 1979; Adya, Liskov
//! and O'Neil, *Generalized isolation level definitions*, 2000, on reads, writes and the order of versions).
#![tactic(auto)]

mod fact;
mod order;
mod path;
mod reading;
mod reads;
mod record_id;
mod refutation;
mod repeat;
mod rules;
mod torn;

pub use fact::Fact;
pub use order::order_holds;
pub use path::Path;
pub use reading::Reading;
pub use record_id::RecordId;
pub use refutation::{Refutation, refutation_holds};
pub use repeat::{Repeat, repeat_holds};
pub use rules::Step;
pub use torn::{Torn, TornHow};
