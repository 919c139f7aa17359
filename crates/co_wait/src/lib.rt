//! Who waits for whom, and how these waits hang together: in an order, or in a knot.
//!
//! A wait says that a vote is held, and by which transaction. Where every chain of waits ends, the transactions stand in an order, each with the
//! length of its longest chain; else some close to a cycle, and one of them is told, always the same one. The chains are gone through depth
//! first (Tarjan, *Depth-first search and linear graph algorithms*, 1972), each wait once.
//!
//! **What is proved.**
//!
//! - `untangle` gives the knot of waits in their order (`IsKnot`), and fails only where there is no memory. Waits have one knot
//!   (`waits_have_one_knot`).
//! - `knot_holds` tests exactly that a knot holds of waits (`KnotHolds`), and the knot of waits does (`knots_hold`). Where an order holds, no list of
//!   waits goes round (`orders_have_no_cycle`).
//! - `waits_text` is the text of waits and a knot (`waits_text`), and `are_ascending` tests exactly what `untangle` asks of waits.
#![tactic(auto)]

mod holding;
mod knot;
mod laws;
mod ordering;
mod ranking;
mod search;
mod text;
mod turning;
mod untangling;
mod wait;

pub use holding::knot_holds;
pub use knot::{Knot, Legs, Rank, Ranks};
pub use laws::{knots_hold, orders_have_no_cycle, waits_have_one_knot};
pub use ordering::are_ascending;
pub use text::waits_text;
pub use untangling::untangle;
pub use wait::{Wait, Waits};
