//! Gates and batches: what stands in a log file, whatever its records say.
//!
//! A batch counts only behind an open gate, and a gate is opened only once its batch is stable, so a
//! file holds its old batches or its old ones and the new one (the commit of a log write as one byte).
//!
//! **What is proved.** A walk over a log file lends exactly the batches of its text and stops, or is broken, exactly where the text does. A batch behind a gate that is
//! not open changes nothing; opening the gate adds exactly that batch. What the image of a gate says of its batch, and of a spare file, is computed
//! as defined.
#![tactic(auto)]

mod batch;
mod batches;
mod fault;
mod gate;
mod laws;
mod put;

pub use batch::Batch;
pub use batches::{Batches, CLOSED_GATE, OPEN_GATE};
pub use fault::FrameFault;
pub use gate::{batch_is_stable, begins_closed, closes_spare};
pub use laws::{closed_gate_hides, one_reading, open_gate_adds, passed_come_first};
pub use put::put_batch;
