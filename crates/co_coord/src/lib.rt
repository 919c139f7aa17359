//! One coordinator on its log, and what it does in each event.
//!
//! What it does is data first: a plan, by the entry of the transaction in its table. A plan says what the log is to get, what becomes of the
//! entry, what is answered and what is sent. It is made whole before anything is written, so that all memory that an event wants is taken
//! before its log write. Then it is carried out, and a stopped write leaves the coordinator down. A restart finds what the log tells: the commits
//! that have no end. The rules are those of two-phase commit with presumed abort (Mohan, Lindsay and Obermarck, *Transaction Management in the
//! R\* Distributed Database Management System*, TODS 1986).
//!
//! **What is proved.**
//!
//! - The plan of each event of a coordinator is the one that is defined by the entry of its transaction, and every event of the definitions is its
//!   plan, carried out: what the log gets, and the change of the table (`plans_are_steps`).
//! - A coordinator on its log: for every plain coordinator that it stands for (`RepresentsCoord`), `begin`, `commit`, `abort`, `deliver`, `timer`,
//!   `resend`, `checkpoint`, `arm`, `disarm`, `crash` and `restart` answer, send and tell what the step of the definitions does, and leave it
//!   standing for the state after, however a log write ends (`did`); `attach` gives one that stands for the plain coordinator that the log tells
//!   (`opened`); a log write leaves the directory as its answer says (`answered`) and the files of other nodes (`rest`); the readings (`up`, `holds`,
//!   `stage`, `open_after`, `lacks`) are those of the table, and `past` is what its log tells, also while it is down.
//! - A restart meets no log that is not allowed.
#![tactic(auto)]

mod calls;
mod checkpoint;
mod client;
mod coord;
mod deciding;
mod delivery;
mod laws;
mod messages;
mod opening;
mod plan;
mod reading;
mod step;
mod timers;

pub use coord::Coord;
pub use laws::plans_are_steps;
pub use plan::{Change, Plan};
pub use reading::Stage;
pub use step::CoordStep;
