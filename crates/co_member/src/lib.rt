//! One member on its log, and what it does in each event.
//!
//! What it does is data first: a plan, by where the transaction stands and by the ballot on it. A plan says what the log is to get, what
//! becomes of the transaction, what is answered and what is sent. It is made whole before anything is written, and carried out with its change
//! in memory first, so that all memory that an event wants is taken before its log write; a stopped write leaves the member down. The record of a vote
//! yes is forced from the sets that the member keeps, of which nothing is copied, and so are the two records of a local commit, which are spelled
//! out before it is installed. The rules
//! are those of commitment ordering (Raz, *The principle of commitment ordering*, VLDB 1992) and of two-phase commit with presumed abort (Mohan, Lindsay
//! and Obermarck, *Transaction Management in the R\* Distributed Database Management System*, TODS 1986).
//!
//! **What is proved.**
//!
//! - The same of a member, over every engine that meets the contract of all engines: each event of the definitions is its plan, carried out
//!   (`plans_are_steps`).
//! - For every plain member that it stands for (`RepresentsMember`), `deliver`, `vote`, `timer`, `ask`, `local_commit`, `local_abort`, `checkpoint`,
//!   `arm`, `disarm`, `crash` and `restart` answer, send and tell what the step of the definitions does, and leave it standing for the state after,
//!   however a log write ends (`did`); so does `op`, of a transaction that has neither voted nor been installed.
//! - A log write leaves the directory as its answer says (`answered`), and the files of other nodes (`rest`); `attach` gives a member that stands for
//!   what its log tells (`opened`); the readings (`up`, `knows`, `open_after`, `ballot_of`, `coord_of`, `dump`) are those of the state, and `past` is what
//!   its log tells, also while it is down.
//! - Pins stay at each event while the member stays up; one that goes down loses them, and a restart brings none back (`PinsStay`). Over an engine
//!   that pins, `pin`, `look` and `unpin` are those of the engine, and change nothing of the state.
//! - A restart meets no log that is not allowed.
#![tactic(auto)]

mod ballots;
mod calls;
mod checkpoint;
mod deciding;
mod delivery;
mod laws;
mod local;
mod member;
mod operation;
mod pinning;
mod plan;
mod reading;
mod restart;
mod running;
mod step;
mod timers;

pub use laws::plans_are_steps;
pub use member::Member;
pub use plan::{Change, Plan};
pub use running::Running;
pub use step::MemberStep;
