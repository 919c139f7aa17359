//! Cooperative termination: a member in doubt asks the other members, while its coordinator is down, and takes the verdict that one of
//! them knows (Skeen, Nonblocking commit protocols, SIGMOD 1981; Bernstein, Hadzilacos and Goodman 1987).
//!
//! **What is proved.**
//!
//! - `consult` tells what the table says, does what it says, and gives the items with their numbers (`ConsultsAs`); it fails only as a step of the
//!   federation does, and the files have then what one of its happenings left (`IsCutAlong`). `consult_others` asks one member after the other,
//!   ascending, until one tells a verdict (`AsksAs`).
//! - Whatever doubts take their turns, each verdict is true where it is handed (`resolutions_are_true`), listed doubts name the coordinators of their
//!   transactions (`doubts_name_homes`), and of doubts that are listed once, a doubt of a member that is up at the end remains exactly where at its
//!   turn no other member could tell a verdict (`doubts_remain_exactly`).
#![tactic(auto)]

mod asking;
mod consulting;
mod laws;
mod turn;

pub use co_law_coop::Told;
pub use consulting::{Consulted, consult};
pub use laws::{doubts_name_homes, doubts_remain_exactly, resolutions_are_true};
pub use turn::consult_others;
