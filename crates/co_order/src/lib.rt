//! Whether the committed transactions of a history run serially in some order, or why in none.
//!
//! What two lines force, and what follows where the versions of a record stand in blocks, is searched (Papadimitriou, *The serializability of
//! concurrent database updates*, 1979: no search is fast on every history; Kingsbury and Alvaro, *Elle*, 2020; Tan and others, *Cobra*, 2020;
//! Huang and others, *PolySI*, 2023). No answer rests on the search: each is one that a checker took.
#![tactic(auto)]

mod answer;
mod blocks;
mod build;
mod closure;
mod cycle;
mod digest;
mod edges;
mod facts;
mod forced;
mod graph;
mod judge;
mod knot;
mod line;
mod lists;
mod lookups;
mod names;
mod odd;
mod passing;
mod reading;
mod replies;
mod solve;
mod sorting;
mod source;
mod tell;
mod text;
mod web;

pub use answer::{Answer, Told};
pub use judge::judge_order;
pub use solve::answer_to;
