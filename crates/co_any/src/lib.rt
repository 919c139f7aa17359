//! One engine of any kind: the kind is chosen when it is restored.
//!
//! It meets the contract of all engines, for each kind by the engine of that kind. Readers stay at the engine that keeps versions.
//!
//! **What is proved.** The engine of any kind meets the contract of all engines and that of readers that stay: it is the engine of the kind that it is restored
//! with.
#![tactic(auto)]

mod any_engine;

pub use any_engine::AnyEngine;
