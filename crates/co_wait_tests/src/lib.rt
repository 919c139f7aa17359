//! Tests of waits and their knots.
#![tactic(auto)]

#[cfg(test)]
mod knots;
