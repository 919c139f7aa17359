//! Tests of the index of undecided transactions.
#![tactic(auto)]

#[cfg(test)]
mod chain;
#[cfg(test)]
mod histories;
