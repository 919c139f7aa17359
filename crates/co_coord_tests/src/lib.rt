//! What a coordinator answers to messages that no run brings it: each finds its transaction where no such message can find it.
#![tactic(auto)]

#[cfg(test)]
mod calls;
#[cfg(test)]
mod cells;
#[cfg(test)]
mod fits;
#[cfg(test)]
mod opened;
