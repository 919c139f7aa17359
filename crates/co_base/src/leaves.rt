//! What a crash leaves of the writes that were not yet stable.
use crate::sequence::Sequence;

/// A list of bytes.
pub type Bytes = Sequence<u8>;

/// The choice of one of the images that a disk may have after a crash.
#[derive(Drop)]
pub enum Leaves {
    /// The stable bytes alone.
    Old,
    /// Every pending write, laid in order.
    New,
    /// These bytes at the touched positions, in ascending order.
    Filled(Bytes),
}

/// An armed stop: the next log write ends in one of its device calls.
#[derive(Drop)]
pub struct Stop {
    /// The number of that device call, counted from 1.
    pub call: u8,
    /// Which image of the file is left.
    pub leaves: Leaves,
}
