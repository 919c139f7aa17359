//! How a log write ends.

use co_base::Leaves;

/// How a log write ends.
#[derive(Drop)]
pub enum Outcome {
    /// Every device call was done.
    Completes,
    /// The node was stopped in this device call, 1 to 4, and this image of the file is left.
    StopsAt(u8, Leaves),
}
