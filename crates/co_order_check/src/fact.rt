//! What is known of every order.

/// One transaction stands before another in every order.
#[derive(Clone, Copy)]
pub struct Fact {
    /// The place of the first.
    pub before: usize,
    /// The place of the other.
    pub behind: usize,
}
