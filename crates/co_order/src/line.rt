//! Lines of what is told of a refutation.

/// A line of what is told of a refutation.
#[derive(Drop)]
pub(crate) enum Line {
    /// A cycle of these transactions.
    Cycle(Vec<usize>),
    /// The one stands before the other, by these two lines.
    Before(usize, usize, u32, u32),
    /// There are two cases.
    Cases,
    /// In the first one the one stands before the other.
    Either(usize, usize),
    /// In the second one.
    Or(usize, usize),
}
