//! Lent batches.

/// A batch behind an open gate, lent from the text that it stands in.
#[derive(Clone, Copy)]
pub struct Batch<'a> {
    /// The place of its records, in bytes from the front of the text.
    pub at: u32,
    /// The bytes of its records: at least one.
    pub records: &'a [u8],
}
