//! Where reading ends before its field does.

/// Why a field could not be read.
#[derive(Clone, Copy)]
pub enum Miss {
    /// The bytes end before the field does.
    Short,
    /// The first byte of a record is no kind.
    Kind,
    /// A whole field or element is outside its set.
    Outside {
        /// How many bytes stand from its place to the end.
        left: usize,
    },
}
