//! Why no record stands at the front of some bytes.
use thiserror::Error;

/// What is wrong at the front of the bytes: the first fault from the left.
#[derive(Clone, Copy, Debug, PartialEq, Eq, Error)]
pub enum RecordFault {
    /// The bytes end before the record does, and every field and element that is whole is in its set.
    #[error("the bytes end before the record does")]
    Short,
    /// The first byte is no kind.
    #[error("the first byte is no kind of record")]
    Kind,
    /// A field or an element behind the kind is whole and outside its set.
    #[error("the field at {at} is outside its set")]
    Field {
        /// The place of the first such one, in bytes from the front: of a number, a length, a count, a tag
        /// or an element that breaks the order, its own first byte; of a letter, the letter; of a lower
        /// bound that is above its upper one, the first byte of the upper one.
        at: u32,
    },
}
