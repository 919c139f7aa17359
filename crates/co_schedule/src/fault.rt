//! Why a line was refused.
ghost use Rattle.std.specs.Prelude.{◌≡◌};

use std::alloc::{AllocError, AllocFailed};
use thiserror::Error;

/// What is wrong with a line that is outside the grammar.
#[derive(Clone, Copy)]
pub enum LineKind {
    /// A form or a fixed word is none of those that may stand there, a word is empty, or a word is
    /// missing.
    Word,
    /// A number is outside its range, or spelled otherwise than in its one way.
    Number,
    /// A node is not in the head, a key or a value is none, or a range ends below its start.
    Name,
    /// Something stands behind the last word.
    Extra,
    /// The first line is no head.
    Head,
}

/// Why a line was not read or not written.
#[derive(Debug, Drop, Error)]
pub enum LineFault {
    /// A form or a fixed word is none of those that may stand there, a word is empty, or a word is
    /// missing.
    #[error("a word is missing or none of those that may stand there")]
    Word,
    /// A number is outside its range, or spelled otherwise than in its one way.
    #[error("a number is outside its range")]
    Number,
    /// A node is not in the head, a key or a value is none, or a range ends below its start.
    #[error("a name is none of those that may stand there")]
    Name,
    /// Something stands behind the last word.
    #[error("something stands behind the last word")]
    Extra,
    /// The line has more than 8,192 bytes.
    #[error("the line is long")]
    Long,
    /// The first line is no head.
    #[error("the first line is no head")]
    Head,
    /// There was no memory.
    #[error("out of memory")]
    Memory,
}

impl From<AllocError> for LineFault {
    ghost use Rattle.co_schedule.specs.declared.fault.LineFault.TheVariants.{Memory};

    ghost from_gives = { λ _ e. e ≡ Memory };

    fn from(_e: AllocError) -> LineFault {
        LineFault::Memory
    }
}

impl<T: Drop> From<AllocFailed<T>> for LineFault {
    ghost use Rattle.co_schedule.specs.declared.fault.LineFault.TheVariants.{Memory};

    ghost from_gives = { λ _ e. e ≡ Memory };

    fn from(_e: AllocFailed<T>) -> LineFault {
        LineFault::Memory
    }
}

/// Why a reader of lines gave no line.
#[derive(Debug, Drop, Error)]
pub enum LinesFault {
    /// The source failed.
    #[error("the source failed")]
    Read,
    /// This line, counted from 1, has more bytes than a line may have.
    #[error("line {line} is long")]
    Long { line: u32 },
    /// A byte follows the last line that there may be.
    #[error("there are too many lines")]
    Many,
    /// There was no memory.
    #[error("out of memory")]
    Memory,
}

impl From<AllocError> for LinesFault {
    ghost use Rattle.co_schedule.specs.declared.fault.LinesFault.TheVariants.{Memory};

    ghost from_gives = { λ _ e. e ≡ Memory };

    fn from(_e: AllocError) -> LinesFault {
        LinesFault::Memory
    }
}

/// What is wrong with a line, and how many bytes of the line there are from that place on.
#[derive(Clone, Copy)]
pub struct Mistake {
    /// What is wrong.
    pub kind: LineKind,
    /// The count of bytes from the word that is wrong or too much to the end of the line, 0 where a
    /// word is missing.
    pub left: usize,
}

/// Why something that takes memory was not read.
#[derive(Drop)]
pub enum ReadFault {
    /// The line has a mistake.
    Mistake(Mistake),
    /// There was no memory.
    Memory,
}

impl From<Mistake> for ReadFault {
    ghost use Rattle.co_schedule.specs.declared.fault.ReadFault.TheVariants as read;

    ghost from_gives = { λ m e. e ≡ read.Mistake m };

    fn from(mistake: Mistake) -> ReadFault {
        ReadFault::Mistake(mistake)
    }
}

impl From<AllocError> for ReadFault {
    ghost use Rattle.co_schedule.specs.declared.fault.ReadFault.TheVariants.{Memory};

    ghost from_gives = { λ _ e. e ≡ Memory };

    fn from(_e: AllocError) -> ReadFault {
        ReadFault::Memory
    }
}
