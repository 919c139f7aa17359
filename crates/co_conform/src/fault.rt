//! Why a case was not played.
use std::alloc::{AllocError, AllocFailed};

/// Why a case was not played.
#[derive(Drop)]
pub(crate) enum CaseFault {
    /// A setting is none, a word is wrong, or a digit of a file.
    Word,
    /// A file could not be read.
    Files,
    /// There was no memory.
    Memory,
}

impl From<AllocError> for CaseFault {
    fn from(_fault: AllocError) -> CaseFault {
        CaseFault::Memory
    }
}

impl<T: Drop> From<AllocFailed<T>> for CaseFault {
    fn from(_fault: AllocFailed<T>) -> CaseFault {
        CaseFault::Memory
    }
}
