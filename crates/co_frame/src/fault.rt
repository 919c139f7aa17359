//! Why a text is no log text.
use thiserror::Error;

/// What is wrong with a text.
#[derive(Clone, Copy, Debug, Error)]
pub enum FrameFault {
    /// Behind the open gate at the place `at` stands no whole batch with a gate behind it: its length is
    /// 0, or the text ends before the batch or before that gate.
    #[error("no whole batch stands behind the gate at {at}")]
    Broken {
        /// The place of the gate, in bytes from the front of the text.
        at: u32,
    },
}
