//! The limits of a federation, of the files of its directory of logs, and of a run over it.

/// The most members that a federation has, and a directory of logs: 16.
pub const MOST_MEMBERS: u8 = 16;

/// The most coordinators that a federation has, and a directory of logs: 8.
pub const MOST_COORDINATORS: u8 = 8;

/// The most operations of one transaction at one member that are answered: 1,024.
pub const MOST_OPERATIONS: u16 = 1024;

/// The most bytes that a log file has: 268,435,456.
pub const MOST_LOG_BYTES: u32 = 268_435_456;

/// The most transactions whose numbers stand in the opened logs or are begun in the run over them: 65,536.
pub const MOST_TRANSACTIONS: usize = 65_536;
