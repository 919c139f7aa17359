//! How a command ends.
ghost use Rattle.std.specs.Prelude.{◌≡◌};
ghost use Rattle.co_top.specs.Ends.{code_of, of_world, of_lines, of_line};

use co_base::Txn;
use co_durable::WorldFault;
use co_outside::Spot;
use co_schedule::{LineFault, LineKind, LinesFault};
use std::alloc::{AllocError, AllocFailed};

/// A limit that ended a command.
#[derive(Clone, Copy)]
pub enum LimitKind {
    /// The line is long: one of a schedule has more than 8,192 bytes, one of a transcript that is judged more than 16,777,216.
    Line {
        /// The number of the line, counted from 1.
        line: u32,
    },
    /// A byte follows the last line that there may be: the 262,144th of a schedule, the 16,777,216th of a transcript that is judged.
    Lines,
    /// There are, or would be, more than 65,536 transactions.
    Transactions,
    /// The log file has, or would have, more than 268,435,456 bytes.
    Log {
        /// Which file.
        spot: Spot,
    },
}

/// How a command ended.
#[derive(Clone, Copy)]
pub enum Status {
    /// The schedule was read to its end, and every line was done; or the text of the command was written whole, and tells of nothing that is not as it
    /// should be.
    Done,
    /// The words are no command.
    Usage,
    /// The line is the first one outside the grammar.
    Schedule {
        /// The number of the line, counted from 1.
        line: u32,
        /// What is wrong with it.
        kind: LineKind,
    },
    /// The source failed.
    Read,
    /// The sink of the transcript, or of the text of the command, failed.
    Write,
    /// The directory of logs failed.
    Device {
        /// At which file; `m1.a` where the directory could not be entered.
        spot: Spot,
    },
    /// A log file that was read again is not what was kept of it.
    Differs {
        /// Which file.
        spot: Spot,
        /// The first place that differs, in bytes from the front.
        at: u32,
        /// The byte that was kept, where there is one.
        kept: Option<u8>,
        /// The byte that was read, where there is one.
        read: Option<u8>,
    },
    /// A log file has records, and the run is not resumed.
    InUse {
        /// Which file.
        spot: Spot,
    },
    /// A log file is no log.
    BadLog {
        /// Which file.
        spot: Spot,
        /// The place of its first fault, in bytes from the front.
        at: u32,
    },
    /// A limit was met.
    Limit(LimitKind),
    /// There was no memory.
    Memory,
    /// A log that is to be resumed is of version 1.
    OldLog {
        /// Which file.
        spot: Spot,
    },
    /// A committed transaction of the transcript was not answered as in the serial run; this was written.
    NotSerial {
        /// The first one in the order of the decisions.
        txn: Txn,
        /// The number of the event of its first operation that differs.
        line: u32,
    },
    /// The line of the transcript is no item or breaks its shape; or it is the line past the end, where the last group of lines is not whole.
    Transcript {
        /// The number of the line, counted from 1.
        line: u32,
    },
}

impl Status {
    /// The exit status that stands for it.
    pub fn code(&self) -> u8
        ensures { result ≡ code_of self.now }
    {
        match self {
            Status::Done => 0,
            Status::Usage => 2,
            Status::Schedule { .. } => 3,
            Status::Read => 4,
            Status::Write => 5,
            Status::Device { .. } => 6,
            Status::Differs { .. } => 7,
            Status::InUse { .. } => 8,
            Status::BadLog { .. } => 9,
            Status::Limit(_) => 10,
            Status::Memory => 11,
            Status::OldLog { .. } => 13,
            Status::NotSerial { .. } => 14,
            Status::Transcript { .. } => 15,
        }
    }
}

impl From<AllocError> for Status {
    ghost from_gives = { λ _ e. e ≡ Memory };

    ghost use Rattle.co_top.specs.declared.status.Status.TheVariants.{Memory};

    fn from(_e: AllocError) -> Status {
        Status::Memory
    }
}

impl<T: Drop> From<AllocFailed<T>> for Status {
    ghost from_gives = { λ _ e. e ≡ Memory };

    ghost use Rattle.co_top.specs.declared.status.Status.TheVariants.{Memory};

    fn from(_e: AllocFailed<T>) -> Status {
        Status::Memory
    }
}

/// The status of a fault of the federation.
pub(crate) fn of_world(fault: WorldFault) -> Status
    ensures { result ≡ of_world fault }
{
    match fault {
        WorldFault::Device { spot } => Status::Device { spot },
        WorldFault::Differs {
            spot,
            at,
            kept,
            read,
        } => Status::Differs {
            spot,
            at,
            kept,
            read,
        },
        WorldFault::InUse { spot } => Status::InUse { spot },
        WorldFault::Bad { spot, at } => Status::BadLog { spot, at },
        WorldFault::Full { spot } => Status::Limit(LimitKind::Log { spot }),
        WorldFault::Count => Status::Limit(LimitKind::Transactions),
        WorldFault::Old { spot } => Status::OldLog { spot },
        WorldFault::Memory => Status::Memory,
    }
}

/// The status of a reader of lines that gave none.
pub(crate) fn of_lines(fault: LinesFault) -> Status
    ensures { result ≡ of_lines fault }
{
    match fault {
        LinesFault::Read => Status::Read,
        LinesFault::Long { line } => Status::Limit(LimitKind::Line { line }),
        LinesFault::Many => Status::Limit(LimitKind::Lines),
        LinesFault::Memory => Status::Memory,
    }
}

/// The status of a line that was refused.
pub(crate) fn of_line(line: u32, fault: LineFault) -> Status
    ensures { result ≡ of_line line fault }
{
    match fault {
        LineFault::Word => Status::Schedule {
            line,
            kind: LineKind::Word,
        },
        LineFault::Number => Status::Schedule {
            line,
            kind: LineKind::Number,
        },
        LineFault::Name => Status::Schedule {
            line,
            kind: LineKind::Name,
        },
        LineFault::Extra => Status::Schedule {
            line,
            kind: LineKind::Extra,
        },
        LineFault::Head => Status::Schedule {
            line,
            kind: LineKind::Head,
        },
        LineFault::Long => Status::Limit(LimitKind::Line { line }),
        LineFault::Memory => Status::Memory,
    }
}
