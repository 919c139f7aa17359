//! The call.
ghost use Rattle.std.specs.Prelude.{◌≡◌, ◌≤◌, ℕ, List, Some, IfOk, IfErr, IsErrOf};
ghost use Rattle.co_outside.specs.Faults.{HasRisen};
ghost use Rattle.co_snap.specs.Looks.{HasSeen, numbered, run_status};
ghost use Rattle.co_top.specs.Following.{IsOfSchedule, IsUnreached};

use co_any::AnyEngine;
use co_outside::{Source, Spot};
use co_schedule::LineKind;
use co_top::{Ask, LimitKind, Looked, Status};
use std::alloc::Global;

/// Why it is not known what the reader sees.
#[derive(Clone, Copy)]
pub enum LookFault {
    /// The line is the first one outside the grammar.
    Schedule {
        /// The number of the line, counted from 1.
        line: u32,
        /// What is wrong with it.
        kind: LineKind,
    },
    /// The source failed.
    Read,
    /// The line has more than 8,192 bytes.
    Line {
        /// The number of the line, counted from 1.
        line: u32,
    },
    /// A byte follows the 262,144th line.
    Lines,
    /// There would be more than 65,536 transactions.
    Transactions,
    /// The log file would have more than 268,435,456 bytes.
    Log {
        /// Which file.
        spot: Spot,
    },
    /// There was no memory.
    Memory,
}

/// The fault that ended the schedule.
fn fault_of(status: Status) -> LookFault
    requires { IsOfSchedule status }
    ensures { run_status result ≡ status }
{
    match status {
        Status::Schedule { line, kind } => LookFault::Schedule { line, kind },
        Status::Read => LookFault::Read,
        Status::Limit(LimitKind::Line { line }) => LookFault::Line { line },
        Status::Limit(LimitKind::Lines) => LookFault::Lines,
        Status::Limit(LimitKind::Transactions) => LookFault::Transactions,
        Status::Limit(LimitKind::Log { spot }) => LookFault::Log { spot },
        Status::Memory => LookFault::Memory,
        _ => unreachable!(),
    }
}

/// The same question, where a member 0 is asked for by the number 255: no federation has either.
fn numbered(ask: Ask) -> Ask
    ensures { result ≡ numbered ask }
{
    Ask {
        member: if ask.member == 0 { u8::MAX } else { ask.member },
        line: ask.line,
        range: ask.range,
    }
}

/// Replays the schedule of the source over fresh logs in a directory in memory, and tells what a reader comes to that asks for the records of a range at a member, as the member has
/// installed them behind a line. Lines are counted from 1, the head; the line is at least 1.
///
/// The first of these comes that holds: `NoMember`, where the head has no such member; `Unopened`, where the schedule ends before the line; `NotMv`, where the engine of the member keeps
/// no versions; `Down`, where the member is down behind the line; `Lost`, where it is down behind a later one. Else `Rows` tells the records.
///
/// `Schedule`, `Line`, `Lines`, `Transactions` and `Log` come by the causes that `run` has for them, `Read` only where the source failed, and `Memory` only where there was none.
pub fn look_after<S: Source>(alloc: Global, source: &mut S, ask: Ask) -> Result<Looked, LookFault>
    requires line { 1 ≤ ask.line }
    ensures looked { (input : List ℕ) → S.left source.old ≡ Some input → IfOk result (HasSeen input ask) }
    ensures unreached { (input : List ℕ) → S.left source.old ≡ Some input → IfErr result (λ fault. IsUnreached input (run_status fault)) }
    ensures read { IsErrOf result LookFault.Read → HasRisen (S.faults source.old) (S.faults source.new) }
    ensures quiet { (IsErrOf result LookFault.Read → ⊥) → S.faults source.new ≡ S.faults source.old }
{
    match co_top::look_after::<AnyEngine, S>(alloc, source, numbered(ask)) {
        Ok(seen) => Ok(seen),
        Err(status) => Err(fault_of(status)),
    }
}
