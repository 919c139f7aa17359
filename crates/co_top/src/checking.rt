//! A transcript is judged.
ghost use Rattle.std.specs.Prelude.{◌≡◌, ℕ, List, Some};
ghost use Rattle.co_outside.specs.Faults.{HasRisen};
ghost use Rattle.co_top.specs.Checking.{status_of_finding, status_of_check, IsCheckEnd, IsOfCheck};

use crate::status::{LimitKind, Status};
use co_check::{Finding, VerdictFault, write_check};
use co_outside::{Sink, Source};
use std::alloc::Global;

/// The status that stands for what was found.
fn status_of_finding(found: &Finding) -> Status
    ensures { result ≡ status_of_finding found.now }
{
    match found {
        Finding::Serial => Status::Done,
        Finding::NotSerial { txn, line } => Status::NotSerial {
            txn: *txn,
            line: *line,
        },
    }
}

/// The status that stands for what checking came to.
fn status_of_check(written: Result<Finding, VerdictFault>) -> Status
    ensures { result ≡ status_of_check written }
{
    match written {
        Ok(found) => status_of_finding(&found),
        Err(VerdictFault::Read) => Status::Read,
        Err(VerdictFault::Write) => Status::Write,
        Err(VerdictFault::Text { line }) => Status::Transcript { line },
        Err(VerdictFault::Long { line }) => Status::Limit(LimitKind::Line { line }),
        Err(VerdictFault::Many) => Status::Limit(LimitKind::Lines),
        Err(VerdictFault::Memory) => Status::Memory,
    }
}

/// Judges the transcript of the source, and writes the verdict.
pub(crate) fn check<S: Source, K: Sink>(alloc: Global, source: &mut S, out: &mut K) -> Status
    ensures end { (input held : List ℕ) → S.left source.old ≡ Some input → K.told out.old ≡ Some held → IsCheckEnd input held (K.told out.new) result }
    ensures own { IsOfCheck result }
    ensures read { result ≡ Status.Read → HasRisen (S.faults source.old) (S.faults source.new) }
    ensures write { result ≡ Status.Write → HasRisen (K.faults out.old) (K.faults out.new) }
    ensures quiet_source { (result ≡ Status.Read → ⊥) → S.faults source.new ≡ S.faults source.old }
    ensures quiet_sink { (result ≡ Status.Write → ⊥) → K.faults out.new ≡ K.faults out.old }
{
    let written = write_check(alloc, source, out);
    status_of_check(written)
}
