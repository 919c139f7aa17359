//! The verdict on a transcript, written to a sink.
ghost use Rattle.std.specs.Prelude.{◌≡◌, ◌≤◌, ℕ, List, Some, IsErrOf};
ghost use Rattle.co_outside.specs.Faults.{HasRisen};
ghost use Rattle.co_outside.specs.Onward.{past, LiesAhead};
ghost use Rattle.co_check.specs.Text.{told_in};
ghost use Rattle.co_check.specs.Written.{finding_of, fault_of, answers_of, IsPutAs, IsWritten, IsWrittenBy, IsWrittenResumed};

use crate::fault::CheckFault;
use crate::lines::{check_items, check_resumed};
use crate::text::{Detail, put_verdict};
use crate::verdict::Verdict;
use co_base::Txn;
use co_outside::{Sink, SinkFault, Source, put_all};
use std::alloc::{AllocError, Global};
use thiserror::Error;

/// What is judged.
#[derive(Clone, Copy)]
pub enum Input {
    /// A transcript.
    Transcript,
    /// The records from which a resumed run started, and its transcript behind them.
    Resumed,
}

/// What checking found.
#[derive(Clone, Copy)]
pub enum Finding {
    /// All committed transactions read what the serial run reads.
    Serial,
    /// One does not.
    NotSerial {
        /// The first one in the order of the decisions.
        txn: Txn,
        /// The number of the event of its first operation that differs.
        line: u32,
    },
}

/// Why a verdict was not written whole.
#[derive(Debug, Drop, Error)]
pub enum VerdictFault {
    /// The source failed.
    #[error("the source failed")]
    Read,
    /// The sink failed.
    #[error("the sink failed")]
    Write,
    /// The line, counted from 1, is no item, or breaks the shape of a transcript; or it is the line past the end, where the last
    /// group of lines is not whole.
    #[error("line {line} breaks the transcript")]
    Text { line: u32 },
    /// The line, counted from 1, has more than 16,777,216 bytes.
    #[error("line {line} is long")]
    Long { line: u32 },
    /// There are more than 16,777,216 lines.
    #[error("there are too many lines")]
    Many,
    /// There was no memory.
    #[error("out of memory")]
    Memory,
}

impl From<AllocError> for VerdictFault {
    ghost use Rattle.co_check.specs.declared.writing.VerdictFault.TheVariants.{Memory};

    ghost from_gives = { λ _ e. e ≡ Memory };

    fn from(_e: AllocError) -> VerdictFault {
        VerdictFault::Memory
    }
}

/// What a verdict finds.
fn finding_of(verdict: &Verdict) -> Finding
    ensures { result ≡ finding_of verdict.now }
{
    match verdict {
        Verdict::Serial { .. } => Finding::Serial,
        Verdict::Differs { txn, line, .. } => Finding::NotSerial {
            txn: *txn,
            line: *line,
        },
    }
}

/// Why there is no verdict to be written.
fn fault_of(fault: CheckFault) -> VerdictFault
    ensures { result ≡ fault_of fault }
{
    match fault {
        CheckFault::Read => VerdictFault::Read,
        CheckFault::Text { line } => VerdictFault::Text { line },
        CheckFault::Long { line } => VerdictFault::Long { line },
        CheckFault::Many => VerdictFault::Many,
        CheckFault::Memory => VerdictFault::Memory,
    }
}

/// Writes a verdict.
fn write_verdict<K: Sink>(
    alloc: Global,
    detail: Detail,
    out: &mut K,
    verdict: &Verdict,
) -> Result<Finding, VerdictFault>
    ensures put { (held : List ℕ) → K.told out.old ≡ Some held → IsPutAs (told_in detail) verdict.now held (K.told out.new) result }
    ensures took { IsPutAs (told_in detail) verdict.now (K.took out.old) (Some (K.took out.new)) result }
    ensures never { IsErrOf result VerdictFault.Read → ⊥ }
    ensures counts { K.faults out.old ≤ K.faults out.new }
    ensures write { IsErrOf result VerdictFault.Write → HasRisen (K.faults out.old) (K.faults out.new) }
    ensures silent { (IsErrOf result VerdictFault.Write → ⊥) → K.faults out.new ≡ K.faults out.old }
{
    let mut text = Vec::new(alloc);
    put_verdict(detail, verdict, &mut text)?;
    match put_all(alloc, out, &text) {
        Ok(()) => Ok(finding_of(verdict)),
        Err(SinkFault::Failed) => Err(VerdictFault::Write),
        Err(SinkFault::Memory) => Err(VerdictFault::Memory),
    }
}

/// Reads an input and judges it.
fn verdict_on<S: Source>(alloc: Global, input: Input, source: &mut S) -> Result<Verdict, CheckFault>
    ensures checked { (text : List ℕ) → S.left source.old ≡ Some text → answers_of input text result }
    ensures heard { (text more : List ℕ) → LiesAhead (past S.gave S.ended S.went_on source.old) (past S.gave S.ended S.went_on source.new) text more → answers_of input text result }
    ensures counts { S.faults source.old ≤ S.faults source.new }
    ensures read { IsErrOf result CheckFault.Read → HasRisen (S.faults source.old) (S.faults source.new) }
    ensures quiet { (IsErrOf result CheckFault.Read → ⊥) → S.faults source.new ≡ S.faults source.old }
{
    match input {
        Input::Transcript => check_items(alloc, source),
        Input::Resumed => check_resumed(alloc, source),
    }
}

/// Reads an input, judges it and writes so much of the verdict.
pub(crate) fn write_judged<S: Source, K: Sink>(
    alloc: Global,
    input: Input,
    detail: Detail,
    source: &mut S,
    out: &mut K,
) -> Result<Finding, VerdictFault>
    ensures written { (text held : List ℕ) → S.left source.old ≡ Some text → K.told out.old ≡ Some held → IsWrittenBy (told_in detail) (answers_of input) text held (K.told out.new) result }
    ensures heard { (text more : List ℕ) → LiesAhead (past S.gave S.ended S.went_on source.old) (past S.gave S.ended S.went_on source.new) text more → IsWrittenBy (told_in detail) (answers_of input) text (K.took out.old) (Some (K.took out.new)) result }
    ensures reads { S.faults source.old ≤ S.faults source.new }
    ensures read { IsErrOf result VerdictFault.Read → HasRisen (S.faults source.old) (S.faults source.new) }
    ensures quiet { (IsErrOf result VerdictFault.Read → ⊥) → S.faults source.new ≡ S.faults source.old }
    ensures counts { K.faults out.old ≤ K.faults out.new }
    ensures write { IsErrOf result VerdictFault.Write → HasRisen (K.faults out.old) (K.faults out.new) }
    ensures silent { (IsErrOf result VerdictFault.Write → ⊥) → K.faults out.new ≡ K.faults out.old }
{
    match verdict_on(alloc, input, source) {
        Ok(verdict) => write_verdict(alloc, detail, out, &verdict),
        Err(fault) => Err(fault_of(fault)),
    }
}

/// Reads a transcript from the source, judges it as `check_items` does, and writes the text of the verdict to the sink: `serial N` and the
/// records that the serial run leaves, or `not serial T LINE`.
///
/// `Text`, `Long`, `Many` and `Read` come as `check_items` says, and nothing is written then. `Write` comes where the sink failed, and only
/// there; with it a front of the text was written. `Memory` comes where there was none, with nothing written or with a front.
pub fn write_check<S: Source, K: Sink>(
    alloc: Global,
    source: &mut S,
    out: &mut K,
) -> Result<Finding, VerdictFault>
    ensures written { (text held : List ℕ) → S.left source.old ≡ Some text → K.told out.old ≡ Some held → IsWritten text held (K.told out.new) result }
    ensures heard { (text more : List ℕ) → LiesAhead (past S.gave S.ended S.went_on source.old) (past S.gave S.ended S.went_on source.new) text more → IsWritten text (K.took out.old) (Some (K.took out.new)) result }
    ensures reads { S.faults source.old ≤ S.faults source.new }
    ensures read { IsErrOf result VerdictFault.Read → HasRisen (S.faults source.old) (S.faults source.new) }
    ensures quiet { (IsErrOf result VerdictFault.Read → ⊥) → S.faults source.new ≡ S.faults source.old }
    ensures counts { K.faults out.old ≤ K.faults out.new }
    ensures write { IsErrOf result VerdictFault.Write → HasRisen (K.faults out.old) (K.faults out.new) }
    ensures silent { (IsErrOf result VerdictFault.Write → ⊥) → K.faults out.new ≡ K.faults out.old }
{
    write_judged(alloc, Input::Transcript, Detail::Verdict, source, out)
}

/// Reads from the source the records from which a resumed run started and its transcript behind them, judges it as `check_resumed` does, and writes
/// the text of the verdict to the sink, as `write_check` does, with the same faults.
pub fn write_resumed_check<S: Source, K: Sink>(
    alloc: Global,
    source: &mut S,
    out: &mut K,
) -> Result<Finding, VerdictFault>
    ensures written { (text held : List ℕ) → S.left source.old ≡ Some text → K.told out.old ≡ Some held → IsWrittenResumed text held (K.told out.new) result }
    ensures heard { (text more : List ℕ) → LiesAhead (past S.gave S.ended S.went_on source.old) (past S.gave S.ended S.went_on source.new) text more → IsWrittenResumed text (K.took out.old) (Some (K.took out.new)) result }
    ensures reads { S.faults source.old ≤ S.faults source.new }
    ensures read { IsErrOf result VerdictFault.Read → HasRisen (S.faults source.old) (S.faults source.new) }
    ensures quiet { (IsErrOf result VerdictFault.Read → ⊥) → S.faults source.new ≡ S.faults source.old }
    ensures counts { K.faults out.old ≤ K.faults out.new }
    ensures write { IsErrOf result VerdictFault.Write → HasRisen (K.faults out.old) (K.faults out.new) }
    ensures silent { (IsErrOf result VerdictFault.Write → ⊥) → K.faults out.new ≡ K.faults out.old }
{
    write_judged(alloc, Input::Resumed, Detail::Verdict, source, out)
}
