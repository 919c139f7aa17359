//! The lines of a transcript, and of records in front of one.
ghost use Rattle.std.specs.Prelude.{◌≡◌, ◌<◌, ◌≤◌, ◌+◌, ◌^◌, ℕ, List, Some, IsErrOf};
ghost use Rattle.co_outside.specs.Faults.{HasRisen};
ghost use Rattle.co_outside.specs.Onward.{past, IsOnward, LiesAhead};
ghost use Rattle.co_check.specs.Checked.{IsCheck, IsReading, verdict_of};
ghost use Rattle.co_check.specs.Resumed.{Stands, IsReadingFrom, IsResumedCheck};
ghost use Rattle.co_check.specs.Stages.{Stage};
ghost use Rattle.co_check.specs.Taking.{HasTaken, IsWithin, IsStep, IsFurther, decided_by, told_as, further_of, judged_of};

use crate::checker::Checker;
use crate::fault::CheckFault;
use crate::reader::Reader;
use crate::verdict::{Ending, Verdict};
use co_outside::Source;
use co_schedule::{Lines, LinesFault, MOST_OF_TEXT};
use std::alloc::Global;

/// The fault of a reader of lines that gave none.
fn of_lines(fault: LinesFault) -> CheckFault
    ensures { result ≡ told_as fault }
{
    match fault {
        LinesFault::Read => CheckFault::Read,
        LinesFault::Long { line } => CheckFault::Long { line },
        LinesFault::Many => CheckFault::Many,
        LinesFault::Memory => CheckFault::Memory,
    }
}

/// What one more line comes to.
enum Step {
    /// It may stand there.
    Further(Reader),
    /// There is none, and the transcript is whole.
    Judged(Ending),
}

/// The step of a line that was taken so.
fn further(taken: Result<Reader, CheckFault>) -> Result<Step, CheckFault>
    ensures { result ≡ further_of taken }
{
    Ok(Step::Further(taken?))
}

/// The step at the end.
fn judged(ending: Result<Ending, CheckFault>) -> Result<Step, CheckFault>
    ensures { result ≡ judged_of ending }
{
    Ok(Step::Judged(ending?))
}

/// Takes the next line, which has this number; where there is none, what was read is judged.
fn take_line<S: Source>(
    alloc: Global,
    lines: &mut Lines,
    source: &mut S,
    reader: Reader,
    number: u32,
) -> Result<Step, CheckFault>
    requires few { decided_by reader + 1 < 2 ^ 32 }
    requires within { IsWithin number lines.old }
    ensures checked { (s : Stage) (text : List ℕ) → HasTaken s text lines.old (S.left source.old) reader → IsStep s text lines.new (S.left source.new) result }
    ensures heard { (s : Stage) (whole text more : List ℕ) → LiesAhead (past S.gave S.ended S.went_on source.old) (past S.gave S.ended S.went_on source.new) text more → HasTaken s whole lines.old (Some text) reader → IsStep s whole lines.new (Some more) result }
    ensures onward { IsOnward (past S.gave S.ended S.went_on source.old) (past S.gave S.ended S.went_on source.new) }
    ensures further { IsFurther number reader lines.new result }
    ensures counts { S.faults source.old ≤ S.faults source.new }
    ensures read { IsErrOf result CheckFault.Read → HasRisen (S.faults source.old) (S.faults source.new) }
    ensures quiet { (IsErrOf result CheckFault.Read → ⊥) → S.faults source.new ≡ S.faults source.old }
{
    match lines.next(source) {
        Ok(Some(line)) => further(reader.line(alloc, number, line)),
        Ok(None) => judged(reader.end(number)),
        Err(fault) => {
            drop(reader);
            Err(of_lines(fault))
        }
    }
}

/// Reads on from what a reader read, and gives the verdict. The faults are those of `check_items`.
fn read_on<S: Source>(alloc: Global, source: &mut S, reader: Reader) -> Result<Ending, CheckFault>
    requires { decided_by reader ≡ 0 }
    ensures checked { (s : Stage) (text : List ℕ) → Stands reader s → S.left source.old ≡ Some text → IsReadingFrom s text result }
    ensures heard { (s : Stage) (text more : List ℕ) → Stands reader s → LiesAhead (past S.gave S.ended S.went_on source.old) (past S.gave S.ended S.went_on source.new) text more → IsReadingFrom s text result }
    ensures counts { S.faults source.old ≤ S.faults source.new }
    ensures read { IsErrOf result CheckFault.Read → HasRisen (S.faults source.old) (S.faults source.new) }
    ensures quiet { (IsErrOf result CheckFault.Read → ⊥) → S.faults source.new ≡ S.faults source.old }
{
    let mut lines = Lines::new(alloc, MOST_OF_TEXT, MOST_OF_TEXT)?;
    let mut reader = reader;
    for number in 1..MOST_OF_TEXT + 2 {
        match take_line(alloc, &mut lines, source, reader, number)? {
            Step::Further(after) => reader = after,
            Step::Judged(ending) => return Ok(ending),
        }
    }
    unreachable!()
}

/// Reads a transcript from the source, and gives the verdict on it; with the committed transactions, where they are to be kept. The faults are
/// those of `check_items`.
pub fn read_items<S: Source>(
    alloc: Global,
    source: &mut S,
    keeps: bool,
) -> Result<Ending, CheckFault>
    ensures checked { (text : List ℕ) → S.left source.old ≡ Some text → IsReading text result }
    ensures heard { (text more : List ℕ) → LiesAhead (past S.gave S.ended S.went_on source.old) (past S.gave S.ended S.went_on source.new) text more → IsReading text result }
    ensures counts { S.faults source.old ≤ S.faults source.new }
    ensures read { IsErrOf result CheckFault.Read → HasRisen (S.faults source.old) (S.faults source.new) }
    ensures quiet { (IsErrOf result CheckFault.Read → ⊥) → S.faults source.new ≡ S.faults source.old }
{
    read_on(
        alloc,
        source,
        Reader::Transcript(Checker::new(alloc, keeps)),
    )
}

/// The verdict of an ending.
fn verdict_of(read: Result<Ending, CheckFault>) -> Result<Verdict, CheckFault>
    ensures { result ≡ verdict_of read }
{
    let Ending { verdict, kept } = read?;
    drop(kept);
    Ok(verdict)
}

/// Reads a transcript from the source and tells whether its committed transactions read what the serial run reads.
///
/// `Serial` comes only where the transcript is well shaped and each committed transaction was answered, before its decision, as when run
/// whole behind the earlier decisions; `Differs` names the first one, in the order of decisions, that was not, and its first such operation.
/// `Text` names the first line that is no item or breaks the shape, or the line past the end where the last group is cut; `Long` names
/// the first line of more than 16,777,216 bytes, and `Many` comes behind as many lines. `Read` comes where the source failed, and only there;
/// `Memory` where there was none. So it is of the text that a source tells, and of what a source gave that tells nothing of what is to come: of each text
/// that begins with the bytes that it gave, and goes on with whatever comes behind; with nothing, where it ended.
pub fn check_items<S: Source>(alloc: Global, source: &mut S) -> Result<Verdict, CheckFault>
    ensures checked { (text : List ℕ) → S.left source.old ≡ Some text → IsCheck text result }
    ensures heard { (text more : List ℕ) → LiesAhead (past S.gave S.ended S.went_on source.old) (past S.gave S.ended S.went_on source.new) text more → IsCheck text result }
    ensures counts { S.faults source.old ≤ S.faults source.new }
    ensures read { IsErrOf result CheckFault.Read → HasRisen (S.faults source.old) (S.faults source.new) }
    ensures quiet { (IsErrOf result CheckFault.Read → ⊥) → S.faults source.new ≡ S.faults source.old }
{
    verdict_of(read_items(alloc, source, false))
}

/// Reads from the source the records from which a resumed run started, a line `NODE KEY VALUE` each, and its transcript behind them, and tells
/// whether its committed transactions read what a serial run reads that begins with these records.
///
/// The records stand as durable records are written: members ascending, and the keys of each ascending. The first line that is no record is the
/// head of the transcript, and headers are not wanted. The rest is as `check_items` says; every line counts, those of the records too.
pub fn check_resumed<S: Source>(alloc: Global, source: &mut S) -> Result<Verdict, CheckFault>
    ensures checked { (text : List ℕ) → S.left source.old ≡ Some text → IsResumedCheck text result }
    ensures heard { (text more : List ℕ) → LiesAhead (past S.gave S.ended S.went_on source.old) (past S.gave S.ended S.went_on source.new) text more → IsResumedCheck text result }
    ensures counts { S.faults source.old ≤ S.faults source.new }
    ensures read { IsErrOf result CheckFault.Read → HasRisen (S.faults source.old) (S.faults source.new) }
    ensures quiet { (IsErrOf result CheckFault.Read → ⊥) → S.faults source.new ≡ S.faults source.old }
{
    verdict_of(read_on(alloc, source, Reader::new(alloc)))
}
