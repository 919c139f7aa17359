//! The lines of a schedule, as its head and as events.
ghost use Rattle.std.specs.Prelude.{◌≡◌, ◌+◌, ◌≤◌, ℕ, suc, List, Some, IfOk, IfErr, IsErrOf, OnOk, IfSome};
ghost use Rattle.co_outside.specs.Faults.{HasRisen};
ghost use Rattle.co_replay.specs.Schedule.{HasLine};
ghost use Rattle.co_schedule.specs.Lines.{ahead};
ghost use Rattle.co_top.specs.Front.{HasRead, IsStreamed};
ghost use Rattle.co_top.specs.Heads.{IsHeadIn, IsEventIn, IsHeadRead, IsEventRead, IsReadStatus, some_of};

use crate::status::{Status, of_line, of_lines};
use co_base::Head;
use co_message::Event;
use co_outside::Source;
use co_schedule::{LineFault, Lines, read_head, read_line};
use std::alloc::Global;

/// The head that a line is.
fn head_in(alloc: Global, line: &[u8]) -> Result<Head, Status>
    ensures { IsHeadIn line.now result }
{
    match read_head(alloc, line) {
        Ok(head) => Ok(head),
        Err(fault) => Err(of_line(1, fault)),
    }
}

/// The head of the schedule.
pub(crate) fn head_of<S: Source>(
    alloc: Global,
    lines: &mut Lines,
    source: &mut S,
) -> Result<Head, Status>
    requires fresh { HasRead 0 lines.old }
    ensures read { (text : List ℕ) → ahead lines.old (S.left source.old) ≡ Some text → IsHeadRead text (ahead lines.new (S.left source.new)) result }
    ensures streamed { (text : List ℕ) → ahead lines.old (S.left source.old) ≡ Some text → IsStreamed text (S.left source.new) }
    ensures one { OnOk result (HasRead 1 lines.new) }
    ensures own { IfErr result IsReadStatus }
    ensures counts { S.faults source.old ≤ S.faults source.new }
    ensures failed { IsErrOf result Status.Read → HasRisen (S.faults source.old) (S.faults source.new) }
    ensures quiet { (IsErrOf result Status.Read → ⊥) → S.faults source.new ≡ S.faults source.old }
{
    match lines.next(source) {
        Ok(Some(line)) => head_in(alloc, line),
        Ok(None) => Err(of_line(1, LineFault::Head)),
        Err(fault) => Err(of_lines(fault)),
    }
}

/// The event that the line of this number is.
fn event_in(alloc: Global, line: &[u8], head: &Head, number: u32) -> Result<Event, Status>
    ensures { IsEventIn head.now number line.now result }
{
    match read_line(line, head) {
        Ok(view) => Ok(view.event(alloc)?),
        Err(fault) => Err(of_line(number, fault)),
    }
}

/// The same, where there is such a line.
fn some_event(read: Result<Event, Status>) -> Result<Option<Event>, Status>
    ensures { result ≡ some_of read }
{
    Ok(Some(read?))
}

/// The event of the next line, which has this number; none at the end.
pub(crate) fn event_of<S: Source>(
    alloc: Global,
    lines: &mut Lines,
    source: &mut S,
    head: &Head,
    number: u32,
) -> Result<Option<Event>, Status>
    requires read { (count : ℕ) × (number ≡ count + 2) × HasRead (suc count) lines.old }
    ensures read { (count : ℕ) (text : List ℕ) → number ≡ count + 2 → ahead lines.old (S.left source.old) ≡ Some text →
        IsEventRead head.now count text (ahead lines.new (S.left source.new)) result }
    ensures streamed { (text : List ℕ) → ahead lines.old (S.left source.old) ≡ Some text → IsStreamed text (S.left source.new) }
    ensures valid { IfOk result (λ event. IfSome event (HasLine head.now)) }
    ensures one { (count : ℕ) → number ≡ count + 2 → IfOk result (λ event. IfSome event (λ e. HasRead (suc (suc count)) lines.new)) }
    ensures own { IfErr result IsReadStatus }
    ensures counts { S.faults source.old ≤ S.faults source.new }
    ensures failed { IsErrOf result Status.Read → HasRisen (S.faults source.old) (S.faults source.new) }
    ensures quiet { (IsErrOf result Status.Read → ⊥) → S.faults source.new ≡ S.faults source.old }
{
    match lines.next(source) {
        Ok(Some(line)) => some_event(event_in(alloc, line, head, number)),
        Ok(None) => Ok(None),
        Err(fault) => Err(of_lines(fault)),
    }
}
