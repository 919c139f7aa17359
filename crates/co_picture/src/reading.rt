//! The items of a transcript that is to be drawn.
ghost use Rattle.std.specs.Prelude.{◌≡◌, ◌<◌, ◌≤◌, ◌+◌, ◌^◌, ℕ, List, [], Some, length, IsErrOf, IfOk};
ghost use Rattle.co_message.specs.declared.item.Item.{Item};
ghost use Rattle.co_outside.specs.Faults.{HasRisen};
ghost use Rattle.co_outside.specs.Onward.{past, IsOnward, LiesAhead};
ghost use Rattle.co_picture.specs.Read.{IsRead, IsTaken, IsTakenAs, IsEnd, HasTaken, IsWithin, IsStep, IsFurther, told_as, further_of, whole_of, most_lines_drawn, Follows};

use crate::fault::DrawFault;
use crate::stand::Stand;
use co_base::Sequence;
use co_message::{Item, Items};
use co_outside::Source;
use co_schedule::{Lines, LinesFault, MOST_OF_TEXT};
use co_transcript::{ItemFault, read_item};
use std::alloc::Global;

/// The most lines of a transcript that is drawn.
pub const MOST_LINES: u32 = 10_000;

/// The items that were read, and where the transcript stands behind them.
#[derive(Drop)]
pub struct Reader {
    /// Where it stands.
    pub(crate) stand: Stand,
    /// The items.
    pub(crate) items: Items,
}

impl Reader {
    /// Nothing was read.
    fn new(alloc: Global) -> Reader
        ensures { Follows result [] }
    {
        Reader {
            stand: Stand::AtFront,
            items: Sequence::new(alloc),
        }
    }

    /// Takes one more item, which is on the line of this number.
    fn take(self, number: u32, item: Item) -> Result<Reader, DrawFault>
        ensures taken { (items : List Item) → Follows self items → IsTakenAs items number item result }
        ensures few { IfOk result (λ after. length after.items ≤ length self.items + 1) }
        ensures never { (IsErrOf result DrawFault.Read → ⊥) × (IsErrOf result DrawFault.Write → ⊥) }
    {
        let mut items = self.items;
        match self.stand.next(&item) {
            Some(stand) => {
                items.push(item)?;
                Ok(Reader { stand, items })
            }
            None => {
                drop(items);
                drop(item);
                Err(DrawFault::Text { line: number })
            }
        }
    }

    /// Takes one more line, which has this number.
    fn line(self, alloc: Global, number: u32, line: &[u8]) -> Result<Reader, DrawFault>
        requires { length line.now < 4294967296 }
        ensures taken { (items : List Item) → Follows self items → IsTaken items number line.now result }
        ensures few { IfOk result (λ after. length after.items ≤ length self.items + 1) }
        ensures never { (IsErrOf result DrawFault.Read → ⊥) × (IsErrOf result DrawFault.Write → ⊥) }
    {
        match read_item(alloc, line) {
            Ok(item) => self.take(number, item),
            Err(ItemFault::Text { at: _ }) => {
                drop(self);
                Err(DrawFault::Text { line: number })
            }
            Err(ItemFault::Memory) => {
                drop(self);
                Err(DrawFault::Memory)
            }
        }
    }

    /// The items, where the input ends before the line of this number.
    fn end(self, number: u32) -> Result<Items, DrawFault>
        ensures whole { (items : List Item) → Follows self items → IsEnd items number result }
        ensures few { IfOk result (λ items. length items ≤ length self.items) }
        ensures never { (IsErrOf result DrawFault.Read → ⊥) × (IsErrOf result DrawFault.Write → ⊥) }
    {
        let Reader { stand, items } = self;
        if stand.is_whole() {
            return Ok(items);
        }
        drop(items);
        Err(DrawFault::Text { line: number })
    }
}

/// The fault of a reader of lines that gave none.
fn of_lines(fault: LinesFault) -> DrawFault
    ensures { result ≡ told_as fault }
{
    match fault {
        LinesFault::Read => DrawFault::Read,
        LinesFault::Long { line } => DrawFault::Long { line },
        LinesFault::Many => DrawFault::Many,
        LinesFault::Memory => DrawFault::Memory,
    }
}

/// What one more line comes to.
enum Step {
    /// It is an item that keeps the shape.
    Further(Reader),
    /// There is none, and the transcript is whole.
    Whole(Items),
}

/// The step of a line that was taken so.
fn further(taken: Result<Reader, DrawFault>) -> Result<Step, DrawFault>
    ensures { result ≡ further_of taken }
{
    Ok(Step::Further(taken?))
}

/// The step at the end.
fn whole(items: Result<Items, DrawFault>) -> Result<Step, DrawFault>
    ensures { result ≡ whole_of items }
{
    Ok(Step::Whole(items?))
}

/// Takes the next line, which has this number; where there is none, the transcript is whole.
fn take_line<S: Source>(
    alloc: Global,
    lines: &mut Lines,
    source: &mut S,
    reader: Reader,
    number: u32,
) -> Result<Step, DrawFault>
    requires { IsWithin number lines.old }
    ensures read { (text : List ℕ) → HasTaken text lines.old (S.left source.old) reader → IsStep text lines.new (S.left source.new) result }
    ensures heard { (whole text more : List ℕ) → LiesAhead (past S.gave S.ended S.went_on source.old) (past S.gave S.ended S.went_on source.new) text more → HasTaken whole lines.old (Some text) reader → IsStep whole lines.new (Some more) result }
    ensures onward { IsOnward (past S.gave S.ended S.went_on source.old) (past S.gave S.ended S.went_on source.new) }
    ensures further { IsFurther number reader lines.new result }
    ensures never { IsErrOf result DrawFault.Write → ⊥ }
    ensures counts { S.faults source.old ≤ S.faults source.new }
    ensures failed { IsErrOf result DrawFault.Read → HasRisen (S.faults source.old) (S.faults source.new) }
    ensures quiet { (IsErrOf result DrawFault.Read → ⊥) → S.faults source.new ≡ S.faults source.old }
{
    match lines.next(source) {
        Ok(Some(line)) => further(reader.line(alloc, number, line)),
        Ok(None) => whole(reader.end(number)),
        Err(fault) => {
            drop(reader);
            Err(of_lines(fault))
        }
    }
}

/// Reads a transcript from the source: groups of lines, each an event, the records that became stable, the messages that were sent and the
/// answer; the first group is that of the head, and the numbers of the groups go on by one. Headers are not asked for, so that a transcript
/// that goes on over logs is read as well.
///
/// `Text` names the first line that is no item or breaks the shape, or the line past the end where the last group is cut; `Long` names the
/// first line of more than 16,777,216 bytes, and `Many` comes behind 10,000 lines. `Read` comes where the source failed, and only there;
/// `Memory` where there was none. So it is of the text that a source tells, and of each text that begins with the bytes that a source gave.
pub fn read_items<S: Source>(alloc: Global, source: &mut S) -> Result<Items, DrawFault>
    ensures read { (text : List ℕ) → S.left source.old ≡ Some text → IsRead text result }
    ensures heard { (text more : List ℕ) → LiesAhead (past S.gave S.ended S.went_on source.old) (past S.gave S.ended S.went_on source.new) text more → IsRead text result }
    ensures few { IfOk result (λ items. length items ≤ most_lines_drawn) }
    ensures never { IsErrOf result DrawFault.Write → ⊥ }
    ensures counts { S.faults source.old ≤ S.faults source.new }
    ensures failed { IsErrOf result DrawFault.Read → HasRisen (S.faults source.old) (S.faults source.new) }
    ensures quiet { (IsErrOf result DrawFault.Read → ⊥) → S.faults source.new ≡ S.faults source.old }
{
    let mut lines = Lines::new(alloc, MOST_OF_TEXT, MOST_LINES)?;
    let mut reader = Reader::new(alloc);
    for number in 1..MOST_LINES + 2 {
        match take_line(alloc, &mut lines, source, reader, number)? {
            Step::Further(after) => reader = after,
            Step::Whole(items) => return Ok(items),
        }
    }
    unreachable!()
}
