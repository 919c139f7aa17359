//! The lines of a source, one at a time.
ghost use Rattle.std.specs.Prelude.{◌≡◌, ◌<◌, ◌≤◌, ◌+◌, ◌++◌, [], List, ℕ, Some, None, length, position, Ok, OnOk, OnErr, IfOk, IfErr, IsErrOf, IfSome, IfNone, ◌≢◌, MatchResult, MatchBool, true, false, option_copied};
ghost use Rattle.std.specs.Option.{ForSome};
ghost use Rattle.co_schedule.specs.Limits.{most_of_text};
ghost use Rattle.co_schedule.specs.LineText.{is_newline, behind_line, next_line, IsNextFault};

use crate::fault::LinesFault;
use co_outside::{Source, SourceFault, Taken};
use std::alloc::{AllocError, Global};

/// The most bytes that are asked of the source at once, also where the buffer has more room: what is left of a piece moves to the front with
/// each line.
const PIECE: u32 = 4096;

/// The most bytes of a line, and the most lines, of any text that is read line by line: 16,777,216, those of a transcript.
pub const MOST_OF_TEXT: u32 = 16_777_216;

/// What the buffer holds at its front.
enum Held {
    // A line, whose newline stands at this place.
    Line(usize),
    // All that is left, without a newline.
    Rest,
    // As many bytes as the buffer has room for, without a newline.
    Full,
}

/// A reader of the lines of a source, with a buffer of one line.
#[derive(Drop)]
pub struct Lines {
    // The line read last, its newline, and the bytes that were taken behind them.
    buffer: Vec<u8>,
    // The bytes of that line, if there is one, and how many bytes it and its newline have.
    shown: Option<usize>,
    used: usize,
    line: u32,
    lines: u32,
    lent: u32,
    ghost shown_used: { ForSome shown (λ size. size ≤ used) },
    ghost used_held: { used ≤ length buffer.items },
    ghost held_room: { length buffer.items ≤ line + 1 },
    ghost line_most: { line ≤ most_of_text },
    ghost lines_most: { lines ≤ most_of_text },
    ghost lent_most: { lent ≤ lines },
}

fn newline_in(bytes: &[u8]) -> Option<usize>
    ensures { result ≡ position is_newline bytes.now }
{
    bytes.iter().position(|byte| *byte == b'\n')
}

impl Lines {
    ghost use Rattle.co_outside.specs.Faults.{HasRisen};
    ghost use Rattle.co_outside.specs.Onward.{past, IsOnward, LiesAhead};
    ghost use Rattle.co_schedule.specs.Lines.{most_bytes, most_lines, lines_read, unread, shown_line, ahead, next_of, IsRead, lent_then};
    ghost use Rattle.std.specs.Borrow.{sem};
    ghost use Rattle.co_schedule.specs.Next.{HasHeard, HasMoved, EndsAs, IsIdle};
    ghost use Rattle.co_schedule.specs.Filling.{IsAdded, IsGrown, IsTakenFrom, IsWithin, IsHeld, IsOfSource, HasSameLimits};

    /// A reader of lines of at most `line` bytes without their newline, at most `lines` of them. Takes
    /// a buffer of `line + 1` bytes.
    pub fn new(alloc: Global, line: u32, lines: u32) -> Result<Lines, AllocError>
        requires line { (1 ≤ line) × (line ≤ most_of_text) }
        requires lines { (1 ≤ lines) × (lines ≤ most_of_text) }
        ensures nothing { IfOk result (λ reader. unread reader ≡ []) }
        ensures limits { IfOk result (λ reader. (most_bytes reader ≡ line) × (most_lines reader ≡ lines) × (lines_read reader ≡ 0)) }
    {
        Ok(Lines {
            buffer: Vec::with_capacity(alloc, line as usize + 1)?,
            shown: None,
            used: 0,
            line,
            lines,
            lent: 0,
        })
    }

    // Lets the line go that was read last.
    fn let_go(&mut self)
        ensures held { self.new.buffer.items ≡ unread self.old }
        ensures used { (self.new.used ≡ 0) × (self.new.shown ≡ None) }
        ensures same { HasSameLimits self.old self.new }
    {
        let used = self.used;
        let rest = self.buffer.len() - used;
        self.shown = None;
        self.used = 0;
        self.buffer.copy_within(used.., 0);
        self.buffer.truncate(rest);
    }

    // Takes bytes once, and tells whether there were any.
    fn take<S: Source>(&mut self, source: &mut S) -> Result<bool, LinesFault>
        requires { length self.old.buffer.items ≤ self.old.line }
        ensures more { IfOk result (λ some. MatchBool some (IsGrown self.old.buffer.items self.new.buffer.items) (self.new.buffer.items ≡ self.old.buffer.items)) }
        ensures taken { OnOk result (IsTakenFrom S.left source.old source.new self.old.buffer.items self.new.buffer.items) }
        ensures kept { IsErrOf result LinesFault.Read → IsTakenFrom S.left source.old source.new self.old.buffer.items self.new.buffer.items }
        ensures bound { IsWithin S.left source.old source.new self.old.buffer.items (self.old.line + 1) }
        ensures end { result ≡ Ok false → (bytes : List ℕ) → S.left source.old ≡ Some bytes → S.left source.new ≡ Some [] }
        ensures onward { IsOnward (past S.gave S.ended S.went_on source.old) (past S.gave S.ended S.went_on source.new) }
        ensures added { OnOk result (IsAdded (S.gave source.old) (S.gave source.new) self.old.buffer.items self.new.buffer.items) }
        ensures ended { result ≡ Ok false → S.ended source.new ≡ true }
        ensures same { HasSameLimits self.old self.new }
        ensures used { (self.new.used ≡ self.old.used) × (self.new.shown ≡ self.old.shown) }
        ensures counts { S.faults source.old ≤ S.faults source.new }
        ensures read { IsErrOf result LinesFault.Read → HasRisen (S.faults source.old) (S.faults source.new) }
        ensures quiet { (IsErrOf result LinesFault.Read → ⊥) → S.faults source.new ≡ S.faults source.old }
        ensures faults { IfErr result IsOfSource }
        ensures err { OnErr result (self.new.buffer.items ≡ self.old.buffer.items) }
    {
        let room = self.line + 1 - self.buffer.len() as u32;
        match source.take(*self.buffer.allocator(), room.min(PIECE)) {
            Ok(Taken::Bytes(bytes)) => {
                self.buffer.extend_from_slice(bytes.as_slice())?;
                Ok(true)
            }
            Ok(Taken::End) => Ok(false),
            Err(SourceFault::Failed) => Err(LinesFault::Read),
            Err(SourceFault::Memory) => Err(LinesFault::Memory),
        }
    }

    // Takes bytes once, where the buffer holds no newline, and tells what it holds then, unless it
    // wants more.
    fn take_on<S: Source>(&mut self, source: &mut S) -> Result<Option<Held>, LinesFault>
        requires room { length self.old.buffer.items ≤ self.old.line }
        requires none { position is_newline self.old.buffer.items ≡ None }
        ensures holds { IfOk result (λ held. IfSome held (IsHeld self.new)) }
        ensures more { IfOk result (λ held. IfNone held ((position is_newline self.new.buffer.items ≡ None) × (length self.old.buffer.items < length self.new.buffer.items))) }
        ensures rest { result ≡ Ok (Some Held.Rest) → (bytes : List ℕ) → S.left source.old ≡ Some bytes → S.left source.new ≡ Some [] }
        ensures taken { OnOk result (IsTakenFrom S.left source.old source.new self.old.buffer.items self.new.buffer.items) }
        ensures kept { IsErrOf result LinesFault.Read → IsTakenFrom S.left source.old source.new self.old.buffer.items self.new.buffer.items }
        ensures bound { IsWithin S.left source.old source.new self.old.buffer.items (self.old.line + 1) }
        ensures onward { IsOnward (past S.gave S.ended S.went_on source.old) (past S.gave S.ended S.went_on source.new) }
        ensures added { OnOk result (IsAdded (S.gave source.old) (S.gave source.new) self.old.buffer.items self.new.buffer.items) }
        ensures ended { result ≡ Ok (Some Held.Rest) → S.ended source.new ≡ true }
        ensures same { HasSameLimits self.old self.new }
        ensures used { (self.new.used ≡ self.old.used) × (self.new.shown ≡ self.old.shown) }
        ensures counts { S.faults source.old ≤ S.faults source.new }
        ensures read { IsErrOf result LinesFault.Read → HasRisen (S.faults source.old) (S.faults source.new) }
        ensures quiet { (IsErrOf result LinesFault.Read → ⊥) → S.faults source.new ≡ S.faults source.old }
        ensures faults { IfErr result IsOfSource }
        ensures err { OnErr result (self.new.buffer.items ≡ self.old.buffer.items) }
    {
        let held = self.buffer.len();
        if !self.take(source)? {
            return Ok(Some(Held::Rest));
        }
        match newline_in(&self.buffer[held..]) {
            Some(at) => Ok(Some(Held::Line(held + at))),
            None => Ok(None),
        }
    }

    // Takes bytes until the buffer holds a line, is full, or nothing is left.
    fn fill<S: Source>(&mut self, source: &mut S) -> Result<Held, LinesFault>
        ensures holds { IfOk result (IsHeld self.new) }
        ensures rest { result ≡ Ok Held.Rest → (bytes : List ℕ) → S.left source.old ≡ Some bytes → S.left source.new ≡ Some [] }
        ensures taken { OnOk result (IsTakenFrom S.left source.old source.new self.old.buffer.items self.new.buffer.items) }
        ensures kept { IsErrOf result LinesFault.Read → IsTakenFrom S.left source.old source.new self.old.buffer.items self.new.buffer.items }
        ensures bound { IsWithin S.left source.old source.new self.old.buffer.items (self.old.line + 1) }
        ensures idle { (end : ℕ) → position is_newline self.old.buffer.items ≡ Some end → source.new ≡ source.old }
        ensures onward { IsOnward (past S.gave S.ended S.went_on source.old) (past S.gave S.ended S.went_on source.new) }
        ensures added { OnOk result (IsAdded (S.gave source.old) (S.gave source.new) self.old.buffer.items self.new.buffer.items) }
        ensures ended { result ≡ Ok Held.Rest → S.ended source.new ≡ true }
        ensures same { HasSameLimits self.old self.new }
        ensures used { (self.new.used ≡ self.old.used) × (self.new.shown ≡ self.old.shown) }
        ensures counts { S.faults source.old ≤ S.faults source.new }
        ensures read { IsErrOf result LinesFault.Read → HasRisen (S.faults source.old) (S.faults source.new) }
        ensures quiet { (IsErrOf result LinesFault.Read → ⊥) → S.faults source.new ≡ S.faults source.old }
        ensures faults { IfErr result IsOfSource }
        ensures whole { OnErr result (position is_newline self.new.buffer.items ≡ None) }
    {
        if let Some(end) = newline_in(&self.buffer) {
            return Ok(Held::Line(end));
        }
        while self.buffer.len() <= self.line as usize {
            if let Some(held) = self.take_on(source)? {
                return Ok(held);
            }
        }
        Ok(Held::Full)
    }

    // Makes the first bytes of the buffer the line that was read last.
    fn lend(&mut self, size: usize, used: usize)
        requires sizes { (size ≤ used) × (used ≤ length self.old.buffer.items) }
        requires room { self.old.lent < self.old.lines }
        ensures same { self.new.buffer.items ≡ self.old.buffer.items }
        ensures shown { (self.new.shown ≡ Some size) × (self.new.used ≡ used) }
        ensures limits { (self.new.line ≡ self.old.line) × (self.new.lines ≡ self.old.lines) }
        ensures counted { self.new.lent ≡ self.old.lent + 1 }
    {
        self.shown = Some(size);
        self.used = used;
        self.lent += 1;
    }

    // Makes what the buffer holds the line that was read last, if it holds one.
    fn show(&mut self, held: Held) -> Result<(), LinesFault>
        requires none { (self.old.used ≡ 0) × (self.old.shown ≡ None) }
        requires room { self.old.lent < self.old.lines }
        requires holds { IsHeld self.old held }
        ensures next { (rest : List ℕ) → (held ≡ Held.Rest → rest ≡ []) → IsRead (next_line self.old.line self.old.lines self.old.lent (self.old.buffer.items ++ rest)) self.new result }
        ensures behind { (rest : List ℕ) → (held ≡ Held.Rest → rest ≡ []) → OnOk result (unread self.new ++ rest ≡ behind_line (self.old.buffer.items ++ rest)) }
        ensures fits { OnOk result (IfSome (shown_line self.new) (λ line. length line ≤ self.old.line)) }
        ensures few { OnOk result (length (unread self.new) ≤ self.new.line) }
        ensures limits { (self.new.line ≡ self.old.line) × (self.new.lines ≡ self.old.lines) }
        ensures counted { OnOk result (self.new.lent ≡ lent_then self.old.lent (shown_line self.new)) }
        ensures source { IsErrOf result LinesFault.Read → ⊥ }
        ensures err { OnErr result (unread self.new ≡ unread self.old) }
    {
        match held {
            Held::Line(end) => {
                self.lend(end, end + 1);
                Ok(())
            }
            Held::Rest => {
                let size = self.buffer.len();
                if size == 0 {
                    return Ok(());
                }
                self.lend(size, size);
                Ok(())
            }
            Held::Full => Err(LinesFault::Long {
                line: self.lent + 1,
            }),
        }
    }

    // Tests that nothing is left behind the last line that there may be.
    fn end<S: Source>(&mut self, source: &mut S) -> Result<(), LinesFault>
        requires none { (self.old.used ≡ 0) × (self.old.shown ≡ None) }
        requires last { self.old.lent ≡ self.old.lines }
        ensures next { (bytes : List ℕ) → ahead self.old (S.left source.old) ≡ Some bytes → IsRead (next_line self.old.line self.old.lines self.old.lent bytes) self.new result }
        ensures behind { (bytes : List ℕ) → ahead self.old (S.left source.old) ≡ Some bytes → OnOk result (ahead self.new (S.left source.new) ≡ Some (behind_line bytes)) }
        ensures kept { (bytes : List ℕ) → ahead self.old (S.left source.old) ≡ Some bytes → IsErrOf result LinesFault.Read → ahead self.new (S.left source.new) ≡ Some bytes }
        ensures bound { IsWithin S.left source.old source.new self.old.buffer.items (self.old.line + 1) }
        ensures few { OnOk result (unread self.new ≡ []) }
        ensures idle { unread self.old ≢ [] → source.new ≡ source.old }
        ensures onward { IsOnward (past S.gave S.ended S.went_on source.old) (past S.gave S.ended S.went_on source.new) }
        ensures heard { HasHeard self.old (past S.gave S.ended S.went_on source.old) (past S.gave S.ended S.went_on source.new) self.new result }
        ensures none_shown { self.new.shown ≡ None }
        ensures same { HasSameLimits self.old self.new }
        ensures counts { S.faults source.old ≤ S.faults source.new }
        ensures read { IsErrOf result LinesFault.Read → HasRisen (S.faults source.old) (S.faults source.new) }
        ensures quiet { (IsErrOf result LinesFault.Read → ⊥) → S.faults source.new ≡ S.faults source.old }
        ensures whole { IsErrOf result LinesFault.Read → unread self.new ≡ [] }
    {
        if !self.buffer.is_empty() {
            return Err(LinesFault::Many);
        }
        if self.take(source)? {
            return Err(LinesFault::Many);
        }
        Ok(())
    }

    // Reads the next line, if there is one.
    fn advance<S: Source>(&mut self, source: &mut S) -> Result<(), LinesFault>
        ensures next { (text : List ℕ) → ahead self.old (S.left source.old) ≡ Some text → IsRead (next_line self.old.line self.old.lines self.old.lent text) self.new result }
        ensures moved { HasMoved self.old (S.left source.old) (S.left source.new) result self.new }
        ensures onward { IsOnward (past S.gave S.ended S.went_on source.old) (past S.gave S.ended S.went_on source.new) }
        ensures heard { HasHeard self.old (past S.gave S.ended S.went_on source.old) (past S.gave S.ended S.went_on source.new) self.new result }
        ensures counted { OnOk result (self.new.lent ≡ lent_then self.old.lent (shown_line self.new)) }
        ensures fits { OnOk result (IfSome (shown_line self.new) (λ line. length line ≤ self.old.line)) }
        ensures idle { IsIdle self.old source.old source.new }
        ensures counts { S.faults source.old ≤ S.faults source.new }
        ensures read { IsErrOf result LinesFault.Read → HasRisen (S.faults source.old) (S.faults source.new) }
        ensures quiet { (IsErrOf result LinesFault.Read → ⊥) → S.faults source.new ≡ S.faults source.old }
    {
        self.let_go();
        if self.lent == self.lines {
            return self.end(source);
        }
        let held = self.fill(source)?;
        self.show(held)
    }

    // The line that was read last.
    fn shown(&self) -> Option<&[u8]>
        ensures { option_copied result ≡ shown_line self.now }
    {
        match self.shown {
            Some(size) => Some(&self.buffer[..size]),
            None => None,
        }
    }

    /// Lends the next line without its newline, or nothing at the end. The last line may end with the
    /// source.
    ///
    /// The source is asked only while the buffer has no whole line. After a fault the reader is only
    /// dropped: `Read` comes where the source failed, and only there, `Many` exactly where a byte follows the
    /// newline of the last line that there may be, and else `Long` exactly where the line has more
    /// bytes than a line may have.
    pub fn next<'a, S: Source>(&'a mut self, source: &mut S) -> Result<Option<&'a [u8]>, LinesFault>
        ensures next { (text : List ℕ) → ahead self.old (S.left source.old) ≡ Some text → MatchResult result (λ line. next_of self.old text ≡ Ok (option_copied line)) (IsNextFault (next_of self.old text)) }
        ensures heard { (text more : List ℕ) → LiesAhead (past S.gave S.ended S.went_on source.old) (past S.gave S.ended S.went_on source.new) text more → MatchResult result (λ line. next_of self.old (unread self.old ++ text) ≡ Ok (option_copied line)) (IsNextFault (next_of self.old (unread self.old ++ text))) }
        ensures onward { IsOnward (past S.gave S.ended S.went_on source.old) (past S.gave S.ended S.went_on source.new) }
        ensures fits { IfOk result (λ line. IfSome (option_copied line) (λ text. length text ≤ most_bytes self.old)) }
        ensures* ends { sem 𝓛 (EndsAs self.entry (S.left source.old) (S.left source.new) (past S.gave S.ended S.went_on source.old) (past S.gave S.ended S.went_on source.new) result) }
        ensures idle { IsIdle self.old source.old source.new }
        ensures counts { S.faults source.old ≤ S.faults source.new }
        ensures read { IsErrOf result LinesFault.Read → HasRisen (S.faults source.old) (S.faults source.new) }
        ensures quiet { (IsErrOf result LinesFault.Read → ⊥) → S.faults source.new ≡ S.faults source.old }
    {
        self.advance(source)?;
        Ok(self.shown())
    }
}
