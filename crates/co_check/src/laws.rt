//! What checking promises of every text.
ghost use Rattle.std.specs.Prelude.{ℕ, List, [], ◌∷◌, ◌++◌, ◌≡◌, Result};
ghost use Rattle.co_check.specs.declared.fault.CheckFault.{CheckFault};
ghost use Rattle.co_check.specs.declared.verdict.Verdict.{Verdict};
ghost use Rattle.co_serial.specs.RecordText.{record_line};
ghost use Rattle.co_serial.specs.declared.member_row.MemberRow.{MemberRow};
ghost use Rattle.co_schedule.specs.LineText.{newline};
ghost use Rattle.co_check.specs.Checked.{IsCheck};
ghost use Rattle.co_check.specs.Once.{IsOfText, IsSameAnswer};
ghost use Rattle.co_check.specs.Resumed.{IsResumedCheck};
ghost use Rattle.co_check.specs.Starts.{record_text};

/// A text is checked with one answer: where neither the source failed nor was there no memory, two answers are the same verdict, or the same fault at the
/// same line. So each comes exactly where its cause is: `Serial` where the text is well shaped to its end and serial.
pub fn texts_are_checked_once()
    ensures { (text : List ℕ) (one other : Result Verdict CheckFault) →
        IsCheck text one → IsCheck text other → IsOfText one → IsOfText other → IsSameAnswer one other }
{}

/// So is a text that has the records from which a resumed run started, and its transcript behind them.
pub fn resumed_texts_are_checked_once()
    ensures { (text : List ℕ) (one other : Result Verdict CheckFault) →
        IsResumedCheck text one → IsResumedCheck text other → IsOfText one → IsOfText other → IsSameAnswer one other }
{}

/// The line of a record is what is written for it where durable records are: the member, the key and the value.
pub fn records_have_their_lines()
    ensures { (row : MemberRow) → record_line row ≡ record_text row ++ newline ∷ [] }
{}
