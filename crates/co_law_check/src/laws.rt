//! What a checker finds in the transcript of a run.
ghost use Rattle.std.specs.Prelude.{ℕ, List, [], ◌++◌, ◌≡◌, ◌≤◌, ◌+◌, length, Some, Result};
ghost use Rattle.std.specs.List.{AllByRecursion};
ghost use Rattle.co_base.specs.declared.head.Head.{Head};
ghost use Rattle.co_message.specs.declared.event.Event.{Event};
ghost use Rattle.co_message.specs.declared.item.Item.{Item};
ghost use Rattle.co_plain.specs.Opening.{Found, opened, OnlyOwnLogs};
ghost use Rattle.co_plain.specs.Premises.{AreOpenable};
ghost use Rattle.co_plain.specs.Runs.{run, lines};
ghost use Rattle.co_replay.specs.Schedule.{HasLine};
ghost use Rattle.co_replay.specs.Transcript.{items_text, run_items};
ghost use Rattle.co_check.specs.Checked.{IsCheck, StandsBehind};
ghost use Rattle.co_schedule.specs.Limits.{most_of_text};
ghost use Rattle.co_check.specs.Once.{IsOfText};
ghost use Rattle.co_check.specs.declared.fault.CheckFault.{CheckFault};
ghost use Rattle.co_check.specs.declared.verdict.Verdict.{Verdict};
ghost use Rattle.co_law_items.specs.Scans.{HasFewRows, HasShortScan, keys_written};
ghost use Rattle.co_record.specs.Spelling.{IsSpelled};
ghost use Rattle.co_serial.specs.RecordText.{records_text};
ghost use Rattle.co_check.specs.Resumed.{IsResumedCheck};
ghost use Rattle.co_transcript.specs.Items.{IsItem};
ghost use Rattle.co_check.specs.Shape.{Read, read};
ghost use Rattle.co_law_check.specs.Whole.{CanBeWhole};
ghost use Rattle.co_law_check.specs.Told.{IsToldSerially, IsFoundSerial, IsShortItem, most_events, most_writes, start_rows};

/// The transcript of every schedule over logs without records is well shaped to its end, and each transaction whose decision it tells was
/// answered, before that, as when run whole behind the earlier ones (Bernstein, Hadzilacos and Goodman 1987, serializability). It tells of
/// every decision, and the serial run of what it tells leaves the records that the serial run of the decisions leaves.
pub fn transcripts_are_serial()
    ensures { (head : Head) (found_member found_coord : ℕ → Found) (events : List Event) →
        ((m : ℕ) → (found_member m).records ≡ []) →
        ((c : ℕ) → (found_coord c).records ≡ []) →
        AllByRecursion (HasLine head) events →
        IsToldSerially (run_items head found_member found_coord events) (opened head.kinds head.coords found_member found_coord) (run (lines events) (opened head.kinds head.coords found_member found_coord)) }
{}

/// So a checker that reads the text of such a transcript finds it serial: it answers so, with the number of decisions and the records of their
/// serial run, unless the source fails or there is no memory. The transcript has at most 16,777,216 lines, and no reply to a scan has more bytes;
/// every other item has a line that it reads.
pub fn transcripts_are_found_serial()
    ensures { (head : Head) (found_member found_coord : ℕ → Found) (events : List Event) (answer : Result Verdict CheckFault) →
        ((m : ℕ) → (found_member m).records ≡ []) →
        ((c : ℕ) → (found_coord c).records ≡ []) →
        AllByRecursion (HasLine head) events →
        AllByRecursion (HasShortScan most_of_text) (run_items head found_member found_coord events) →
        length (run_items head found_member found_coord events) ≤ most_of_text →
        IsCheck (items_text (run_items head found_member found_coord events)) answer →
        IsOfText answer →
        IsFoundSerial answer (opened head.kinds head.coords found_member found_coord) (run (lines events) (opened head.kinds head.coords found_member found_coord)) }
{}

/// A resumed run too: where a checker reads the records that the opened logs give, a line for each, and behind them the transcript of a run over these logs,
/// it finds that serial. It answers so, with the number of decisions of this run and the records of their serial run, which begins with those that it read,
/// unless the source fails or there is no memory. The logs may be opened (they are sound, and their votes are free of conflicts), they are those of the
/// federation's own nodes, and their records are of their format. There are at most 16,777,216 lines, and no reply to a scan has more bytes, or more records than
/// a count of 32 bits tells.
pub fn resumed_transcripts_are_found_serial()
    ensures { (head : Head) (found_member found_coord : ℕ → Found) (events : List Event) (answer : Result Verdict CheckFault) →
        AreOpenable head.kinds head.coords found_member found_coord →
        OnlyOwnLogs head.kinds head.coords found_member found_coord →
        ((m : ℕ) → AllByRecursion IsSpelled (found_member m).records) →
        ((c : ℕ) → AllByRecursion IsSpelled (found_coord c).records) →
        AllByRecursion (HasLine head) events →
        AllByRecursion HasFewRows (run_items head found_member found_coord events) →
        AllByRecursion (HasShortScan most_of_text) (run_items head found_member found_coord events) →
        length (start_rows head found_member found_coord) + length (run_items head found_member found_coord events) ≤ most_of_text →
        IsResumedCheck (records_text (start_rows head found_member found_coord) ++ items_text (run_items head found_member found_coord events)) answer →
        IsOfText answer →
        IsFoundSerial answer (opened head.kinds head.coords found_member found_coord) (run (lines events) (opened head.kinds head.coords found_member found_coord)) }
{}

/// A schedule of at most 883,010 events has no more lines than that, whatever comes of it. So no premise is left of its transcript but that no
/// reply to a scan has more than 16,777,216 bytes.
pub fn schedules_are_found_serial()
    ensures { (head : Head) (found_member found_coord : ℕ → Found) (events : List Event) (answer : Result Verdict CheckFault) →
        ((m : ℕ) → (found_member m).records ≡ []) →
        ((c : ℕ) → (found_coord c).records ≡ []) →
        AllByRecursion (HasLine head) events → length events ≤ most_events →
        AllByRecursion (HasShortScan most_of_text) (run_items head found_member found_coord events) →
        IsCheck (items_text (run_items head found_member found_coord events)) answer →
        IsOfText answer →
        IsFoundSerial answer (opened head.kinds head.coords found_member found_coord) (run (lines events) (opened head.kinds head.coords found_member found_coord)) }
{}

/// And where at most 4,062 of the events write or erase, no premise is left of the transcript at all.
pub fn few_writes_are_found_serial()
    ensures { (head : Head) (found_member found_coord : ℕ → Found) (events : List Event) (answer : Result Verdict CheckFault) →
        ((m : ℕ) → (found_member m).records ≡ []) →
        ((c : ℕ) → (found_coord c).records ≡ []) →
        AllByRecursion (HasLine head) events → length events ≤ most_events → length (keys_written events) ≤ most_writes →
        IsCheck (items_text (run_items head found_member found_coord events)) answer →
        IsOfText answer →
        IsFoundSerial answer (opened head.kinds head.coords found_member found_coord) (run (lines events) (opened head.kinds head.coords found_member found_coord)) }
{}

/// The text of items that have such lines is cut back into them: each stands on a line of its own, behind those before it.
pub fn items_stand_in_their_text()
    ensures { (items : List Item) → AllByRecursion IsShortItem items → length items ≤ most_of_text → StandsBehind (items_text items) items [] }
{}

/// A checker finds a fault at the first line at which there is one: as long as lines keep the shape, others may stand behind them with which
/// the transcript is whole.
pub fn fronts_can_be_whole()
    ensures { (items : List Item) (stands : Read) → AllByRecursion IsItem items → read items ≡ Some stands → CanBeWhole items }
{}
