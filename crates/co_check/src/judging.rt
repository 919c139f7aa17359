//! The judge: a program that tells whether a transcript is serial.
ghost use Rattle.std.specs.Prelude.{◌≡◌, ◌≤◌, ◌↔◌, ℕ, List, Some, None, Ok, Err, codes};
ghost use Rattle.co_outside.specs.Faults.{HasRisen};
ghost use Rattle.co_outside.specs.Onward.{past, LiesAhead};
ghost use Rattle.co_outside.specs.Sink.{HasNoted};
ghost use Rattle.co_check.specs.Judge.{detail_of, is_why, exit_code, note_of, text_of_note, IsOutcome, IsResumedOutcome};
ghost use Rattle.co_check.specs.declared.text.Detail.{Detail};

use crate::note::{Note, put_note};
use crate::text::Detail;
use crate::writing::{Finding, Input, VerdictFault, write_judged, write_resumed_check};
use co_outside::{Sink, Source};
use std::alloc::Global;

/// How the judge ended.
#[derive(Drop)]
pub enum Outcome {
    /// The words are none that it knows. Nothing was read, and no verdict was written.
    Usage,
    /// The transcript was judged and the verdict written; or it was not.
    Ended(Result<Finding, VerdictFault>),
}

impl Outcome {
    /// The exit code that stands for it: 0 for a serial transcript and 14 for another one; 2 for words that are not known, 4 and 5 for a
    /// source and a sink that failed, 10 for a line that is too long and for too many of them, 11 for want of memory, and 15 for a line that
    /// is no item or breaks the shape.
    pub fn code(&self) -> u8
        ensures { result ≡ exit_code self.now }
    {
        match self {
            Outcome::Usage => 2,
            Outcome::Ended(Ok(Finding::Serial)) => 0,
            Outcome::Ended(Ok(Finding::NotSerial { .. })) => 14,
            Outcome::Ended(Err(VerdictFault::Read)) => 4,
            Outcome::Ended(Err(VerdictFault::Write)) => 5,
            Outcome::Ended(Err(VerdictFault::Text { .. })) => 15,
            Outcome::Ended(Err(VerdictFault::Long { .. } | VerdictFault::Many)) => 10,
            Outcome::Ended(Err(VerdictFault::Memory)) => 11,
        }
    }
}

/// A note without the number of a line.
fn words(front: &'static [u8]) -> Note
    ensures { (result.front.now ≡ front.entry.now) × (result.line ≡ None) × (result.back.now ≡ codes "\n") }
{
    Note {
        front,
        line: None,
        back: b"\n",
    }
}

/// The note of an outcome. A verdict has none.
fn note_of(outcome: &Outcome) -> Note
    ensures { text_of_note result ≡ note_of outcome.now }
{
    match outcome {
        Outcome::Usage => words(b"usage"),
        Outcome::Ended(Ok(_)) => Note {
            front: b"",
            line: None,
            back: b"",
        },
        Outcome::Ended(Err(VerdictFault::Read)) => words(b"read fault"),
        Outcome::Ended(Err(VerdictFault::Write)) => words(b"write fault"),
        Outcome::Ended(Err(VerdictFault::Text { line })) => Note {
            front: b"transcript line ",
            line: Some(*line),
            back: b"\n",
        },
        Outcome::Ended(Err(VerdictFault::Long { line })) => Note {
            front: b"limit: line ",
            line: Some(*line),
            back: b" is long\n",
        },
        Outcome::Ended(Err(VerdictFault::Many)) => words(b"limit: lines"),
        Outcome::Ended(Err(VerdictFault::Memory)) => words(b"want of memory"),
    }
}

/// Whether the word is `why`.
fn is_why(word: &String) -> bool
    ensures { result ≡ is_why word.now }
{
    let why: &[u8] = b"why";
    word.as_bytes() == why
}

/// What the words of the command line ask for, where they are known: no word, or `why`.
fn detail_of(words: &[String]) -> Option<Detail>
    ensures { result ≡ detail_of words.now }
{
    match words {
        [] => Some(Detail::Verdict),
        [word] if is_why(word) => Some(Detail::Reasons),
        _ => None,
    }
}

/// Judges the transcript of the source without a note.
fn outcome_of<S: Source, K: Sink>(
    alloc: Global,
    words: &[String],
    source: &mut S,
    out: &mut K,
) -> Outcome
    ensures usage { (result ≡ Outcome.Usage) ↔ (detail_of words.now ≡ None) }
    ensures untouched { result ≡ Outcome.Usage → (source.new ≡ source.old) × (out.new ≡ out.old) }
    ensures judged { (how : Detail) (text held : List ℕ) → detail_of words.now ≡ Some how → S.left source.old ≡ Some text → K.told out.old ≡ Some held →
        IsOutcome how text held (K.told out.new) result }
    ensures heard { (how : Detail) (text more : List ℕ) → detail_of words.now ≡ Some how → LiesAhead (past S.gave S.ended S.went_on source.old) (past S.gave S.ended S.went_on source.new) text more →
        IsOutcome how text (K.took out.old) (Some (K.took out.new)) result }
    ensures read { result ≡ Outcome.Ended (Err VerdictFault.Read) → HasRisen (S.faults source.old) (S.faults source.new) }
    ensures quiet { (result ≡ Outcome.Ended (Err VerdictFault.Read) → ⊥) → S.faults source.new ≡ S.faults source.old }
    ensures write { result ≡ Outcome.Ended (Err VerdictFault.Write) → HasRisen (K.faults out.old) (K.faults out.new) }
    ensures silent { (result ≡ Outcome.Ended (Err VerdictFault.Write) → ⊥) → K.faults out.new ≡ K.faults out.old }
{
    match detail_of(words) {
        Some(detail) => {
            let judged = write_judged(alloc, Input::Transcript, detail, source, out);
            Outcome::Ended(judged)
        }
        None => Outcome::Usage,
    }
}

/// Notes an outcome. The note is put whole, or its sink failed or had no memory, and then a front of it was put.
pub fn note_outcome<N: Sink>(alloc: Global, notes: &mut N, outcome: &Outcome)
    ensures noted { (held : List ℕ) → N.told notes.old ≡ Some held →
        HasNoted held (note_of outcome.now) (N.told notes.new) (N.faults notes.old) (N.faults notes.new) (N.lacks notes.old) (N.lacks notes.new) }
    ensures counts { N.faults notes.old ≤ N.faults notes.new }
{
    put_note(alloc, notes, &note_of(outcome));
}

/// Judges a history of any database or databases: reads a transcript from the source, and writes to the sink whether the committed
/// transactions were answered as when run whole, one by one, in the order of their decisions (Bernstein, Hadzilacos and Goodman 1987,
/// serializability). It trusts nothing that wrote the transcript.
///
/// With no words it writes `serial N` and the records that the serial run leaves, a line `NODE KEY VALUE` each, or `not serial T LINE`:
/// the first transaction in the order of decisions that was answered otherwise, and the number of the event of its first such operation. With
/// the word `why` the lines `told REPLY` and `serial REPLY` stand behind that: what it was answered, and what the serial run answers. Other
/// words are `Usage`.
///
/// The clause `judged` says this of a source and a sink that tell what they hold. The clause `heard` says it of any: of each text that begins with what the
/// source gave, and of what the sink took.
///
/// A note of the outcome goes to the sink of notes; a verdict has none. `Read` and `Write` come only where the source or the sink of the
/// verdict failed, the others as `write_check` says.
pub fn judge<S: Source, K: Sink, N: Sink>(
    alloc: Global,
    words: &[String],
    source: &mut S,
    out: &mut K,
    notes: &mut N,
) -> Outcome
    ensures usage { (result ≡ Outcome.Usage) ↔ (detail_of words.now ≡ None) }
    ensures untouched { result ≡ Outcome.Usage → (source.new ≡ source.old) × (out.new ≡ out.old) }
    ensures judged { (how : Detail) (text held : List ℕ) → detail_of words.now ≡ Some how → S.left source.old ≡ Some text → K.told out.old ≡ Some held →
        IsOutcome how text held (K.told out.new) result }
    ensures heard { (how : Detail) (text more : List ℕ) → detail_of words.now ≡ Some how → LiesAhead (past S.gave S.ended S.went_on source.old) (past S.gave S.ended S.went_on source.new) text more →
        IsOutcome how text (K.took out.old) (Some (K.took out.new)) result }
    ensures read { result ≡ Outcome.Ended (Err VerdictFault.Read) → HasRisen (S.faults source.old) (S.faults source.new) }
    ensures quiet { (result ≡ Outcome.Ended (Err VerdictFault.Read) → ⊥) → S.faults source.new ≡ S.faults source.old }
    ensures write { result ≡ Outcome.Ended (Err VerdictFault.Write) → HasRisen (K.faults out.old) (K.faults out.new) }
    ensures silent { (result ≡ Outcome.Ended (Err VerdictFault.Write) → ⊥) → K.faults out.new ≡ K.faults out.old }
    ensures noted { (held : List ℕ) → N.told notes.old ≡ Some held →
        HasNoted held (note_of result) (N.told notes.new) (N.faults notes.old) (N.faults notes.new) (N.lacks notes.old) (N.lacks notes.new) }
{
    let outcome = outcome_of(alloc, words, source, out);
    note_outcome(alloc, notes, &outcome);
    outcome
}

/// Judges a resumed run of a history: reads from the source the records from which the run started, a line `NODE KEY VALUE` each, and its
/// transcript behind them, and writes to the sink whether its committed transactions were answered as in a serial run that begins with these
/// records: `serial N` and the records that this run leaves, or `not serial T LINE`. It trusts nothing that wrote them.
///
/// Its clauses say what those of `judge` say, and so do its note and its faults: the lines of the records count where a fault names one. LINE is
/// the number of an event.
pub fn judge_resumed<S: Source, K: Sink, N: Sink>(
    alloc: Global,
    source: &mut S,
    out: &mut K,
    notes: &mut N,
) -> Outcome
    ensures judged { (text held : List ℕ) → S.left source.old ≡ Some text → K.told out.old ≡ Some held → IsResumedOutcome text held (K.told out.new) result }
    ensures heard { (text more : List ℕ) → LiesAhead (past S.gave S.ended S.went_on source.old) (past S.gave S.ended S.went_on source.new) text more →
        IsResumedOutcome text (K.took out.old) (Some (K.took out.new)) result }
    ensures read { result ≡ Outcome.Ended (Err VerdictFault.Read) → HasRisen (S.faults source.old) (S.faults source.new) }
    ensures quiet { (result ≡ Outcome.Ended (Err VerdictFault.Read) → ⊥) → S.faults source.new ≡ S.faults source.old }
    ensures write { result ≡ Outcome.Ended (Err VerdictFault.Write) → HasRisen (K.faults out.old) (K.faults out.new) }
    ensures silent { (result ≡ Outcome.Ended (Err VerdictFault.Write) → ⊥) → K.faults out.new ≡ K.faults out.old }
    ensures noted { (held : List ℕ) → N.told notes.old ≡ Some held →
        HasNoted held (note_of result) (N.told notes.new) (N.faults notes.old) (N.faults notes.new) (N.lacks notes.old) (N.lacks notes.new) }
{
    let outcome = Outcome::Ended(write_resumed_check(alloc, source, out));
    note_outcome(alloc, notes, &outcome);
    outcome
}
