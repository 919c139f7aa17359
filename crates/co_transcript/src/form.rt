//! The first words of answers, marks and causes.
ghost use Rattle.std.specs.Prelude.{◌≡◌, Some, IfSome, is_some, map};
ghost use Rattle.co_schedule.specs.Places.{is_in, one_of};
ghost use Rattle.co_transcript.specs.Spelling.{mark_word, cause_word};
ghost use Rattle.co_transcript.specs.Grammar.{form_word, form_named, all_forms, mark_named, all_marks, cause_named, all_causes, told_word, told_named, all_told};

use crate::writing::{cause_text, mark_text};
use co_base::MarkKind;
use co_message::Cause;

/// The first words of answers.
#[derive(Clone, Copy)]
pub enum AnswerForm {
    Opened,
    Begun,
    Done,
    Got,
    Missing,
    Rows,
    Blocked,
    Gone,
    Too,
    Waiting,
    Committed,
    Aborted,
    Decided,
    Ended,
    Idle,
    Unknown,
    Yes,
    No,
    Held,
    Voted,
    Unasked,
    Unvoted,
    Already,
    Absent,
    Installed,
    Dropped,
    Kept,
    Asking,
    Crashed,
    Up,
    Running,
    Armed,
    Closed,
    Filled,
    Stopped,
    Used,
    Not,
    Asked,
    Unsent,
    Down,
}

const FORMS: [AnswerForm; 40] = [
    AnswerForm::Opened,
    AnswerForm::Begun,
    AnswerForm::Done,
    AnswerForm::Got,
    AnswerForm::Missing,
    AnswerForm::Rows,
    AnswerForm::Blocked,
    AnswerForm::Gone,
    AnswerForm::Too,
    AnswerForm::Waiting,
    AnswerForm::Committed,
    AnswerForm::Aborted,
    AnswerForm::Decided,
    AnswerForm::Ended,
    AnswerForm::Idle,
    AnswerForm::Unknown,
    AnswerForm::Yes,
    AnswerForm::No,
    AnswerForm::Held,
    AnswerForm::Voted,
    AnswerForm::Unasked,
    AnswerForm::Unvoted,
    AnswerForm::Already,
    AnswerForm::Absent,
    AnswerForm::Installed,
    AnswerForm::Dropped,
    AnswerForm::Kept,
    AnswerForm::Asking,
    AnswerForm::Crashed,
    AnswerForm::Up,
    AnswerForm::Running,
    AnswerForm::Armed,
    AnswerForm::Closed,
    AnswerForm::Filled,
    AnswerForm::Stopped,
    AnswerForm::Used,
    AnswerForm::Not,
    AnswerForm::Asked,
    AnswerForm::Unsent,
    AnswerForm::Down,
];

fn form_text(form: AnswerForm) -> &'static [u8]
    ensures { result.now ≡ form_word form }
{
    match form {
        AnswerForm::Opened => b"open",
        AnswerForm::Begun => b"begun",
        AnswerForm::Done => b"done",
        AnswerForm::Got => b"got",
        AnswerForm::Missing => b"missing",
        AnswerForm::Rows => b"rows",
        AnswerForm::Blocked => b"blocked",
        AnswerForm::Gone => b"gone",
        AnswerForm::Too => b"too",
        AnswerForm::Waiting => b"waiting",
        AnswerForm::Committed => b"committed",
        AnswerForm::Aborted => b"aborted",
        AnswerForm::Decided => b"decided",
        AnswerForm::Ended => b"ended",
        AnswerForm::Idle => b"idle",
        AnswerForm::Unknown => b"unknown",
        AnswerForm::Yes => b"yes",
        AnswerForm::No => b"no",
        AnswerForm::Held => b"held",
        AnswerForm::Voted => b"voted",
        AnswerForm::Unasked => b"unasked",
        AnswerForm::Unvoted => b"unvoted",
        AnswerForm::Already => b"already",
        AnswerForm::Absent => b"absent",
        AnswerForm::Installed => b"installed",
        AnswerForm::Dropped => b"dropped",
        AnswerForm::Kept => b"kept",
        AnswerForm::Asking => b"asking",
        AnswerForm::Crashed => b"crashed",
        AnswerForm::Up => b"up",
        AnswerForm::Running => b"running",
        AnswerForm::Armed => b"armed",
        AnswerForm::Closed => b"closed",
        AnswerForm::Filled => b"filled",
        AnswerForm::Stopped => b"stopped",
        AnswerForm::Used => b"used",
        AnswerForm::Not => b"not",
        AnswerForm::Asked => b"asked",
        AnswerForm::Unsent => b"unsent",
        AnswerForm::Down => b"down",
    }
}

fn find_form(word: &[u8]) -> Option<AnswerForm>
    ensures { result ≡ form_named word.now }
{
    FORMS
        .iter()
        .copied()
        .find(|known| form_text(*known) == word)
}

/// The answers whose first word this is.
pub fn form_of(word: &[u8]) -> Option<AnswerForm>
    ensures found { IfSome result (λ known. (word.now ≡ form_word known) × (form_named (form_word known) ≡ Some known)) }
    ensures test { is_some result ≡ is_in (one_of (map form_word all_forms)) word.now }
{
    find_form(word)
}

const MARKS: [MarkKind; 6] = [
    MarkKind::Header,
    MarkKind::Prepare,
    MarkKind::Commit,
    MarkKind::Abort,
    MarkKind::End,
    MarkKind::Checkpoint,
];

fn find_mark(word: &[u8]) -> Option<MarkKind>
    ensures { result ≡ mark_named word.now }
{
    MARKS
        .iter()
        .copied()
        .find(|known| mark_text(*known) == word)
}

/// The kind of record whose word this is.
pub fn mark_of(word: &[u8]) -> Option<MarkKind>
    ensures found { IfSome result (λ known. (word.now ≡ mark_word known) × (mark_named (mark_word known) ≡ Some known)) }
    ensures test { is_some result ≡ is_in (one_of (map mark_word all_marks)) word.now }
{
    find_mark(word)
}

const CAUSES: [Cause; 3] = [Cause::Vote, Cause::Timer, Cause::Client];

fn find_cause(word: &[u8]) -> Option<Cause>
    ensures { result ≡ cause_named word.now }
{
    CAUSES
        .iter()
        .copied()
        .find(|known| cause_text(*known) == word)
}

/// The cause whose word this is.
pub fn cause_of(word: &[u8]) -> Option<Cause>
    ensures found { IfSome result (λ known. (word.now ≡ cause_word known) × (cause_named (cause_word known) ≡ Some known)) }
    ensures test { is_some result ≡ is_in (one_of (map cause_word all_causes)) word.now }
{
    find_cause(word)
}

/// What an item tells, by the word behind its number.
#[derive(Clone, Copy)]
pub enum ToldForm {
    Event,
    Log,
    Send,
    Reply,
}

const TOLD: [ToldForm; 4] = [
    ToldForm::Event,
    ToldForm::Log,
    ToldForm::Send,
    ToldForm::Reply,
];

fn told_text(form: ToldForm) -> &'static [u8]
    ensures { result.now ≡ told_word form }
{
    match form {
        ToldForm::Event => b"event",
        ToldForm::Log => b"log",
        ToldForm::Send => b"send",
        ToldForm::Reply => b"reply",
    }
}

fn find_told(word: &[u8]) -> Option<ToldForm>
    ensures { result ≡ told_named word.now }
{
    TOLD.iter().copied().find(|known| told_text(*known) == word)
}

/// What an item tells where this word stands behind its number.
pub fn told_of(word: &[u8]) -> Option<ToldForm>
    ensures found { IfSome result (λ known. (word.now ≡ told_word known) × (told_named (told_word known) ≡ Some known)) }
    ensures test { is_some result ≡ is_in (one_of (map told_word all_told)) word.now }
{
    find_told(word)
}
