//! Lines as items.
ghost use Rattle.std.specs.Prelude.{◌≡◌, ◌<◌, ◌≤◌, ◌+◌, ◌++◌, ◌∷◌, [], length, Ok, Some, None, IfOk, IfErr, IfSome, IfNone, OnOk, MatchResult, codes, decimal, option_copied, Option};
ghost use Rattle.co_base.specs.RowOrder.{IsInKeyOrder};
ghost use Rattle.co_message.specs.declared.item.Item.{Item};
ghost use Rattle.co_schedule.specs.Words.{Word};
ghost use Rattle.co_schedule.specs.Places.{Places, first_fault, nothing, one_of, key, ◌▸◌};
ghost use Rattle.co_schedule.specs.Grammar as line;
ghost use Rattle.co_schedule.specs.Faults.{IsFirstFault};
ghost use Rattle.co_transcript.specs.Spelling.{row_words, answer_words, mark_words, kind_words, item_words, item_text};
ghost use Rattle.co_transcript.specs.Grammar.{form_word, HasFields, answer_places, rows_places, row_places, reply_places, log_places, line_places, told_word, told_places, item_places};
ghost use Rattle.co_transcript.specs.Items.{IsAnswer, IsMark, IsTold, IsItem, AreRows};
ghost use Rattle.co_transcript.specs.Rows.{last_key};
ghost use Rattle.co_transcript.specs.Faults.{IsTextFault, place_of};

use crate::fault::ItemFault;
use crate::fields::{answer_form, cause, mark_kind, own_key, own_value, row_name, told_form};
use crate::form::{AnswerForm, ToldForm};
use co_base::{MOST_COORDINATORS, MOST_MEMBERS, Mark, Reply, Row, Rows, Txn};
use co_message::{Answer, Item, ItemKind};
use co_schedule::{
    LONGEST_LINE, LineKind, Mistake, NodeCounts, ReadFault, Words, key_of, read_event_fields,
    read_head_kinds, read_message,
};
use std::alloc::Global;

// Reads an answer of which no words are left.
fn alone(words: &Words<'_>, answer: Answer) -> Result<Answer, ReadFault>
    ensures found { IfOk result (λ found. (found ≡ answer) × (words.now ≡ [])) }
    ensures fault { IfErr result (IsFirstFault nothing words.now) }
{
    words.end()?;
    Ok(answer)
}

fn txn_alone(words: &mut Words<'_>) -> Result<Txn, Mistake>
    ensures found { IfOk result (λ t. (t ≤ 4294967295) × (words.old ≡ decimal t ∷ [])) }
    ensures fault { IfErr result (λ mistake. first_fault (line.txn ▸ nothing) words.old ≡ Some mistake) }
{
    let number = words.number(0, u32::MAX)?;
    words.end()?;
    Ok(Txn(number))
}

fn counts(words: &mut Words<'_>) -> Result<(u16, u16), Mistake>
    ensures found { IfOk result (λ x. (x.0 ≤ 65535) × (x.1 ≤ 65535) × (words.old ≡ decimal x.0 ∷ decimal x.1 ∷ [])) }
    ensures fault { IfErr result (λ mistake. first_fault (line.count ▸ line.count ▸ nothing) words.old ≡ Some mistake) }
{
    let kept = words.number(0, 65535)?;
    let carried = words.number(0, 65535)?;
    words.end()?;
    Ok((kept as u16, carried as u16))
}

// Reads a record whose key is above the last one, and gives its key.
fn add_row<'a>(
    alloc: Global,
    words: &mut Words<'a>,
    rows: &mut Rows,
    before: Option<&[u8]>,
) -> Result<&'a [u8], ReadFault>
    requires last { last_key rows.old ≡ option_copied before }
    requires order { IsInKeyOrder rows.old }
    ensures found { OnOk result (row_words rows.new ++ words.new ≡ row_words rows.old ++ words.old) }
    ensures last { IfOk result (λ name. last_key rows.new ≡ Some name.now) }
    ensures counted { OnOk result (length rows.new ≡ length rows.old + 1) }
    ensures order { OnOk result (IsInKeyOrder rows.new) }
    ensures texts { OnOk result (AreRows rows.old → AreRows rows.new) }
    ensures taken { (next : Option Word → Places) → IfOk result (λ name. first_fault (row_places (option_copied before.entry) next) words.old ≡ first_fault (next (Some name.now)) words.new) }
    ensures fault { (next : Option Word → Places) → IfErr result (IsFirstFault (row_places (option_copied before.entry) next) words.old) }
{
    let name = row_name(words, before)?;
    let value = own_value(alloc, words)?;
    let key = key_of(alloc, name)?;
    rows.push(Row { key, value })?;
    Ok(name)
}

// Reads so many records, which are all that is left.
fn read_rows(alloc: Global, words: &mut Words<'_>, count: u32) -> Result<Rows, ReadFault>
    ensures found { IfOk result (λ rows. (length rows ≡ count) × AreRows rows × IsInKeyOrder rows × (words.old ≡ row_words rows)) }
    ensures fault { IfErr result (IsFirstFault (rows_places count None) words.old) }
{
    let mut rows = Rows::new(alloc);
    let mut before: Option<&[u8]> = None;
    while rows.len() < count as usize {
        let name = add_row(alloc, words, &mut rows, before)?;
        before = Some(name);
    }
    words.end()?;
    Ok(rows)
}

fn got(alloc: Global, words: &mut Words<'_>) -> Result<Answer, ReadFault>
    ensures found { IfOk result (λ answer. IsAnswer answer × (form_word AnswerForm.Got ∷ words.old ≡ answer_words answer)) }
    ensures fault { IfErr result (IsFirstFault (answer_places AnswerForm.Got) words.old) }
{
    let value = own_value(alloc, words)?;
    words.end()?;
    Ok(Answer::Replied(Reply::Got(Some(value))))
}

fn rows(alloc: Global, words: &mut Words<'_>) -> Result<Answer, ReadFault>
    ensures found { IfOk result (λ answer. IsAnswer answer × (form_word AnswerForm.Rows ∷ words.old ≡ answer_words answer)) }
    ensures fault { IfErr result (IsFirstFault (answer_places AnswerForm.Rows) words.old) }
{
    let count = words.number(0, u32::MAX)?;
    let rows = read_rows(alloc, words, count)?;
    Ok(Answer::Replied(Reply::Rows(rows)))
}

fn stale(alloc: Global, words: &mut Words<'_>) -> Result<Answer, ReadFault>
    ensures found { IfOk result (λ answer. IsAnswer answer × (codes "no" ∷ codes "stale" ∷ words.old ≡ answer_words answer)) }
    ensures fault { IfErr result (IsFirstFault (key ▸ nothing) words.old) }
{
    let key = own_key(alloc, words)?;
    words.end()?;
    Ok(Answer::NoStale(key))
}

fn lost_or_stale(alloc: Global, words: &mut Words<'_>) -> Result<Answer, ReadFault>
    ensures found { IfOk result (λ answer. IsAnswer answer × (form_word AnswerForm.No ∷ words.old ≡ answer_words answer)) }
    ensures fault { IfErr result (IsFirstFault (answer_places AnswerForm.No) words.old) }
{
    if words.either(b"lost", b"stale")? {
        let (kept, carried) = counts(words)?;
        return Ok(Answer::NoLost { kept, carried });
    }
    stale(alloc, words)
}

// Reads an answer of a fixed second word.
fn second(words: &mut Words<'_>, word: &[u8], answer: Answer) -> Result<Answer, ReadFault>
    ensures found { IfOk result (λ found. (found ≡ answer) × (words.old ≡ word.now ∷ [])) }
    ensures fault { IfErr result (IsFirstFault (one_of (word.now ∷ []) ▸ nothing) words.old) }
{
    words.fixed(word)?;
    words.end()?;
    Ok(answer)
}

fn waiting(words: &mut Words<'_>) -> Result<Answer, ReadFault>
    ensures found { IfOk result (λ answer. IsAnswer answer × (form_word AnswerForm.Waiting ∷ words.old ≡ answer_words answer)) }
    ensures fault { IfErr result (IsFirstFault (answer_places AnswerForm.Waiting) words.old) }
{
    let member = words.member(MOST_MEMBERS)?;
    words.end()?;
    Ok(Answer::Waiting(member))
}

fn aborted(words: &mut Words<'_>) -> Result<Answer, ReadFault>
    ensures found { IfOk result (λ answer. IsAnswer answer × (form_word AnswerForm.Aborted ∷ words.old ≡ answer_words answer)) }
    ensures fault { IfErr result (IsFirstFault (answer_places AnswerForm.Aborted) words.old) }
{
    let by = cause(words)?;
    words.end()?;
    Ok(Answer::Aborted(by))
}

fn filled(words: &mut Words<'_>) -> Result<Answer, ReadFault>
    ensures found { IfOk result (λ answer. IsAnswer answer × (form_word AnswerForm.Filled ∷ words.old ≡ answer_words answer)) }
    ensures fault { IfErr result (IsFirstFault (answer_places AnswerForm.Filled) words.old) }
{
    let generation = words.number(0, u32::MAX)?;
    words.end()?;
    Ok(Answer::Filled(generation))
}

fn stopped(words: &mut Words<'_>) -> Result<Answer, ReadFault>
    ensures found { IfOk result (λ answer. IsAnswer answer × (form_word AnswerForm.Stopped ∷ words.old ≡ answer_words answer)) }
    ensures fault { IfErr result (IsFirstFault (answer_places AnswerForm.Stopped) words.old) }
{
    let call = words.number(1, 4)?;
    words.end()?;
    Ok(Answer::Stopped(call as u8))
}

fn down(words: &mut Words<'_>) -> Result<Answer, ReadFault>
    ensures found { IfOk result (λ answer. IsAnswer answer × (form_word AnswerForm.Down ∷ words.old ≡ answer_words answer)) }
    ensures fault { IfErr result (IsFirstFault (answer_places AnswerForm.Down) words.old) }
{
    let node = words.node(MOST_MEMBERS, MOST_COORDINATORS)?;
    words.end()?;
    Ok(Answer::Down(node))
}

// The answer of which nothing but its first word is told.
fn plain_answer(form: AnswerForm) -> Option<Answer>
    ensures found { IfSome result (λ answer. IsAnswer answer × (answer_words answer ≡ form_word form ∷ []) × (answer_places form ≡ nothing)) }
    ensures none { IfNone result (HasFields form) }
{
    match form {
        AnswerForm::Opened => Some(Answer::Opened),
        AnswerForm::Begun => Some(Answer::Begun),
        AnswerForm::Done => Some(Answer::Replied(Reply::Done)),
        AnswerForm::Missing => Some(Answer::Replied(Reply::Got(None))),
        AnswerForm::Committed => Some(Answer::Committed),
        AnswerForm::Decided => Some(Answer::Decided),
        AnswerForm::Ended => Some(Answer::Ended),
        AnswerForm::Idle => Some(Answer::Idle),
        AnswerForm::Unknown => Some(Answer::Unknown),
        AnswerForm::Yes => Some(Answer::Yes),
        AnswerForm::Voted => Some(Answer::Voted),
        AnswerForm::Unasked => Some(Answer::Unasked),
        AnswerForm::Unvoted => Some(Answer::Unvoted),
        AnswerForm::Already => Some(Answer::Already),
        AnswerForm::Absent => Some(Answer::Absent),
        AnswerForm::Installed => Some(Answer::Installed),
        AnswerForm::Dropped => Some(Answer::Dropped),
        AnswerForm::Kept => Some(Answer::Kept),
        AnswerForm::Asking => Some(Answer::Asking),
        AnswerForm::Crashed => Some(Answer::Crashed),
        AnswerForm::Up => Some(Answer::Up),
        AnswerForm::Running => Some(Answer::Running),
        AnswerForm::Armed => Some(Answer::Armed),
        AnswerForm::Closed => Some(Answer::Closed),
        AnswerForm::Used => Some(Answer::Used),
        AnswerForm::Asked => Some(Answer::Asked),
        AnswerForm::Unsent => Some(Answer::Unsent),
        _ => None,
    }
}

// Reads an answer that has more words than its first one, behind that.
fn answer_with_fields(
    alloc: Global,
    words: &mut Words<'_>,
    form: AnswerForm,
) -> Result<Answer, ReadFault>
    requires { HasFields form }
    ensures found { IfOk result (λ answer. IsAnswer answer × (form_word form ∷ words.old ≡ answer_words answer)) }
    ensures fault { IfErr result (IsFirstFault (answer_places form) words.old) }
{
    match form {
        AnswerForm::Got => got(alloc, words),
        AnswerForm::Rows => rows(alloc, words),
        AnswerForm::Gone => {
            let (kept, carried) = counts(words)?;
            Ok(Answer::Gone { kept, carried })
        }
        AnswerForm::No => lost_or_stale(alloc, words),
        AnswerForm::Waiting => waiting(words),
        AnswerForm::Aborted => aborted(words),
        AnswerForm::Filled => filled(words),
        AnswerForm::Stopped => stopped(words),
        AnswerForm::Down => down(words),
        AnswerForm::Blocked => Ok(Answer::Blocked(txn_alone(words)?)),
        AnswerForm::Held => Ok(Answer::Held(txn_alone(words)?)),
        AnswerForm::Too => second(words, b"many", Answer::TooMany),
        AnswerForm::Not => second(words, b"begun", Answer::NotBegun),
        _ => unreachable!(),
    }
}

// Reads an answer behind its first word.
fn answer_of(alloc: Global, words: &mut Words<'_>, form: AnswerForm) -> Result<Answer, ReadFault>
    ensures found { IfOk result (λ answer. IsAnswer answer × (form_word form ∷ words.old ≡ answer_words answer)) }
    ensures fault { IfErr result (IsFirstFault (answer_places form) words.old) }
{
    match plain_answer(form) {
        Some(answer) => alone(words, answer),
        None => answer_with_fields(alloc, words, form),
    }
}

fn read_answer(alloc: Global, words: &mut Words<'_>) -> Result<Answer, ReadFault>
    ensures found { IfOk result (λ answer. IsAnswer answer × (words.old ≡ answer_words answer)) }
    ensures fault { IfErr result (IsFirstFault reply_places words.old) }
{
    let form = answer_form(words)?;
    answer_of(alloc, words, form)
}

fn read_mark(words: &mut Words<'_>) -> Result<Mark, ReadFault>
    ensures found { IfOk result (λ mark. IsMark mark × (words.old ≡ mark_words mark)) }
    ensures fault { IfErr result (IsFirstFault log_places words.old) }
{
    let node = words.node(MOST_MEMBERS, MOST_COORDINATORS)?;
    let kind = mark_kind(words)?;
    let number = words.number(0, u32::MAX)?;
    words.end()?;
    Ok(Mark { node, kind, number })
}

// Reads a head or an event.
fn read_line(alloc: Global, words: &mut Words<'_>) -> Result<ItemKind, ReadFault>
    ensures found { IfOk result (λ what. IsTold what × (codes "event" ∷ words.old ≡ kind_words what)) }
    ensures fault { IfErr result (IsFirstFault line_places words.old) }
{
    words.within(LONGEST_LINE)?;
    match words.form_or_members()? {
        None => Ok(ItemKind::Head(read_head_kinds(alloc, words)?)),
        Some(form) => Ok(ItemKind::Event(read_event_fields(alloc, words, NodeCounts::MOST, form)?)),
    }
}

fn told_of(alloc: Global, words: &mut Words<'_>, form: ToldForm) -> Result<ItemKind, ReadFault>
    ensures found { IfOk result (λ what. IsTold what × (told_word form ∷ words.old ≡ kind_words what)) }
    ensures fault { IfErr result (IsFirstFault (told_places form) words.old) }
{
    match form {
        ToldForm::Event => read_line(alloc, words),
        ToldForm::Log => Ok(ItemKind::Log(read_mark(words)?)),
        ToldForm::Send => Ok(ItemKind::Sent(read_message(words, NodeCounts::MOST)?)),
        ToldForm::Reply => Ok(ItemKind::Answered(read_answer(alloc, words)?)),
    }
}

fn read_words(alloc: Global, words: &mut Words<'_>) -> Result<Item, ReadFault>
    ensures found { IfOk result (λ item. IsItem item × (words.old ≡ item_words item)) }
    ensures fault { IfErr result (IsFirstFault item_places words.old) }
{
    let number = words.number(0, u32::MAX)?;
    let form = told_form(words)?;
    let what = told_of(alloc, words, form)?;
    Ok(Item { number, what })
}

/// Reads a line, without its newline, as an item.
///
/// `Text` comes exactly where the line is the text of no item; its place is that of the first word
/// from the left that is not in the set of its place, the line's length where a word is missing,
/// and that of the space behind the last word where something stands behind it.
pub fn read_item(alloc: Global, line: &[u8]) -> Result<Item, ItemFault>
    requires { length line.now < 4294967296 }
    ensures found { IfOk result (λ item. IsItem item × (line.now ≡ item_text item)) }
    ensures only { (item : Item) → IsItem item → line.now ≡ item_text item → MatchResult result (λ found. found ≡ item) (λ fault. fault ≡ ItemFault.Memory) }
    ensures fault { IfErr result (IsTextFault line.now) }
{
    let mut words = Words::of(line);
    match read_words(alloc, &mut words) {
        Ok(item) => Ok(item),
        Err(ReadFault::Mistake(mistake)) => Err(ItemFault::Text {
            at: place_in(line, mistake),
        }),
        Err(ReadFault::Memory) => Err(ItemFault::Memory),
    }
}

// The place of a mistake, counted from the front of the line.
fn place_in(line: &[u8], mistake: Mistake) -> u32
    requires { length line.now < 4294967296 }
    ensures { result ≡ place_of line.now mistake }
{
    let at = line.len().saturating_sub(mistake.left);
    let before = match mistake.kind {
        LineKind::Extra => 1,
        _ => 0,
    };
    at.saturating_sub(before) as u32
}
