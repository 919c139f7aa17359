//! The fields of an item, each read from the front of what is left.
ghost use Rattle.std.specs.Prelude.{◌≡◌, ◌∷◌, map, Ok, Err, Some, None, IfOk, IfErr, option_copied, true};
ghost use Rattle.co_base.specs.Letters.{IsText, most_key_bytes, most_value_bytes};
ghost use Rattle.co_schedule.specs.Places.{step, one_of, value, key, is_in, is_text};
ghost use Rattle.co_transcript.specs.Faults.{IsStepFault};
ghost use Rattle.co_transcript.specs.Spelling.{mark_word, cause_word};
ghost use Rattle.co_transcript.specs.Grammar.{form_word, form_named, all_forms, all_marks, all_causes, told_word, told_named, all_told, row_key};

use crate::form::{AnswerForm, ToldForm, cause_of, form_of, mark_of, told_of};
use co_base::{Key, MarkKind, Value};
use co_message::Cause;
use co_schedule::{LineKind, Mistake, ReadFault, Words, key_of, value_of};
use std::alloc::Global;

/// Reads the first word of an answer.
#[tactic(auto, unfolding(co_schedule::specs::Places::step))]
pub fn answer_form(words: &mut Words<'_>) -> Result<AnswerForm, Mistake>
    ensures found { IfOk result (λ form. words.old ≡ form_word form ∷ words.new) }
    ensures taken { IfOk result (λ form. step (one_of (map form_word all_forms)) words.old ≡ Ok (form_word form, words.new)) }
    ensures named { IfOk result (λ form. form_named (form_word form) ≡ Some form) }
    ensures fault { IfErr result (λ mistake. step (one_of (map form_word all_forms)) words.old ≡ Err mistake) }
{
    let piece = words.take()?;
    match form_of(piece.word) {
        Some(form) => Ok(form),
        None => Err(piece.wrong(LineKind::Word)),
    }
}

/// Reads the word behind the number of an item.
#[tactic(auto, unfolding(co_schedule::specs::Places::step))]
pub fn told_form(words: &mut Words<'_>) -> Result<ToldForm, Mistake>
    ensures found { IfOk result (λ form. words.old ≡ told_word form ∷ words.new) }
    ensures taken { IfOk result (λ form. step (one_of (map told_word all_told)) words.old ≡ Ok (told_word form, words.new)) }
    ensures named { IfOk result (λ form. told_named (told_word form) ≡ Some form) }
    ensures fault { IfErr result (λ mistake. step (one_of (map told_word all_told)) words.old ≡ Err mistake) }
{
    let piece = words.take()?;
    match told_of(piece.word) {
        Some(form) => Ok(form),
        None => Err(piece.wrong(LineKind::Word)),
    }
}

/// Reads the kind of a record.
#[tactic(auto, unfolding(co_schedule::specs::Places::step))]
pub fn mark_kind(words: &mut Words<'_>) -> Result<MarkKind, Mistake>
    ensures found { IfOk result (λ kind. words.old ≡ mark_word kind ∷ words.new) }
    ensures taken { IfOk result (λ kind. step (one_of (map mark_word all_marks)) words.old ≡ Ok (mark_word kind, words.new)) }
    ensures fault { IfErr result (λ mistake. step (one_of (map mark_word all_marks)) words.old ≡ Err mistake) }
{
    let piece = words.take()?;
    match mark_of(piece.word) {
        Some(kind) => Ok(kind),
        None => Err(piece.wrong(LineKind::Word)),
    }
}

/// Reads the cause of an abort.
#[tactic(auto, unfolding(co_schedule::specs::Places::step))]
pub fn cause(words: &mut Words<'_>) -> Result<Cause, Mistake>
    ensures found { IfOk result (λ cause. words.old ≡ cause_word cause ∷ words.new) }
    ensures taken { IfOk result (λ cause. step (one_of (map cause_word all_causes)) words.old ≡ Ok (cause_word cause, words.new)) }
    ensures fault { IfErr result (λ mistake. step (one_of (map cause_word all_causes)) words.old ≡ Err mistake) }
{
    let piece = words.take()?;
    match cause_of(piece.word) {
        Some(cause) => Ok(cause),
        None => Err(piece.wrong(LineKind::Word)),
    }
}

/// Reads the key of a record, which is above the key before it, if there is one.
pub fn row_name<'a>(words: &mut Words<'a>, before: Option<&[u8]>) -> Result<&'a [u8], Mistake>
    ensures found { IfOk result (λ text. (is_text most_key_bytes text.now ≡ true) × (is_in (row_key (option_copied before.entry)) text.now ≡ true) × (words.old ≡ text.now ∷ words.new)) }
    ensures taken { IfOk result (λ text. step (row_key (option_copied before.entry)) words.old ≡ Ok (text.now, words.new)) }
    ensures fault { IfErr result (λ mistake. step (row_key (option_copied before.entry)) words.old ≡ Err mistake) }
{
    match before {
        None => words.key(),
        Some(before) => words.key_above(before),
    }
}

/// Reads a value with a text of its own.
pub fn own_value(alloc: Global, words: &mut Words<'_>) -> Result<Value, ReadFault>
    ensures found { IfOk result (λ text. words.old ≡ text ∷ words.new) }
    ensures text { IfOk result (λ text. IsText most_value_bytes text) }
    ensures taken { IfOk result (λ text. step value words.old ≡ Ok (text, words.new)) }
    ensures fault { IfErr result (IsStepFault value words.old) }
{
    let text = words.value()?;
    Ok(value_of(alloc, text)?)
}

/// Reads a key with a text of its own.
pub fn own_key(alloc: Global, words: &mut Words<'_>) -> Result<Key, ReadFault>
    ensures found { IfOk result (λ text. words.old ≡ text ∷ words.new) }
    ensures text { IfOk result (λ text. IsText most_key_bytes text) }
    ensures taken { IfOk result (λ text. step key words.old ≡ Ok (text, words.new)) }
    ensures fault { IfErr result (IsStepFault key words.old) }
{
    let text = words.key()?;
    Ok(key_of(alloc, text)?)
}
