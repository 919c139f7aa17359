//! The fields of a line, each read from the front of what is left.
ghost use Rattle.std.specs.Prelude.{◌≡◌, ◌≤◌, [], ◌∷◌, map, codes, decimal, true, false, if◌then◌else◌, Ok, Err, Some, IfOk, IfErr};
ghost use Rattle.std.specs.Ordering.{is_gt, is_lt};
ghost use Rattle.co_base.specs.Letters.{most_key_bytes, most_value_bytes};
ghost use Rattle.co_base.specs.Order.{key_cmp};
ghost use Rattle.co_schedule.specs.Spelling.{member_word, coord_word, node_word};
ghost use Rattle.co_schedule.specs.Places.{step, number, member, coord, node, key, key_from, key_above, value, one_of, leaves, is_text};
ghost use Rattle.co_schedule.specs.Grammar.{form_or_members_word, form_word, form_named, all_forms, message_word, message_named, all_messages};
ghost use Rattle.co_schedule.specs.View.{IsWithin, IsNode, IsSpelledLeaves, view_word};

use crate::fault::{LineKind, Mistake};
use crate::form::{Form, MessageForm, form_of, message_form_of};
use crate::view::LeavesView;
use crate::word::{is_text_of, leaves_of_word, named_within, node_within, number_within};
use crate::words::Words;
use co_base::{Key, Node, Value};

#[tactic(auto, unfolding(crate::specs::Places::step))]
impl<'a> Words<'a> {
    /// Reads a number from `low` to `high`.
    pub fn number(&mut self, low: u32, high: u32) -> Result<u32, Mistake>
        ensures found { IfOk result (λ n. IsWithin low high n × (self.old ≡ decimal n ∷ self.new)) }
        ensures taken { IfOk result (λ n. step (number low high) self.old ≡ Ok (decimal n, self.new)) }
        ensures fault { IfErr result (λ mistake. step (number low high) self.old ≡ Err mistake) }
    {
        let piece = self.take()?;
        match number_within(piece.word, low, high) {
            Some(found) => Ok(found),
            None => Err(piece.wrong(LineKind::Number)),
        }
    }

    /// Reads the name of one of so many members.
    pub fn member(&mut self, most: u8) -> Result<u8, Mistake>
        ensures found { IfOk result (λ n. IsWithin 1 most n × (self.old ≡ member_word n ∷ self.new)) }
        ensures taken { IfOk result (λ n. step (member most) self.old ≡ Ok (member_word n, self.new)) }
        ensures fault { IfErr result (λ mistake. step (member most) self.old ≡ Err mistake) }
    {
        let piece = self.take()?;
        match named_within(piece.word, b'm', most) {
            Some(found) => Ok(found),
            None => Err(piece.wrong(LineKind::Name)),
        }
    }

    /// Reads the name of one of so many coordinators.
    pub fn coord(&mut self, most: u8) -> Result<u8, Mistake>
        ensures found { IfOk result (λ n. IsWithin 1 most n × (self.old ≡ coord_word n ∷ self.new)) }
        ensures taken { IfOk result (λ n. step (coord most) self.old ≡ Ok (coord_word n, self.new)) }
        ensures fault { IfErr result (λ mistake. step (coord most) self.old ≡ Err mistake) }
    {
        let piece = self.take()?;
        match named_within(piece.word, b'c', most) {
            Some(found) => Ok(found),
            None => Err(piece.wrong(LineKind::Name)),
        }
    }

    /// Reads the name of a node.
    pub fn node(&mut self, members: u8, coords: u8) -> Result<Node, Mistake>
        ensures found { IfOk result (λ n. IsNode members coords n × (self.old ≡ node_word n ∷ self.new)) }
        ensures taken { IfOk result (λ n. step (node members coords) self.old ≡ Ok (node_word n, self.new)) }
        ensures fault { IfErr result (λ mistake. step (node members coords) self.old ≡ Err mistake) }
    {
        let piece = self.take()?;
        match node_within(piece.word, members, coords) {
            Some(found) => Ok(found),
            None => Err(piece.wrong(LineKind::Name)),
        }
    }

    /// Reads a key.
    pub fn key(&mut self) -> Result<&'a [u8], Mistake>
        ensures found { IfOk result (λ text. (is_text most_key_bytes text.now ≡ true) × (self.old ≡ text.now ∷ self.new)) }
        ensures taken { IfOk result (λ text. step key self.old ≡ Ok (text.now, self.new)) }
        ensures fault { IfErr result (λ mistake. step key self.old ≡ Err mistake) }
    {
        let piece = self.take()?;
        if is_text_of(piece.word, Key::MOST) {
            Ok(piece.word)
        } else {
            Err(piece.wrong(LineKind::Name))
        }
    }

    /// Reads a key that is not below another.
    pub fn key_from(&mut self, low: &[u8]) -> Result<&'a [u8], Mistake>
        ensures found { IfOk result (λ text. (is_text most_key_bytes text.now ≡ true) × (is_gt (key_cmp low.now text.now) ≡ false) × (self.old ≡ text.now ∷ self.new)) }
        ensures taken { IfOk result (λ text. step (key_from low.now) self.old ≡ Ok (text.now, self.new)) }
        ensures fault { IfErr result (λ mistake. step (key_from low.now) self.old ≡ Err mistake) }
    {
        let piece = self.take()?;
        if is_text_of(piece.word, Key::MOST) && !low.cmp(piece.word).is_gt() {
            Ok(piece.word)
        } else {
            Err(piece.wrong(LineKind::Name))
        }
    }

    /// Reads a key that is above another.
    pub fn key_above(&mut self, before: &[u8]) -> Result<&'a [u8], Mistake>
        ensures found { IfOk result (λ text. (is_text most_key_bytes text.now ≡ true) × (is_lt (key_cmp before.now text.now) ≡ true) × (self.old ≡ text.now ∷ self.new)) }
        ensures taken { IfOk result (λ text. step (key_above before.now) self.old ≡ Ok (text.now, self.new)) }
        ensures fault { IfErr result (λ mistake. step (key_above before.now) self.old ≡ Err mistake) }
    {
        let piece = self.take()?;
        if is_text_of(piece.word, Key::MOST) && before.cmp(piece.word).is_lt() {
            Ok(piece.word)
        } else {
            Err(piece.wrong(LineKind::Name))
        }
    }

    /// Reads a value.
    pub fn value(&mut self) -> Result<&'a [u8], Mistake>
        ensures found { IfOk result (λ text. (is_text most_value_bytes text.now ≡ true) × (self.old ≡ text.now ∷ self.new)) }
        ensures taken { IfOk result (λ text. step value self.old ≡ Ok (text.now, self.new)) }
        ensures fault { IfErr result (λ mistake. step value self.old ≡ Err mistake) }
    {
        let piece = self.take()?;
        if is_text_of(piece.word, Value::MOST) {
            Ok(piece.word)
        } else {
            Err(piece.wrong(LineKind::Name))
        }
    }

    /// Reads the chosen image of a stop.
    pub fn leaves(&mut self) -> Result<LeavesView<'a>, Mistake>
        ensures found { IfOk result (λ found. IsSpelledLeaves found × (self.old ≡ view_word found ∷ self.new)) }
        ensures taken { IfOk result (λ found. step leaves self.old ≡ Ok (view_word found, self.new)) }
        ensures fault { IfErr result (λ mistake. step leaves self.old ≡ Err mistake) }
    {
        let piece = self.take()?;
        match leaves_of_word(piece.word) {
            Some(found) => Ok(found),
            None => Err(piece.wrong(LineKind::Word)),
        }
    }

    /// Reads one of two words, and tells whether it is the first.
    pub fn either(&mut self, first: &[u8], second: &[u8]) -> Result<bool, Mistake>
        ensures found { IfOk result (λ is_first. self.old ≡ (if is_first then first.now else second.now) ∷ self.new) }
        ensures taken { IfOk result (λ is_first. step (one_of (first.now ∷ second.now ∷ [])) self.old ≡ Ok ((if is_first then first.now else second.now), self.new)) }
        ensures fault { IfErr result (λ mistake. step (one_of (first.now ∷ second.now ∷ [])) self.old ≡ Err mistake) }
    {
        let piece = self.take()?;
        if first == piece.word {
            return Ok(true);
        }
        if second == piece.word {
            return Ok(false);
        }
        Err(piece.wrong(LineKind::Word))
    }

    /// Reads the first word of an event.
    pub fn form(&mut self) -> Result<Form, Mistake>
        ensures found { IfOk result (λ form. self.old ≡ form_word form ∷ self.new) }
        ensures taken { IfOk result (λ form. step (one_of (map form_word all_forms)) self.old ≡ Ok (form_word form, self.new)) }
        ensures named { IfOk result (λ form. form_named (form_word form) ≡ Some form) }
        ensures fault { IfErr result (λ mistake. step (one_of (map form_word all_forms)) self.old ≡ Err mistake) }
    {
        let piece = self.take()?;
        match form_of(piece.word) {
            Some(form) => Ok(form),
            None => Err(piece.wrong(LineKind::Word)),
        }
    }

    /// Reads the first word of an event or of a head, for which no form stands.
    pub fn form_or_members(&mut self) -> Result<Option<Form>, Mistake>
        ensures found { IfOk result (λ form. self.old ≡ form_or_members_word form ∷ self.new) }
        ensures taken { IfOk result (λ form. step (one_of (codes "members" ∷ map form_word all_forms)) self.old ≡ Ok (form_or_members_word form, self.new)) }
        ensures fault { IfErr result (λ mistake. step (one_of (codes "members" ∷ map form_word all_forms)) self.old ≡ Err mistake) }
    {
        let piece = self.take()?;
        if b"members".as_slice() == piece.word {
            return Ok(None);
        }
        match form_of(piece.word) {
            Some(form) => Ok(Some(form)),
            None => Err(piece.wrong(LineKind::Word)),
        }
    }

    /// Reads the first word of a message.
    pub fn message_form(&mut self) -> Result<MessageForm, Mistake>
        ensures found { IfOk result (λ form. self.old ≡ message_word form ∷ self.new) }
        ensures taken { IfOk result (λ form. step (one_of (map message_word all_messages)) self.old ≡ Ok (message_word form, self.new)) }
        ensures named { IfOk result (λ form. message_named (message_word form) ≡ Some form) }
        ensures fault { IfErr result (λ mistake. step (one_of (map message_word all_messages)) self.old ≡ Err mistake) }
    {
        let piece = self.take()?;
        match message_form_of(piece.word) {
            Some(form) => Ok(form),
            None => Err(piece.wrong(LineKind::Word)),
        }
    }
}
