//! The tests of single words.
ghost use Rattle.std.specs.Prelude.{◌∷◌, ◌||◌, is_some, ◌≡◌, ◌<◌, ◌^◌, ℕ, Some, IfSome, IfNone, decimal};
ghost use Rattle.std.specs.List.{list_all};
ghost use Rattle.co_schedule.specs.Places.{is_text, is_hex, is_lower_digit, is_visible, is_number, is_named, is_leaves};
ghost use Rattle.co_schedule.specs.Spelling.{node_word};
ghost use Rattle.co_schedule.specs.View.{IsWithin, IsNode, IsSpelledLeaves, view_word};

use crate::view::LeavesView;
use co_base::Node;
use itoa::Buffer;
use std::str::from_utf8;

fn parsed(word: &[u8]) -> Option<u64>
    ensures { (number : ℕ) → number < 2 ^ 64 → word.now ≡ decimal number → result ≡ Some number }
{
    match from_utf8(word) {
        Ok(text) => text.parse().ok(),
        Err(_) => None,
    }
}

/// The number that the word spells as numbers are written: in decimal digits, without a sign and
/// without a leading zero.
pub fn number_of(word: &[u8]) -> Option<u64>
    ensures found { IfSome result (λ number. word.now ≡ decimal number) }
    ensures none { IfNone result ((number : ℕ) → number < 2 ^ 64 → word.now ≡ decimal number → ⊥) }
{
    let number = parsed(word)?;
    let mut buffer = Buffer::new();
    if buffer.format(number).as_bytes() == word {
        Some(number)
    } else {
        None
    }
}

fn are_visible(word: &[u8]) -> bool
    ensures { result ≡ list_all is_visible word.now }
{
    word.iter().all(|byte| (0x21..=0x7e).contains(byte))
}

/// Whether the word is 1 to `most` visible characters.
pub fn is_text_of(word: &[u8], most: usize) -> bool
    ensures { result ≡ is_text most word.now }
{
    (1..=most).contains(&word.len()) && are_visible(word)
}

fn is_lower_digit_of(byte: u8) -> bool
    ensures { result ≡ is_lower_digit byte }
{
    matches!(byte, b'0'..=b'9' | b'a'..=b'f')
}

fn are_lower_digits(word: &[u8]) -> bool
    ensures { result ≡ list_all is_lower_digit word.now }
{
    word.iter().all(|byte| is_lower_digit_of(*byte))
}

/// Whether the word is two lower-case digits for each of some bytes.
pub fn is_hex_of(word: &[u8]) -> bool
    ensures { result ≡ is_hex word.now }
{
    word.len() % 2 == 0 && are_lower_digits(word)
}

/// The number from `low` to `high` that the word spells, of 64 bits.
pub fn long_number_within(word: &[u8], low: u64, high: u64) -> Option<u64>
    ensures found { IfSome result (λ number. IsWithin low high number × (word.now ≡ decimal number)) }
    ensures test { is_some result ≡ is_number low high word.now }
{
    match number_of(word) {
        Some(number) if low <= number && number <= high => Some(number),
        _ => None,
    }
}

/// The number from `low` to `high` that the word spells.
pub fn number_within(word: &[u8], low: u32, high: u32) -> Option<u32>
    ensures found { IfSome result (λ number. IsWithin low high number × (word.now ≡ decimal number)) }
    ensures test { is_some result ≡ is_number low high word.now }
{
    match long_number_within(word, u64::from(low), u64::from(high)) {
        Some(number) => Some(number as u32),
        None => None,
    }
}

/// The number from 1 to `most` that the word spells behind the letter.
pub fn named_within(word: &[u8], letter: u8, most: u8) -> Option<u8>
    ensures found { IfSome result (λ number. IsWithin 1 most number × (word.now ≡ letter ∷ decimal number)) }
    ensures test { is_some result ≡ is_named letter most word.now }
{
    match word {
        [first, digits @ ..] if *first == letter => {
            let number = number_within(digits, 1, u32::from(most))?;
            Some(number as u8)
        }
        _ => None,
    }
}

/// The node that the word names.
pub fn node_within(word: &[u8], members: u8, coords: u8) -> Option<Node>
    ensures found { IfSome result (λ node. IsNode members coords node × (word.now ≡ node_word node)) }
    ensures test { is_some result ≡ (is_named 109 members word.now || is_named 99 coords word.now) }
{
    if let Some(number) = named_within(word, b'm', members) {
        return Some(Node::Member(number));
    }
    let number = named_within(word, b'c', coords)?;
    Some(Node::Coord(number))
}

/// The chosen image that the word spells.
pub fn leaves_of_word(word: &[u8]) -> Option<LeavesView<'_>>
    ensures found { IfSome result (λ leaves. IsSpelledLeaves leaves × (word.now ≡ view_word leaves)) }
    ensures test { is_some result ≡ is_leaves word.now }
{
    if word == b"old".as_slice() {
        return Some(LeavesView::Old);
    }
    if word == b"new".as_slice() {
        return Some(LeavesView::New);
    }
    match word {
        [b'x', digits @ ..] if is_hex_of(digits) => Some(LeavesView::Digits(digits)),
        _ => None,
    }
}
