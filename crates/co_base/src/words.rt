//! The bytes of keys, compared eight at a time.
ghost use Rattle.std.specs.Prelude.{◌≡◌, ◌+◌, ◌≤◌, take, drop};
ghost use Rattle.std.specs.Ordering.{nat_cmp};
ghost use Rattle.std.specs.Cmp.Lexicographic.{slice_cmp};
ghost use Rattle.std.specs.Int.Digits.{number_from_digits};

use std::cmp::Ordering;

/// The letters of a key, and zeros behind them.
pub(crate) type Padded = [u8; 32];

/// How many bytes a word has.
const WORD: usize = 8;

/// How many words there are.
const WORDS: usize = 4;

/// The eight bytes from a place on as a number, the first the highest.
fn word(bytes: &Padded, at: usize) -> u64
    requires { at + 8 ≤ 32 }
    ensures { result ≡ number_from_digits 256 (take 8 (drop at bytes.now)) }
{
    u64::from_be_bytes([
        bytes[at],
        bytes[at + 1],
        bytes[at + 2],
        bytes[at + 3],
        bytes[at + 4],
        bytes[at + 5],
        bytes[at + 6],
        bytes[at + 7],
    ])
}

/// The order of the bytes: the first word that differs decides.
pub(crate) fn order_by_words(own: &Padded, other: &Padded) -> Ordering
    ensures { result ≡ slice_cmp nat_cmp own.now other.now }
{
    for place in 0..WORDS {
        let (mine, theirs) = (word(own, WORD * place), word(other, WORD * place));
        if mine != theirs {
            return mine.cmp(&theirs);
        }
    }
    Ordering::Equal
}
