//! The words of settings.
use crate::fault::CaseFault;
use co_outside::{HomeCall, Spot};
use std::alloc::Global;

/// What stands before the first space, and what stands behind it.
pub(crate) fn word(text: &[u8]) -> (&[u8], &[u8]) {
    match text.iter().position(|b| *b == b' ') {
        Some(at) => (&text[..at], &text[at + 1..]),
        None => (text, &[]),
    }
}

/// The number that a word spells.
pub(crate) fn number_of(word: &[u8]) -> u32 {
    let mut number: u32 = 0;
    for digit in word {
        let digit = u32::from(digit.saturating_sub(b'0'));
        number = number.saturating_mul(10).saturating_add(digit);
    }
    number
}

/// The kind of call that a word names.
pub(crate) fn call_of(word: &[u8]) -> Result<HomeCall, CaseFault> {
    match word {
        b"enter" => Ok(HomeCall::Enter),
        b"read" => Ok(HomeCall::ReadAll),
        b"write" => Ok(HomeCall::WriteAt),
        b"cut" => Ok(HomeCall::SetLen),
        b"sync" => Ok(HomeCall::Sync),
        _ => Err(CaseFault::Word),
    }
}

/// The byte of each node: members, and then coordinators.
pub(crate) const NODES: [u8; 24] = [
    1, 2, 3, 4, 5, 6, 7, 8, 9, 10, 11, 12, 13, 14, 15, 16, 129, 130, 131, 132, 133, 134, 135, 136,
];

/// The file of this name.
pub(crate) fn spot_of(alloc: Global, word: &[u8]) -> Result<Spot, CaseFault> {
    for node in NODES {
        for part in 0..2 {
            let spot = Spot { node, part };
            if spot.to_string(alloc)?.as_bytes() == word {
                return Ok(spot);
            }
        }
    }
    Err(CaseFault::Word)
}
