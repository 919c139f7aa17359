//! The events of trials.
use co_make::Maker;
use co_message::{Event, Wire};
use co_schedule::{put_line, read_head, read_line};
use std::alloc::{AllocError, Global};

/// The head of every trial.
const HEAD: &[u8] = b"members lock occ mv coords 2";

/// The number that a word spells.
fn number_of(word: &[u8]) -> u64 {
    let mut number: u64 = 0;
    for digit in word {
        let digit = u64::from(digit.saturating_sub(b'0'));
        number = number.saturating_mul(10).saturating_add(digit);
    }
    number
}

/// Sends the message of a delivery.
pub(crate) fn send(alloc: Global, text: &[u8], wire: &mut Wire) -> Result<(), AllocError> {
    let Ok(head) = read_head(alloc, HEAD) else {
        return Err(AllocError);
    };
    if let Ok(view) = read_line(text, &head) {
        if let Event::Deliver(message) = view.event(alloc)? {
            wire.send(message)?;
        }
    }
    Ok(())
}

/// Appends the next events of a maker, each behind the end of the line before it.
fn put_events(
    maker: &mut Maker,
    wire: &Wire,
    count: u64,
    out: &mut Vec<u8>,
) -> Result<(), AllocError> {
    for _ in 0..count {
        if maker.made() >= Maker::MOST {
            return Ok(());
        }
        let event = maker.next(wire)?;
        out.push(b'\n')?;
        if put_line(&event, out).is_err() {
            return Err(AllocError);
        }
    }
    Ok(())
}

/// Appends the events of a trial: of two words, its number and how many events are to be made.
pub(crate) fn put_made(
    alloc: Global,
    words: &[u8],
    wire: &Wire,
    out: &mut Vec<u8>,
) -> Result<(), AllocError> {
    let mut words = words.split(|b| *b == b' ');
    let number = number_of(words.next().unwrap_or(b""));
    let count = number_of(words.next().unwrap_or(b""));
    put_events(&mut Maker::new(alloc, number), wire, count, out)
}
