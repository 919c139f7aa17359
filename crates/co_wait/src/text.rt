//! The text of waits and of their knot.
ghost use Rattle.std.specs.Prelude.{◌≡◌, ◌++◌, decimal, IfOk, OnOk};
ghost use Rattle.std.specs.List.{flat_map};
ghost use Rattle.co_wait.specs.Text.{wait_line, leg_word, rank_line, knot_text, waits_text};

use crate::knot::{Knot, Rank};
use crate::wait::{Wait, Waits};
use itoa::Buffer;
use std::alloc::{AllocError, Global};

/// Appends a number in decimal digits.
fn put_number(number: u64, into: &mut Vec<u8>) -> Result<(), AllocError>
    ensures { OnOk result (into.new.items ≡ into.old.items ++ decimal number) }
{
    into.extend_from_slice(Buffer::new().format(number).as_bytes())
}

/// Appends the line of a wait.
fn put_wait(wait: &Wait, into: &mut Vec<u8>) -> Result<(), AllocError>
    ensures { OnOk result (into.new.items ≡ into.old.items ++ wait_line wait.now) }
{
    into.extend_from_slice(b"wait ")?;
    put_number(u64::from(wait.held.0), into)?;
    into.extend_from_slice(b" m")?;
    put_number(u64::from(wait.member), into)?;
    into.extend_from_slice(b" ")?;
    put_number(u64::from(wait.by.0), into)?;
    into.extend_from_slice(b"\n")
}

/// Appends a leg.
fn put_leg(leg: &Wait, into: &mut Vec<u8>) -> Result<(), AllocError>
    ensures { OnOk result (into.new.items ≡ into.old.items ++ leg_word leg.now) }
{
    into.extend_from_slice(b" ")?;
    put_number(u64::from(leg.held.0), into)?;
    into.extend_from_slice(b" m")?;
    put_number(u64::from(leg.member), into)
}

/// Appends the line of a transaction and its rank.
fn put_rank(rank: &Rank, into: &mut Vec<u8>) -> Result<(), AllocError>
    ensures { OnOk result (into.new.items ≡ into.old.items ++ rank_line rank.now) }
{
    into.extend_from_slice(b"rank ")?;
    put_number(u64::from(rank.txn.0), into)?;
    into.extend_from_slice(b" ")?;
    put_number(u64::from(rank.rank), into)?;
    into.extend_from_slice(b"\n")
}

/// Appends the lines of waits.
fn put_wait_lines(waits: &[Wait], into: &mut Vec<u8>) -> Result<(), AllocError>
    ensures { OnOk result (into.new.items ≡ into.old.items ++ flat_map wait_line waits.now) }
{
    for wait in waits {
        put_wait(wait, into)?;
    }
    Ok(())
}

/// Appends the legs of a cycle.
fn put_legs(legs: &[Wait], into: &mut Vec<u8>) -> Result<(), AllocError>
    ensures { OnOk result (into.new.items ≡ into.old.items ++ flat_map leg_word legs.now) }
{
    for leg in legs {
        put_leg(leg, into)?;
    }
    Ok(())
}

/// Appends the lines of an order.
fn put_ranks(ranks: &[Rank], into: &mut Vec<u8>) -> Result<(), AllocError>
    ensures { OnOk result (into.new.items ≡ into.old.items ++ flat_map rank_line ranks.now) }
{
    for rank in ranks {
        put_rank(rank, into)?;
    }
    Ok(())
}

/// Appends the text of a knot.
fn put_knot(knot: &Knot, into: &mut Vec<u8>) -> Result<(), AllocError>
    ensures { OnOk result (into.new.items ≡ into.old.items ++ knot_text knot.now) }
{
    match knot {
        Knot::Cycle(legs) => {
            into.extend_from_slice(b"cycle")?;
            put_legs(legs.as_slice(), into)?;
            into.extend_from_slice(b"\n")
        }
        Knot::Order(ranks) => {
            into.extend_from_slice(b"order ")?;
            put_number(ranks.len() as u64, into)?;
            into.extend_from_slice(b"\n")?;
            put_ranks(ranks.as_slice(), into)
        }
    }
}

/// The text of waits, a line `wait T M U` for each, and of their knot: `cycle`, followed by a transaction and its member for each leg, or `order N`,
/// followed by a line `rank T R` for each rank.
pub fn waits_text(alloc: Global, waits: &Waits, knot: &Knot) -> Result<Vec<u8>, AllocError>
    ensures { IfOk result (λ text. text.items ≡ waits_text waits.now knot.now) }
{
    let mut text = Vec::new(alloc);
    put_wait_lines(waits.as_slice(), &mut text)?;
    put_knot(knot, &mut text)?;
    Ok(text)
}
