//! Why the committed transactions run serially in no order.
ghost use Rattle.std.specs.Prelude.{◌≡◌, ◌≢◌, ◌<◌, true, IfOk, List, [], ◌∷◌, ◌++◌, length, map};
ghost use Rattle.co_check.specs.declared.client.Committed.{Committed};
ghost use Rattle.co_order_check.specs.Facts.{IsShut, AreShut};
ghost use Rattle.co_order_check.specs.Order.{HasNoOrder};
ghost use Rattle.co_order_check.specs.Ranks.{Ranks};

use crate::fact::Fact;
use crate::reading::{Reading, is_left_by_no_other, reads_from_others};
use crate::rules::{Step, conclusion, fact_at};
use crate::torn::{Torn, is_torn};
use co_check::Committed;
use std::alloc::{AllocError, Global};

/// Why the committed transactions run serially in no order.
#[derive(Drop)]
pub enum Refutation {
    /// A transaction read from others a value that no other one left.
    Unwritten(Reading),
    /// A transaction was told what it is told in no order, whatever the others did.
    Torn(Torn),
    /// Steps after which no case is open.
    Steps(Vec<Step>),
}

/// The same facts and one more.
fn with_fact(alloc: Global, known: &[Fact], fact: Fact) -> Result<Vec<Fact>, AllocError>
    ensures { IfOk result (λ more. more.items ≡ known.now ++ fact ∷ []) }
{
    let mut more = Vec::from_slice(alloc, known)?;
    more.push(fact)?;
    Ok(more)
}

/// Whether a fact says that a transaction stands before itself.
fn is_shut(known: &[Fact], number: usize) -> bool
    ensures { (history : List Committed) → result ≡ true → IsShut history known.now }
{
    match fact_at(known, number) {
        Some(fact) => fact.before == fact.behind,
        None => false,
    }
}

/// Whether two transactions are two of them.
fn are_two(history: &[Committed], pair: &Fact) -> bool
    ensures { result ≡ true → (pair.now.before < length history.now) × (pair.now.behind < length history.now) × (pair.now.before ≢ pair.now.behind) }
{
    pair.before < history.len() && pair.behind < history.len() && pair.before != pair.behind
}

/// Takes one more step in the last case that is open. Gives whether it is sound.
fn take_step(
    alloc: Global,
    history: &[Committed],
    pending: &mut Vec<Vec<Fact>>,
    step: &Step,
) -> Result<bool, AllocError>
    ensures { IfOk result (λ sound. sound ≡ true → AreShut history.now (map (λ v. v.items) pending.new.items) → AreShut history.now (map (λ v. v.items) pending.old.items)) }
{
    let mut known = match pending.pop() {
        Some(known) => known,
        None => return Ok(false),
    };
    match step {
        Step::Either(pair) => {
            if !are_two(history, pair) {
                return Ok(false);
            }
            let turned = Fact {
                before: pair.behind,
                behind: pair.before,
            };
            pending.push(with_fact(alloc, known.as_slice(), turned)?)?;
            known.push(*pair)?;
            pending.push(known)?;
            Ok(true)
        }
        Step::Shut { known: number } => Ok(is_shut(known.as_slice(), *number)),
        _ => match conclusion(history, known.as_slice(), step) {
            Some(fact) => {
                known.push(fact)?;
                pending.push(known)?;
                Ok(true)
            }
            None => Ok(false),
        },
    }
}

/// Whether no case is open behind these steps.
fn steps_hold(alloc: Global, history: &[Committed], steps: &[Step]) -> Result<bool, AllocError>
    ensures { IfOk result (λ holds. holds ≡ true → Ranks history.now → ⊥) }
{
    let mut open = Vec::new(alloc);
    open.push(Vec::new(alloc))?;
    for step in steps {
        if !take_step(alloc, history, &mut open, step)? {
            return Ok(false);
        }
    }
    Ok(open.is_empty())
}

/// Whether a transaction read from others a value that no other one left.
fn is_unwritten(history: &[Committed], reading: &Reading) -> bool
    ensures { result ≡ true → Ranks history.now → ⊥ }
{
    if reading.source.is_some() {
        return false;
    }
    if reading.value.is_none() {
        return false;
    }
    if !reads_from_others(history, reading) {
        return false;
    }
    is_left_by_no_other(history, reading)
}

/// Whether the refutation holds of these transactions, the first decided one first: then they run serially in no order.
///
/// Each read that it cites is looked up among what all transactions did, so it takes time in proportion to their operations for each.
pub fn refutation_holds(
    alloc: Global,
    history: &[Committed],
    refutation: &Refutation,
) -> Result<bool, AllocError>
    ensures order_refuted { IfOk result (λ holds. holds ≡ true → HasNoOrder history.now) }
{
    match refutation {
        Refutation::Unwritten(reading) => Ok(is_unwritten(history, reading)),
        Refutation::Torn(torn) => Ok(is_torn(history, torn)),
        Refutation::Steps(steps) => steps_hold(alloc, history, steps.as_slice()),
    }
}
