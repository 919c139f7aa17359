//! The numbers that stand in the logs.
ghost use Rattle.std.specs.Prelude.{◌≡◌, ◌≤◌, IfOk, IfErr, OnOk, length, map};
ghost use Rattle.std.specs.FinMap.{keys};
ghost use Rattle.co_base.specs.Limits.{most_transactions};
ghost use Rattle.co_plain.specs.MemberView.{with_numbers};
ghost use Rattle.co_state.specs.Table.{no_entries};
ghost use Rattle.co_opening.specs.Counted.{with_member, with_members, with_coords};
ghost use Rattle.co_opening.specs.Judged.{IsUncounted};

use co_base::{MOST_TRANSACTIONS, Txn, Txns};
use co_durable::WorldFault;
use co_pairs::Prepared;
use co_recover::{CoordPast, MemberPast};
use co_state::Table;
use std::alloc::{AllocError, Global};

/// Takes these numbers into a set.
fn lay_numbers(used: &mut Table<()>, numbers: &[Txn]) -> Result<(), AllocError>
    ensures { OnOk result (used.new ≡ with_numbers used.old numbers.now) }
{
    for t in numbers {
        used.insert(*t, ())?;
    }
    Ok(())
}

/// Takes the numbers of these voted transactions into a set.
pub fn lay_votes(used: &mut Table<()>, votes: &[Prepared]) -> Result<(), AllocError>
    ensures { OnOk result (used.new ≡ with_numbers used.old (map (λ vote. vote.txn) votes.now)) }
{
    for vote in votes {
        used.insert(vote.txn, ())?;
    }
    Ok(())
}

/// Takes the numbers of a member's log into a set: those that are voted, and those that are committed.
fn lay_member(used: &mut Table<()>, past: &MemberPast) -> Result<(), AllocError>
    ensures { OnOk result (used.new ≡ with_member used.old past.now) }
{
    lay_votes(used, past.voted.as_slice())?;
    lay_numbers(used, past.committed.as_slice())
}

/// Takes the numbers of the members' logs into a set.
fn lay_members(used: &mut Table<()>, pasts: &[MemberPast]) -> Result<(), AllocError>
    ensures { OnOk result (used.new ≡ with_members used.old pasts.now) }
{
    for past in pasts {
        lay_member(used, past)?;
    }
    Ok(())
}

/// Takes the numbers of the coordinators' logs into a set.
fn lay_coords(used: &mut Table<()>, pasts: &[CoordPast]) -> Result<(), AllocError>
    ensures { OnOk result (used.new ≡ with_coords used.old pasts.now) }
{
    for past in pasts {
        lay_numbers(used, past.seen.as_slice())?;
    }
    Ok(())
}

/// The numbers of a set, ascending.
pub fn numbers_in(alloc: Global, numbers: &Table<()>) -> Result<Txns, AllocError>
    ensures { IfOk result (λ list. list ≡ keys numbers.now) }
{
    let mut list = Vec::new(alloc);
    for (t, _) in numbers.iter() {
        list.push(*t)?;
    }
    Ok(Txns::of(list))
}

/// The numbers that stand in these logs, ascending. `Count` comes where there are more than 65,536.
pub(crate) fn used_numbers(
    alloc: Global,
    members: &[MemberPast],
    coords: &[CoordPast],
) -> Result<Txns, WorldFault>
    ensures used { IfOk result (λ used. used ≡ keys (with_coords (with_members no_entries members.now) coords.now)) }
    ensures few { IfOk result (λ used. length used ≤ most_transactions) }
    ensures uncounted { IfErr result (IsUncounted (keys (with_coords (with_members no_entries members.now) coords.now))) }
{
    let mut used = Table::new(alloc);
    lay_members(&mut used, members)?;
    lay_coords(&mut used, coords)?;
    let numbers = numbers_in(alloc, &used)?;
    if numbers.as_slice().len() > MOST_TRANSACTIONS {
        return Err(WorldFault::Count);
    }
    Ok(numbers)
}
