//! Records, read from versions.
ghost use Rattle.std.specs.Prelude.{◌≡◌, filter, IfOk, OnOk, option_copied};
ghost use Rattle.std.specs.FinMap as map;
ghost use Rattle.std.specs.FinMap.{entries};
ghost use Rattle.co_base.specs.Span.{span_has};
ghost use Rattle.co_mv.specs.Chains.{chain_of};
ghost use Rattle.co_mv.specs.Ordered.{IsOrdered, AreOrdered};
ghost use Rattle.co_mv.specs.Reading.{noted, all_noted, changed_within, laid_within};
ghost use Rattle.co_mv.specs.Versions.{seen_value};

use crate::chain::Chain;
use crate::chains::Chains;
use co_base::{Key, Range, Value, Written};
use co_state::RowList;
use std::alloc::{AllocError, Global};

/// The value of a key at a number of installs. Takes no memory.
pub fn seen_value<'a>(chains: &'a Chains, key: &Key, installs: u64) -> Option<&'a Value>
    ensures { IsOrdered (chain_of chains.now key.now) → option_copied result ≡ seen_value installs (chain_of chains.now key.now) }
{
    match chains.get(key) {
        Some(chain) => chain.value_at(installs),
        None => None,
    }
}

/// Notes the record that a key has at a number of installs, if it has one.
fn note(records: &mut RowList, key: &Key, chain: &Chain, installs: u64) -> Result<(), AllocError>
    ensures { IsOrdered chain.now → OnOk result (records.new ≡ noted records.old key.now (seen_value installs chain.now)) }
{
    match chain.value_at(installs) {
        Some(value) => records.set(key.copy()?, value.copy()?),
        None => Ok(()),
    }
}

/// Every record at a number of installs.
pub fn all_records(alloc: Global, chains: &Chains, installs: u64) -> Result<RowList, AllocError>
    ensures { AreOrdered (entries chains.now) → IfOk result (λ records. records ≡ all_noted installs map.empty (entries chains.now)) }
{
    let mut records = RowList::new(alloc);
    for (key, chain) in chains.iter() {
        note(&mut records, key, chain, installs)?;
    }
    Ok(records)
}

/// The records of a range at a number of installs.
pub fn records_within(
    alloc: Global,
    chains: &Chains,
    range: &Range,
    installs: u64,
) -> Result<RowList, AllocError>
    ensures { AreOrdered (entries chains.now) → IfOk result (λ records. records ≡ all_noted installs map.empty (filter (λ e. span_has range.now e.0) (entries chains.now))) }
{
    let mut records = RowList::new(alloc);
    for (key, chain) in chains.within(range) {
        note(&mut records, key, chain, installs)?;
    }
    Ok(records)
}

/// Makes one change, if it is in the range.
fn change_within(records: &mut RowList, change: &Written, range: &Range) -> Result<(), AllocError>
    ensures { OnOk result (records.new ≡ changed_within range.now records.old change.now) }
{
    if !range.has(&change.key) {
        return Ok(());
    }
    let change = change.copy()?;
    records.change(change.key, change.value)
}

/// Makes those changes that are in the range, the first one first.
pub fn lay_within(
    records: &mut RowList,
    changes: &[Written],
    range: &Range,
) -> Result<(), AllocError>
    ensures { OnOk result (records.new ≡ laid_within range.now records.old changes.now) }
{
    for change in changes {
        change_within(records, change, range)?;
    }
    Ok(())
}
