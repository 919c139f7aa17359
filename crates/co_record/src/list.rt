//! Lists of elements: a count, and so many elements in their order.
ghost use Rattle.std.specs.Prelude.{◌≡◌, Some, map, option_map, option_copied};
ghost use Rattle.std.specs.Ordering.{nat_cmp};
ghost use Rattle.co_base.specs.Span.{span_cmp};
ghost use Rattle.co_record.specs.Reading.{Gives, next_at, items_end, range_at, row_at, change_at, member_at, txn_at, span_of, row_of, row_cmp, change_cmp, ranges_at, rows_at, writes_at, undos_at, members_at, txns_at};

use crate::element::{Change, Pair, PairKind, read_bounds, read_change, read_entry, read_member};
use crate::field::{read_byte_within, read_u16_within, read_u32};
use crate::miss::Miss;
use crate::order::{is_key_below, is_range_below};
use crate::walk::{ChangeWalk, MemberWalk, PairWalk, TxnWalk};
use co_base::{MOST_MEMBERS, MOST_OPERATIONS};

/// The next of a list of ranges, each above the one before it: by the lower bound, then by the upper one.
fn next_range<'a>(before: Option<Pair<'a>>, bytes: &'a [u8]) -> Result<(Pair<'a>, &'a [u8]), Miss>
    ensures { Gives (λ x. (Some (span_of (x.0.0.now, x.0.1.now)), x.1.now)) result (next_at range_at span_cmp (option_map (λ p. span_of (p.0.now, p.1.now)) before.entry, bytes.now)) }
{
    let (item, rest) = read_bounds(bytes)?;
    if let Some(last) = before {
        if !(is_range_below(last, item)) {
            return Err(Miss::Outside { left: bytes.len() });
        }
    }
    Ok((item, rest))
}

/// What stands behind so many ranges, each above the one before it: by the lower bound, then by the upper one.
fn skip_ranges(count: u16, bytes: &[u8]) -> Result<&[u8], Miss>
    ensures { Gives (λ rest. rest.now) result (items_end range_at span_cmp count bytes.now) }
{
    let mut before = None;
    let mut rest = bytes;
    for _ in 0..count {
        let (item, behind) = next_range(before, rest)?;
        before = Some(item);
        rest = behind;
    }
    Ok(rest)
}

/// The next of a list of rows, each with a key above the one before it.
fn next_row<'a>(
    version: u8,
    before: Option<Pair<'a>>,
    bytes: &'a [u8],
) -> Result<(Pair<'a>, &'a [u8]), Miss>
    ensures { Gives (λ x. (Some (row_of (x.0.0.now, x.0.1.now)), x.1.now)) result (next_at (row_at version) row_cmp (option_map (λ p. row_of (p.0.now, p.1.now)) before.entry, bytes.now)) }
{
    let (item, rest) = read_entry(version, bytes)?;
    if let Some(last) = before {
        if !(is_key_below(last.0, item.0)) {
            return Err(Miss::Outside { left: bytes.len() });
        }
    }
    Ok((item, rest))
}

/// What stands behind so many rows, each with a key above the one before it.
fn skip_rows(version: u8, count: u32, bytes: &[u8]) -> Result<&[u8], Miss>
    ensures { Gives (λ rest. rest.now) result (items_end (row_at version) row_cmp count bytes.now) }
{
    let mut before = None;
    let mut rest = bytes;
    for _ in 0..count {
        let (item, behind) = next_row(version, before, rest)?;
        before = Some(item);
        rest = behind;
    }
    Ok(rest)
}

/// The next of a list of changes, each with a key above the one before it.
fn next_change<'a>(
    version: u8,
    before: Option<Change<'a>>,
    bytes: &'a [u8],
) -> Result<(Change<'a>, &'a [u8]), Miss>
    ensures { Gives (λ x. (Some (record { key = x.0.0.now; value = option_copied x.0.1 }), x.1.now)) result (next_at (change_at version) change_cmp (option_map (λ p. record { key = p.0.now; value = option_copied p.1 }) before.entry, bytes.now)) }
{
    let (item, rest) = read_change(version, bytes)?;
    if let Some(last) = before {
        if !(is_key_below(last.0, item.0)) {
            return Err(Miss::Outside { left: bytes.len() });
        }
    }
    Ok((item, rest))
}

/// What stands behind so many changes, each with a key above the one before it.
fn skip_changes(version: u8, count: u32, bytes: &[u8]) -> Result<&[u8], Miss>
    ensures { Gives (λ rest. rest.now) result (items_end (change_at version) change_cmp count bytes.now) }
{
    let mut before = None;
    let mut rest = bytes;
    for _ in 0..count {
        let (item, behind) = next_change(version, before, rest)?;
        before = Some(item);
        rest = behind;
    }
    Ok(rest)
}

/// The next of a list of members, each above the one before it.
fn next_member(before: Option<u8>, bytes: &[u8]) -> Result<(u8, &[u8]), Miss>
    ensures { Gives (λ x. (Some (x.0), x.1.now)) result (next_at member_at nat_cmp (before, bytes.now)) }
{
    let (item, rest) = read_member(bytes)?;
    if let Some(last) = before {
        if !(last < item) {
            return Err(Miss::Outside { left: bytes.len() });
        }
    }
    Ok((item, rest))
}

/// What stands behind so many members, each above the one before it.
fn skip_members(count: u8, bytes: &[u8]) -> Result<&[u8], Miss>
    ensures { Gives (λ rest. rest.now) result (items_end member_at nat_cmp count bytes.now) }
{
    let mut before = None;
    let mut rest = bytes;
    for _ in 0..count {
        let (item, behind) = next_member(before, rest)?;
        before = Some(item);
        rest = behind;
    }
    Ok(rest)
}

/// The next of a list of transactions, each above the one before it.
fn next_txn(before: Option<u32>, bytes: &[u8]) -> Result<(u32, &[u8]), Miss>
    ensures { Gives (λ x. (Some (x.0), x.1.now)) result (next_at txn_at nat_cmp (before, bytes.now)) }
{
    let (item, rest) = read_u32(bytes)?;
    if let Some(last) = before {
        if !(last < item) {
            return Err(Miss::Outside { left: bytes.len() });
        }
    }
    Ok((item, rest))
}

/// What stands behind so many transactions, each above the one before it.
fn skip_txns(count: u32, bytes: &[u8]) -> Result<&[u8], Miss>
    ensures { Gives (λ rest. rest.now) result (items_end txn_at nat_cmp count bytes.now) }
{
    let mut before = None;
    let mut rest = bytes;
    for _ in 0..count {
        let (item, behind) = next_txn(before, rest)?;
        before = Some(item);
        rest = behind;
    }
    Ok(rest)
}

/// The ranges that a transaction read.
#[tactic(auto, unfolding(crate::specs::Reading::ranges_at))]
pub fn read_ranges(bytes: &[u8]) -> Result<(PairWalk<'_>, &[u8]), Miss>
    ensures { Gives (λ x. (map span_of x.0, x.1.now)) result (ranges_at bytes.now) }
{
    let (count, first) = read_u16_within(0, MOST_OPERATIONS, bytes)?;
    let rest = skip_ranges(count, first)?;
    Ok((
        PairWalk::new(PairKind::Bounds, u32::from(count), first),
        rest,
    ))
}

/// The writes of a transaction, in a version.
#[tactic(auto, unfolding(crate::specs::Reading::writes_at))]
pub fn read_writes(version: u8, bytes: &[u8]) -> Result<(ChangeWalk<'_>, &[u8]), Miss>
    ensures { Gives (λ x. (x.0, x.1.now)) result (writes_at version bytes.now) }
{
    let (count, first) = read_u16_within(0, MOST_OPERATIONS, bytes)?;
    let rest = skip_changes(version, u32::from(count), first)?;
    Ok((ChangeWalk::new(version, u32::from(count), first), rest))
}

/// The participants of a transaction.
#[tactic(auto, unfolding(crate::specs::Reading::members_at))]
pub fn read_members(bytes: &[u8]) -> Result<(MemberWalk<'_>, &[u8]), Miss>
    ensures { Gives (λ x. (x.0, x.1.now)) result (members_at bytes.now) }
{
    let (count, first) = read_byte_within(0, MOST_MEMBERS, bytes)?;
    let rest = skip_members(count, first)?;
    Ok((MemberWalk::new(count, first), rest))
}

/// The rows of a checkpoint, in a version.
#[tactic(auto, unfolding(crate::specs::Reading::rows_at))]
pub fn read_rows(version: u8, bytes: &[u8]) -> Result<(PairWalk<'_>, &[u8]), Miss>
    ensures { Gives (λ x. (map row_of x.0, x.1.now)) result (rows_at version bytes.now) }
{
    let (count, first) = read_u32(bytes)?;
    let rest = skip_rows(version, count, first)?;
    Ok((
        PairWalk::new(PairKind::Entry { version }, count, first),
        rest,
    ))
}

/// The undos of a checkpoint, in a version.
#[tactic(auto, unfolding(crate::specs::Reading::undos_at))]
pub fn read_undos(version: u8, bytes: &[u8]) -> Result<(ChangeWalk<'_>, &[u8]), Miss>
    ensures { Gives (λ x. (x.0, x.1.now)) result (undos_at version bytes.now) }
{
    let (count, first) = read_u32(bytes)?;
    let rest = skip_changes(version, count, first)?;
    Ok((ChangeWalk::new(version, count, first), rest))
}

/// The committed transactions of a checkpoint.
#[tactic(auto, unfolding(crate::specs::Reading::txns_at))]
pub fn read_txns(bytes: &[u8]) -> Result<(TxnWalk<'_>, &[u8]), Miss>
    ensures { Gives (λ x. (x.0, x.1.now)) result (txns_at bytes.now) }
{
    let (count, first) = read_u32(bytes)?;
    let rest = skip_txns(count, first)?;
    Ok((TxnWalk::new(count, first), rest))
}
