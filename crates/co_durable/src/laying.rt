//! The records of members with what their decided votes wrote.
ghost use Rattle.std.specs.Prelude.{◌≡◌, ◌≤◌, ◌++◌, IfOk, OnOk, length};
ghost use Rattle.co_base.specs.Limits.{most_members};
ghost use Rattle.co_serial.specs.Records.{all_rows};
ghost use Rattle.co_state.specs.Table.{holds};
ghost use Rattle.co_durable.specs.Laying.{seen_by, with_decided_votes, durable_of_past, durable_of_pasts};
ghost use Rattle.co_serial.specs.MemberRows.{member_rows};

use crate::recovering::Numbers;
use co_base::{Row, Rows, Txn, copy_rows};
use co_pairs::Prepared;
use co_recover::MemberPast;
use co_serial::{MemberRow, MemberRows, RecordMap};
use co_state::records_from;
use std::alloc::{AllocError, Global};

/// Whether the log of the coordinator of this number has a commit of the transaction.
fn is_decided(seen: &[Numbers], coord: u8, t: Txn) -> bool
    ensures { result ≡ holds (seen_by seen.now coord) t }
{
    match seen.get(usize::from(coord).saturating_sub(1)) {
        Some(numbers) => numbers.contains(t),
        None => false,
    }
}

/// Lays the writes of the decided votes over the records.
fn lay_decided(
    records: &mut RecordMap,
    voted: &[Prepared],
    seen: &[Numbers],
) -> Result<(), AllocError>
    ensures { OnOk result (records.new ≡ with_decided_votes seen.now records.old voted.now) }
{
    for vote in voted {
        if is_decided(seen, vote.coord, vote.txn) {
            records.lay(vote.sets.writes())?;
        }
    }
    Ok(())
}

/// The durable records of a member whose log tells this.
fn durable_of(alloc: Global, past: &MemberPast, seen: &[Numbers]) -> Result<Rows, AllocError>
    ensures { IfOk result (λ rows. rows ≡ all_rows (durable_of_past seen.now past.now)) }
{
    let mut records = records_from(alloc, copy_rows(alloc, past.rows.as_slice())?)?;
    lay_decided(&mut records, past.voted.as_slice(), seen)?;
    records.rows(alloc)
}

/// Adds the records of a member.
fn push_rows(durable: &mut MemberRows, member: u8, rows: Vec<Row>) -> Result<(), AllocError>
    ensures { OnOk result (durable.new ≡ durable.old ++ member_rows member rows.items) }
{
    for row in rows {
        durable.push(MemberRow { member, row })?;
    }
    Ok(())
}

/// The durable records of at most 16 members whose logs tell this, of a federation whose coordinators' logs have these commits: members ascending, and keys
/// ascending.
pub fn durable_rows(
    alloc: Global,
    pasts: &[MemberPast],
    seen: &[Numbers],
) -> Result<MemberRows, AllocError>
    requires { length pasts.now ≤ most_members }
    ensures { IfOk result (λ durable. durable ≡ durable_of_pasts seen.now pasts.now) }
{
    let mut durable = MemberRows::new(alloc);
    for (place, past) in pasts.iter().enumerate() {
        let rows = durable_of(alloc, past, seen)?;
        push_rows(&mut durable, place as u8 + 1, rows.into_vec())?;
    }
    Ok(durable)
}
