//! What a member's log tells.
ghost use Rattle.std.specs.Prelude.{◌≡◌, ◌&&◌, ℕ, List, IfOk, Some, None, if◌then◌else◌, map, nat_le, not, false};
ghost use Rattle.std.specs.List.{AllByRecursion};
ghost use Rattle.co_record.specs.declared.record.Record.{Record};
ghost use Rattle.co_record.specs.declared.record.Record.TheVariants.{Checkpoint, Commit};
ghost use Rattle.co_record.specs.Lent.{record_of};
ghost use Rattle.co_record.specs.Reading.{row_of};
ghost use Rattle.co_record.specs.Spelling.{IsSpelled, IsRow, IsChange};
ghost use Rattle.co_record.specs.Stored.{HasLeft};
ghost use Rattle.co_state.specs.Table.{holds};
ghost use Rattle.co_plain.specs.MemberView.{nothing_known, numbers_from, view_with};
ghost use Rattle.co_plain.specs.declared.member_view.MemberView.{MemberView};
ghost use Rattle.co_serial.specs.Records.{with_changes};
ghost use Rattle.co_state.specs.Effects.{records_from};
ghost use Rattle.co_recover.specs.Recovered.{member_next, cast, forgotten, installed, voted_of, past_of_member, IsMemberRecovery};

use crate::coord::numbers_in;
use crate::fault::RecoverFault;
use crate::owned::{lay, numbers_of, rows_of, sets_of};
use crate::past::MemberPast;
use crate::vote::{LentSets, LentVote};
use crate::votes::LockedVotes;
use co_base::Txn;
use co_pairs::{Prepared, PreparedList};
use co_record::{ChangeWalk, MemberWalk, PairWalk, RecordView, TxnWalk, Views};
use co_serial::RecordMap;
use co_state::{Table, records_from};
use std::alloc::{AllocError, Global};
use std::marker::Model;
use std::mem::replace;

/// What the records up to a place tell. The votes are lent from their prepare records.
#[derive(Drop)]
struct LentView<'a> {
    records: RecordMap,
    voted: LockedVotes<'a>,
    committed: Table<()>,
}

impl<'a> Model for LentView<'a> {
    ghost use Rattle.std.specs.Coded.{codes};
    ghost use Rattle.co_plain.specs.declared.member_view.MemberView.{MemberView};
    ghost use Rattle.co_plain.specs.contracts.member_view.MemberView as known;

    ghost Value = { MemberView };

    ghost coded = { Prim.hlevel (codes, known.the_row.coded) };

    ghost view = { λ v. record { records = v.records; voted = v.voted; committed = v.committed } };
}

/// The records of a checkpoint, whose rows may be dirty.
fn clean_records(
    alloc: Global,
    rows: PairWalk<'_>,
    undos: ChangeWalk<'_>,
) -> Result<RecordMap, AllocError>
    requires rows { AllByRecursion IsRow (map row_of rows) }
    requires undos { AllByRecursion IsChange undos }
    ensures { IfOk result (λ records. records ≡ with_changes (records_from (map row_of rows.entry)) undos.entry) }
{
    let mut records = records_from(alloc, rows_of(alloc, rows)?)?;
    lay(alloc, &mut records, undos)?;
    Ok(records)
}

/// The view of a checkpoint.
fn checkpoint_view<'a>(
    alloc: Global,
    rows: PairWalk<'a>,
    undos: ChangeWalk<'a>,
    committed: TxnWalk<'a>,
) -> Result<LentView<'a>, AllocError>
    requires rows { AllByRecursion IsRow (map row_of rows) }
    requires undos { AllByRecursion IsChange undos }
    ensures { IfOk result (λ view. view ≡ view_with nothing_known (Checkpoint (map row_of rows.entry) undos.entry committed.entry)) }
{
    let committed = numbers_of(alloc, committed)?;
    let records = clean_records(alloc, rows, undos)?;
    Ok(LentView {
        records,
        voted: LockedVotes::new(alloc),
        committed,
    })
}

/// The view of a checkpoint takes the place of this one; whether it stands behind one record.
fn checkpoint_in<'a>(
    alloc: Global,
    place: u32,
    view: &mut LentView<'a>,
    rows: PairWalk<'a>,
    undos: ChangeWalk<'a>,
    committed: TxnWalk<'a>,
) -> Result<bool, AllocError>
    requires rows { AllByRecursion IsRow (map row_of rows) }
    requires undos { AllByRecursion IsChange undos }
    ensures { (coords : ℕ) → IfOk result (λ is_second. (if is_second then Some view.new else None) ≡ member_next coords place view.old (Checkpoint (map row_of rows.entry) undos.entry committed.entry)) }
{
    if place != 1 {
        return Ok(false);
    }
    let after = checkpoint_view(alloc, rows, undos, committed)?;
    drop(replace(view, after));
    Ok(true)
}

/// A transaction voted that has no vote; whether no vote that stands is in conflict with it.
fn cast_in<'a>(
    alloc: Global,
    view: &mut LentView<'a>,
    t: Txn,
    vote: LentVote<'a>,
) -> Result<bool, AllocError>
    requires { holds view.old.voted t ≡ false }
    ensures { IfOk result (λ was_cast. (if was_cast then Some view.new else None) ≡ cast view.old t vote.entry) }
{
    view.voted.cast(alloc, t, vote)
}

/// A voted transaction was aborted; whether it was voted.
fn forget_in(view: &mut LentView<'_>, t: Txn) -> bool
    ensures { (if result then Some view.new else None) ≡ forgotten view.old t }
{
    view.voted.take(t).is_some()
}

/// A voted transaction was committed; whether it was voted.
fn install_in(alloc: Global, view: &mut LentView<'_>, t: Txn) -> Result<bool, AllocError>
    ensures { IfOk result (λ was_voted. (if was_voted then Some view.new else None) ≡ installed view.old t) }
{
    match view.voted.take(t) {
        None => Ok(false),
        Some(vote) => {
            lay(alloc, &mut view.records, vote.sets.writes.again())?;
            view.committed.insert(t, ())?;
            Ok(true)
        }
    }
}

/// Whether a member that votes may do so behind so many records: it knows nothing of the transaction, and there is such a coordinator.
fn may_vote(coords: u8, place: u32, view: &LentView<'_>, t: Txn, coord: u8) -> bool
    ensures { result ≡ (nat_le 1 place && not (holds view.now.voted t) && not (holds view.now.committed t) && nat_le 1 coord && nat_le coord coords) }
{
    place >= 1
        && !view.voted.contains(t)
        && !view.committed.contains(t)
        && coord >= 1
        && coord <= coords
}

/// The view after one more record; whether it is allowed behind so many others.
fn next_view<'a>(
    alloc: Global,
    coords: u8,
    place: u32,
    view: &mut LentView<'a>,
    item: RecordView<'a>,
) -> Result<bool, AllocError>
    requires { IsSpelled (record_of item) }
    ensures { IfOk result (λ is_allowed. (if is_allowed then Some view.new else None) ≡ member_next coords place view.old (record_of item.entry)) }
{
    match item {
        RecordView::Header {
            node: _,
            generation: _,
        } => Ok(place == 0),
        RecordView::Checkpoint {
            rows,
            undos,
            committed,
        } => checkpoint_in(alloc, place, view, rows, undos, committed),
        RecordView::Prepare {
            txn,
            coord,
            count,
            reads,
            writes,
        } => {
            if !may_vote(coords, place, view, txn, coord) {
                return Ok(false);
            }
            let sets = LentSets { reads, writes };
            cast_in(alloc, view, txn, LentVote { coord, count, sets })
        }
        RecordView::Commit { txn, members } => commit_in(alloc, view, txn, members),
        RecordView::Abort { txn } => Ok(forget_in(view, txn)),
        RecordView::End { txn: _ } => Ok(false),
    }
}

/// The view after a commit; whether the transaction was voted, and no members are named.
fn commit_in(
    alloc: Global,
    view: &mut LentView<'_>,
    t: Txn,
    mut members: MemberWalk<'_>,
) -> Result<bool, AllocError>
    ensures { (coords place : ℕ) → IfOk result (λ is_allowed. (if is_allowed then Some view.new else None) ≡ member_next coords place view.old (Commit t members.entry)) }
{
    if members.next().is_some() {
        return Ok(false);
    }
    install_in(alloc, view, t)
}

/// The votes of a table, ascending, copied to be kept.
fn prepared_in(alloc: Global, voted: &Table<LentVote<'_>>) -> Result<PreparedList, AllocError>
    ensures { IfOk result (λ list. list ≡ voted_of voted.now) }
{
    let mut list = PreparedList::new(alloc);
    for (t, vote) in voted.iter() {
        list.push(Prepared {
            txn: *t,
            coord: vote.coord,
            count: vote.count,
            sets: sets_of(alloc, &vote.sets)?,
        })?;
    }
    Ok(list)
}

/// What a view of a member's log says.
fn past_of(alloc: Global, view: &LentView<'_>) -> Result<MemberPast, AllocError>
    ensures { IfOk result (λ past. past ≡ past_of_member view.now) }
{
    Ok(MemberPast {
        rows: view.records.rows(alloc)?,
        voted: prepared_in(alloc, view.voted.as_table())?,
        committed: numbers_in(alloc, &view.committed)?,
    })
}

/// What the records tell that were not lent yet, laid into a view of nothing.
fn past_in<'a>(
    alloc: Global,
    mut views: Views<'a>,
    coords: u8,
    view: &mut LentView<'a>,
) -> Result<MemberPast, RecoverFault>
    requires { view.old ≡ nothing_known }
    ensures { (items : List (ℕ × Record)) → HasLeft views.entry items → IsMemberRecovery coords items result }
{
    let mut place = 0;
    'records: loop {
        match views.next() {
            None => {
                let past = past_of(alloc, view)?;
                return Ok(past);
            }
            Some((at, item)) => {
                let is_allowed = next_view(alloc, coords, place, view, item)?;
                if !is_allowed {
                    return Err(RecoverFault::Inconsistent { at });
                }
                place += 1;
            }
        }
    }
}

/// What the records of a member's log tell, in a federation of so many coordinators: the installed records, the voted
/// transactions with all that they read and wrote, and the transactions that are committed here.
///
/// `Inconsistent` comes exactly at the first record that is not allowed where it stands. Whose log it is, is not judged.
/// A prepare record stays where it is lent from until its transaction is committed or the log ends. The locks of the votes
/// that stand are kept beside them, so a prepare record costs what it reads and writes, however many votes stand.
pub fn recover_member(
    alloc: Global,
    views: Views<'_>,
    coords: u8,
) -> Result<MemberPast, RecoverFault>
    ensures { (items : List (ℕ × Record)) → HasLeft views.entry items → IsMemberRecovery coords items result }
{
    let mut view = LentView {
        records: RecordMap::new(alloc),
        voted: LockedVotes::new(alloc),
        committed: Table::new(alloc),
    };
    past_in(alloc, views, coords, &mut view)
}
