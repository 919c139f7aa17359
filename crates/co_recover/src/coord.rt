//! What a coordinator's log tells.
ghost use Rattle.std.specs.Prelude.{◌≡◌, ℕ, List, OnOk, IfOk, Some, None, if◌then◌else◌};
ghost use Rattle.std.specs.FinMap.{keys};
ghost use Rattle.co_record.specs.declared.record.Record.{Record};
ghost use Rattle.co_record.specs.Lent.{record_of};
ghost use Rattle.co_record.specs.Stored.{HasLeft};
ghost use Rattle.co_plain.specs.CoordView.{all_up_to, commits_with};
ghost use Rattle.co_recover.specs.Recovered.{coord_next, commits_of, past_of_coord, IsCoordRecovery};

use crate::fault::RecoverFault;
use crate::past::{Commits, CoordPast, Decided};
use co_base::{Bytes, Txn, Txns, copy_bytes};
use co_plain::CoordView;
use co_record::{MemberWalk, RecordView, Views};
use co_state::Table;
use std::alloc::{AllocError, Global};

/// The members of a lent commit.
fn members_of(alloc: Global, mut walk: MemberWalk<'_>) -> Result<Bytes, AllocError>
    ensures { IfOk result (λ members. members ≡ walk.entry) }
{
    let mut members = Vec::new(alloc);
    while let Some(member) = walk.next() {
        members.push(member)?;
    }
    Ok(Bytes::of(members))
}

/// Whether each is a member of a federation of so many.
fn all_up_to(most: u8, members: &[u8]) -> bool
    ensures { result ≡ all_up_to most members.now }
{
    for member in members {
        if !(1 <= *member && *member <= most) {
            return false;
        }
    }
    true
}

/// Takes one more commit into the view; one without participants counts as ended at once.
fn commit_in(view: &mut CoordView, t: Txn, members: Bytes) -> Result<(), AllocError>
    ensures { OnOk result (view.new ≡ commits_with view.old (Record.Commit t members)) }
{
    if !members.is_empty() {
        view.unended.insert(t, members)?;
    }
    view.seen.insert(t, ())
}

/// Takes one more record into the view, where it is allowed behind so many others.
fn take_in(
    alloc: Global,
    members: u8,
    place: u32,
    view: &mut CoordView,
    item: RecordView<'_>,
) -> Result<bool, AllocError>
    ensures { IfOk result (λ is_allowed. (if is_allowed then Some view.new else None) ≡ coord_next members place view.old (record_of item.entry)) }
{
    match item {
        RecordView::Header {
            node: _,
            generation: _,
        } => Ok(place == 0),
        RecordView::Commit { txn, members: walk } => {
            let list = members_of(alloc, walk)?;
            if place < 1 || view.seen.contains(txn) || !all_up_to(members, list.as_slice()) {
                return Ok(false);
            }
            commit_in(view, txn, list)?;
            Ok(true)
        }
        RecordView::End { txn } => Ok(view.unended.remove(txn).is_some()),
        RecordView::Prepare {
            txn: _,
            coord: _,
            count: _,
            reads: _,
            writes: _,
        } => Ok(false),
        RecordView::Abort { txn: _ } => Ok(false),
        RecordView::Checkpoint {
            rows: _,
            undos: _,
            committed: _,
        } => Ok(false),
    }
}

/// The view after one more record, or none where it is not allowed behind so many others.
fn next_view(
    alloc: Global,
    members: u8,
    place: u32,
    mut view: CoordView,
    item: RecordView<'_>,
) -> Result<Option<CoordView>, AllocError>
    ensures { IfOk result (λ next. next ≡ coord_next members place view (record_of item.entry)) }
{
    match take_in(alloc, members, place, &mut view, item) {
        Ok(true) => Ok(Some(view)),
        Ok(false) => Ok(None),
        Err(fault) => Err(fault),
    }
}

/// The commits of a table, ascending.
fn commits_of(alloc: Global, unended: &Table<Bytes>) -> Result<Commits, AllocError>
    ensures { IfOk result (λ commits. commits ≡ commits_of unended.now) }
{
    let mut commits = Vec::new(alloc);
    for (t, members) in unended.iter() {
        commits.push(Decided {
            txn: *t,
            members: copy_bytes(alloc, members.as_slice())?,
        })?;
    }
    Ok(Commits::of(commits))
}

/// The numbers of a set, ascending.
pub(crate) fn numbers_in(alloc: Global, numbers: &Table<()>) -> Result<Txns, AllocError>
    ensures { IfOk result (λ list. list ≡ keys numbers.now) }
{
    let mut list = Vec::new(alloc);
    for (t, _) in numbers.iter() {
        list.push(*t)?;
    }
    Ok(Txns::of(list))
}

/// What a view of a coordinator's log says.
fn past_of(alloc: Global, view: &CoordView) -> Result<CoordPast, AllocError>
    ensures { IfOk result (λ past. past ≡ past_of_coord view.now) }
{
    Ok(CoordPast {
        committed: commits_of(alloc, &view.unended)?,
        seen: numbers_in(alloc, &view.seen)?,
    })
}

/// What the records of a coordinator's log tell, in a federation of so many members: the commits with participants
/// that have no end, and every number seen.
///
/// `Inconsistent` comes exactly at the first record that is not allowed where it stands. Whose log it is, is not judged.
pub fn recover_coord(
    alloc: Global,
    mut views: Views<'_>,
    members: u8,
) -> Result<CoordPast, RecoverFault>
    ensures { (items : List (ℕ × Record)) → HasLeft views.entry items → IsCoordRecovery members items result }
{
    let mut view = CoordView {
        unended: Table::new(alloc),
        seen: Table::new(alloc),
    };
    let mut place = 0;
    'records: loop {
        match views.next() {
            None => return Ok(past_of(alloc, &view)?),
            Some((at, item)) => match next_view(alloc, members, place, view, item)? {
                None => return Err(RecoverFault::Inconsistent { at }),
                Some(after) => {
                    view = after;
                    place += 1;
                }
            },
        }
    }
}
