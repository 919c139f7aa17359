//! What may be asked of a coordinator: a commit of members, ascending, and a new transaction.
ghost use Rattle.std.specs.Prelude.{◌≡◌, false, OnOk};
ghost use Rattle.co_plain.specs.CoordView.{has_commit_of};
ghost use Rattle.co_plain.specs.Invariants.{Memory};
ghost use Rattle.co_plain.specs.declared.coord_state.CoordState.{CoordState};
ghost use Rattle.co_law_node.specs.WholeCoords.{commits_of, EndsAlone};
ghost use Rattle.co_coord.specs.Standing.{RepresentsCoord};
ghost use Rattle.co_coord_tests.specs.Played.{AreNamed, MayName};

use anyhow::{Result, bail};
use co_base::{Part, Txn};
use co_coord::Coord;
use co_plain::members_of;
use co_recover::recover_coord;
use std::alloc::Global;

/// How many members the federation has.
pub(crate) const MEMBERS: u8 = 3;

/// Refuses all but at most two members of the federation, ascending.
fn need_members(members: &[u8]) -> Result<()>
    ensures { OnOk result (AreNamed members.now) }
{
    match members {
        [] => Ok(()),
        [a] if 1 <= *a && *a <= MEMBERS => Ok(()),
        [a, b] if 1 <= *a && *a < *b && *b <= MEMBERS => Ok(()),
        _ => bail!("a commit names at most two members, ascending"),
    }
}

/// Refuses participants that a commit may not name.
pub(crate) fn need_named(alloc: Global, parts: &[Part]) -> Result<()>
    ensures { OnOk result (MayName parts.now) }
{
    let members = members_of(alloc, parts)?;
    need_members(&members)
}

/// Refuses a transaction that the log has committed.
pub(crate) fn need_new(alloc: Global, coord: &Coord, t: Txn) -> Result<()>
    requires { (y : CoordState) × RepresentsCoord coord.now y }
    ensures { (y : CoordState) → RepresentsCoord coord.now y → EndsAlone y.log.waiting → OnOk result (has_commit_of (commits_of Memory y) t ≡ false) }
{
    let past = recover_coord(alloc, coord.log().views(), MEMBERS)?;
    if past.seen.as_slice().contains(&t) {
        bail!("the transaction is committed");
    }
    Ok(())
}
