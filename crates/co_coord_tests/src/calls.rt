//! The calls of a coordinator.
ghost use Rattle.std.specs.Prelude.{OnOk};
ghost use Rattle.co_coord_tests.specs.Played.{IsPlayed, IsRunning};

use crate::fits::{need_named, need_new};
use anyhow::Result;
use co_base::{Part, Txn};
use co_coord::{Coord, CoordStep};
use co_message::Message;
use co_outside::HomeMemory;
use std::alloc::Global;

/// The number of the coordinator.
pub(crate) const COORD: u8 = 1;

/// A client begins a transaction.
pub(crate) fn begin(
    alloc: Global,
    home: &HomeMemory,
    coord: &mut Coord,
    t: Txn,
) -> Result<CoordStep>
    requires { IsRunning home.now coord.old }
    ensures { OnOk result (IsPlayed home.now coord.new) }
{
    need_new(alloc, coord, t)?;
    Ok(coord.begin(t)?)
}

/// A client asks for the commit.
pub(crate) fn commit(
    alloc: Global,
    home: &mut HomeMemory,
    coord: &mut Coord,
    t: Txn,
    parts: &[Part],
) -> Result<CoordStep>
    requires { IsRunning home.old coord.old }
    ensures { OnOk result (IsPlayed home.new coord.new) }
{
    need_named(alloc, parts)?;
    Ok(coord.commit(home, t, parts)?)
}

/// A message comes.
pub(crate) fn deliver(
    home: &mut HomeMemory,
    coord: &mut Coord,
    message: &Message,
) -> Result<CoordStep>
    requires { IsRunning home.old coord.old }
    ensures { OnOk result (IsPlayed home.new coord.new) }
{
    Ok(coord.deliver(home, message)?)
}
