//! A coordinator over a directory that was empty.
ghost use Rattle.std.specs.Prelude.{IfOk};
ghost use Rattle.co_coord_tests.specs.Played.{IsPlayed, IsMadeIn};

use crate::calls::COORD;
use crate::fits::MEMBERS;
use anyhow::Result;
use co_base::{Node, Txns};
use co_coord::Coord;
use co_log::Log;
use co_outside::HomeMemory;
use co_recover::{Commits, CoordPast};
use std::alloc::Global;

/// The log of the coordinator, made in a directory where it is fresh.
fn made(alloc: Global, home: &mut HomeMemory) -> Result<Log>
    ensures { IfOk result (λ log. IsMadeIn home.new log) }
{
    let mut log = Log::attach(alloc, home, Node::Coord(COORD), false)?;
    log.make(home)?;
    Ok(log)
}

/// A coordinator over its log in this directory, where it is fresh.
pub(crate) fn opened(alloc: Global, home: &mut HomeMemory) -> Result<Coord>
    ensures { IfOk result (λ coord. IsPlayed home.new coord) }
{
    let log = made(alloc, home)?;
    let past = CoordPast {
        committed: Commits::new(alloc),
        seen: Txns::new(alloc),
    };
    Ok(Coord::attach(alloc, COORD, MEMBERS, log, past)?)
}
