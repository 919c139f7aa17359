//! A cycle from its least transaction on.
ghost use Rattle.std.specs.Prelude.{◌<◌, length, IfOk};
ghost use Rattle.co_wait.specs.Knots.{IsTurned};
ghost use Rattle.co_wait.specs.Searching.{IsLeastUpTo};

use crate::knot::Legs;
use crate::wait::Wait;
use std::alloc::{AllocError, Global};

/// The place of the least transaction.
fn least_place(ring: &[Wait]) -> usize
    requires { 0 < length ring.now }
    ensures within { result < length ring.now }
    ensures least { IsLeastUpTo ring.now result (length ring.now) }
{
    let mut least = 0;
    for place in 0..ring.len() {
        if ring[place].held < ring[least].held {
            least = place;
        }
    }
    least
}

/// The waits of a cycle, turned so that the least transaction is first.
pub(crate) fn turned(alloc: Global, ring: &[Wait]) -> Result<Legs, AllocError>
    requires { 0 < length ring.now }
    ensures { IfOk result (IsTurned ring.now) }
{
    let (front, back) = ring.split_at(least_place(ring));
    let mut legs = Vec::from_slice(alloc, back)?;
    legs.extend_from_slice(front)?;
    Ok(Legs::of(legs))
}
