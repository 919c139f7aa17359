//! Logs that are read to be told, and not to be written.
ghost use Rattle.std.specs.Prelude.{◌≡◌, IfOk, IfErr, IsErrOf, ◌≤◌, true};
ghost use Rattle.std.specs.List.{AllByRecursion};
ghost use Rattle.co_base.specs.Nodes.{IsValidNode};
ghost use Rattle.co_base.specs.Limits.{most_coordinators, most_members};
ghost use Rattle.co_outside.specs.declared.spot.Spot.{Spot};
ghost use Rattle.co_outside.specs.Home.{HasFailed};
ghost use Rattle.co_log.specs.Attaching.{IsOfAttach};
ghost use Rattle.co_log.specs.LogView.{spot_of};
ghost use Rattle.co_durable.specs.Nodes.{member_nodes, coord_nodes};
ghost use Rattle.co_durable.specs.Pairs.{EachPair};
ghost use Rattle.co_durable.specs.Reading.{OnlyReads, IsLogOf, IsUnread, IsFirstUnread};

use crate::fault::WorldFault;
use crate::nodes::{coord_nodes, member_nodes};
use co_base::Node;
use co_log::{Log, LogFault};
use co_outside::Home;
use std::alloc::Global;

/// Attaches the log of a node to be resumed. No file is changed.
fn attach<H: Home>(alloc: Global, home: &mut H, node: Node) -> Result<Log, LogFault>
    requires { IsValidNode node }
    ensures read { IfOk result (IsLogOf (H.seen home.old).file node) }
    ensures refused { IfErr result (IsOfAttach node true ((H.seen home.old).file (spot_of node 0)) ((H.seen home.old).file (spot_of node 1))) }
    ensures reads { OnlyReads (H.seen home.old) (H.seen home.new) }
    ensures device { (spot : Spot) → IsErrOf result (LogFault.Device spot) → HasFailed spot (H.seen home.old) (H.seen home.new) }
    ensures quiet { ((spot : Spot) → IsErrOf result (LogFault.Device spot) → ⊥) → (H.seen home.new).faults ≡ (H.seen home.old).faults }
{
    Log::attach(alloc, home, node, true)
}

/// The log of a node, as its files are now.
fn read_log<H: Home>(alloc: Global, home: &mut H, node: Node) -> Result<Log, WorldFault>
    requires { IsValidNode node }
    ensures read { IfOk result (IsLogOf (H.seen home.old).file node) }
    ensures unread { IfErr result (λ fault. IsUnread (H.seen home.old).file fault node) }
    ensures reads { OnlyReads (H.seen home.old) (H.seen home.new) }
    ensures device { (spot : Spot) → IsErrOf result (WorldFault.Device spot) → HasFailed spot (H.seen home.old) (H.seen home.new) }
    ensures quiet { ((spot : Spot) → IsErrOf result (WorldFault.Device spot) → ⊥) → (H.seen home.new).faults ≡ (H.seen home.old).faults }
{
    match attach(alloc, home, node) {
        Ok(log) => Ok(log),
        Err(LogFault::Device { spot }) => Err(WorldFault::Device { spot }),
        Err(LogFault::Bad { spot, at }) => Err(WorldFault::Bad { spot, at }),
        Err(LogFault::Full { spot }) => Err(WorldFault::Full { spot }),
        Err(LogFault::Memory) => Err(WorldFault::Memory),
        Err(LogFault::Stopped { .. }) => unreachable!(),
        Err(LogFault::Differs { .. }) => unreachable!(),
        Err(LogFault::InUse { .. }) => unreachable!(),
    }
}

/// The logs of these nodes, in their order. The first node whose files are no log ends the reading.
fn read_logs<H: Home>(alloc: Global, home: &mut H, nodes: &[Node]) -> Result<Vec<Log>, WorldFault>
    requires { AllByRecursion IsValidNode nodes.now }
    ensures read { IfOk result (λ logs. EachPair (IsLogOf (H.seen home.old).file) nodes.now logs.items) }
    ensures unread { IfErr result (IsFirstUnread (H.seen home.old).file nodes.now) }
    ensures reads { OnlyReads (H.seen home.old) (H.seen home.new) }
    ensures device { (spot : Spot) → IsErrOf result (WorldFault.Device spot) → HasFailed spot (H.seen home.old) (H.seen home.new) }
    ensures quiet { ((spot : Spot) → IsErrOf result (WorldFault.Device spot) → ⊥) → (H.seen home.new).faults ≡ (H.seen home.old).faults }
{
    let mut logs = Vec::new(alloc);
    for node in nodes {
        logs.push(read_log(alloc, home, *node)?)?;
    }
    Ok(logs)
}

/// The logs of so many members, from the first one on.
pub(crate) fn read_members<H: Home>(
    alloc: Global,
    home: &mut H,
    count: u8,
) -> Result<Vec<Log>, WorldFault>
    requires { count ≤ most_members }
    ensures read { IfOk result (λ logs. EachPair (IsLogOf (H.seen home.old).file) (member_nodes count) logs.items) }
    ensures unread { IfErr result (IsFirstUnread (H.seen home.old).file (member_nodes count)) }
    ensures reads { OnlyReads (H.seen home.old) (H.seen home.new) }
    ensures device { (spot : Spot) → IsErrOf result (WorldFault.Device spot) → HasFailed spot (H.seen home.old) (H.seen home.new) }
    ensures quiet { ((spot : Spot) → IsErrOf result (WorldFault.Device spot) → ⊥) → (H.seen home.new).faults ≡ (H.seen home.old).faults }
{
    let nodes = member_nodes(alloc, count)?;
    read_logs(alloc, home, nodes.as_slice())
}

/// The logs of so many coordinators, from the first one on.
pub(crate) fn read_coords<H: Home>(
    alloc: Global,
    home: &mut H,
    count: u8,
) -> Result<Vec<Log>, WorldFault>
    requires { count ≤ most_coordinators }
    ensures read { IfOk result (λ logs. EachPair (IsLogOf (H.seen home.old).file) (coord_nodes count) logs.items) }
    ensures unread { IfErr result (IsFirstUnread (H.seen home.old).file (coord_nodes count)) }
    ensures reads { OnlyReads (H.seen home.old) (H.seen home.new) }
    ensures device { (spot : Spot) → IsErrOf result (WorldFault.Device spot) → HasFailed spot (H.seen home.old) (H.seen home.new) }
    ensures quiet { ((spot : Spot) → IsErrOf result (WorldFault.Device spot) → ⊥) → (H.seen home.new).faults ≡ (H.seen home.old).faults }
{
    let nodes = coord_nodes(alloc, count)?;
    read_logs(alloc, home, nodes.as_slice())
}
