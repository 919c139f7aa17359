//! The logs of a federation are attached. Nothing is written.
ghost use Rattle.std.specs.Prelude.{ℕ, ◌≡◌, ◌≢◌, ◌≤◌, true, IfOk, IfErr, IsErrOf, length};
ghost use Rattle.co_base.specs.Nodes.{IsValidNode};
ghost use Rattle.co_base.specs.declared.node.Node.{Node};
ghost use Rattle.co_base.specs.declared.node.Node.TheVariants as node;
ghost use Rattle.co_outside.specs.declared.spot.Spot.{Spot};
ghost use Rattle.co_outside.specs.Home.{HasFailed};
ghost use Rattle.co_log.specs.Attaching.{IsOfAttach};
ghost use Rattle.co_log.specs.LogView.{spot_of};
ghost use Rattle.co_log.specs.Others.{NodeStays, OtherFilesStay};
ghost use Rattle.co_durable.specs.Pairs.{EachPair};
ghost use Rattle.co_durable.specs.Reading.{OnlyReads};
ghost use Rattle.co_opening.specs.Attached.{AreAttached, IsAttachedTo, IsOfAttaching, IsUnattached, IsFirstUnattached};
ghost use Rattle.co_opening.specs.Kept.{IsOwnLog, AreOwnLogs};
ghost use Rattle.co_opening.specs.Opened.{IsUnopened};
ghost use Rattle.co_opening.specs.Sorts.{node_in, most_in, nodes_in};

use crate::sort::Sort;
use co_base::{Head, Node};
use co_durable::WorldFault;
use co_log::{Log, LogFault};
use co_outside::Home;
use std::alloc::Global;

/// The logs of all nodes of a federation.
#[derive(Drop)]
pub struct Logs {
    /// Those of the members, from member 1 on.
    pub members: Vec<Log>,
    /// Those of the coordinators, from coordinator 1 on.
    pub coords: Vec<Log>,
}

/// Attaches the log of a node, whose files are as they were.
fn attach<H: Home>(alloc: Global, home: &mut H, node: Node, resume: bool) -> Result<Log, LogFault>
    requires { IsValidNode node }
    ensures attached { IfOk result (IsAttachedTo (H.seen home.old).file resume node) }
    ensures kept { IfOk result (IsOwnLog (H.seen home.new) node) }
    ensures refused { IfErr result (IsOfAttach node resume ((H.seen home.old).file (spot_of node 0)) ((H.seen home.old).file (spot_of node 1))) }
    ensures reads { OnlyReads (H.seen home.old) (H.seen home.new) }
    ensures others { OtherFilesStay node (H.seen home.old) (H.seen home.new) }
    ensures device { (spot : Spot) → IsErrOf result (LogFault.Device spot) → HasFailed spot (H.seen home.old) (H.seen home.new) }
    ensures quiet { ((spot : Spot) → IsErrOf result (LogFault.Device spot) → ⊥) → (H.seen home.new).faults ≡ (H.seen home.old).faults }
{
    Log::attach(alloc, home, node, resume)
}

/// The log of a node, as its files are now.
fn attach_log<H: Home>(
    alloc: Global,
    home: &mut H,
    node: Node,
    resume: bool,
) -> Result<Log, WorldFault>
    requires { IsValidNode node }
    ensures attached { IfOk result (IsAttachedTo (H.seen home.old).file resume node) }
    ensures kept { IfOk result (IsOwnLog (H.seen home.new) node) }
    ensures unattached { IfErr result (λ fault. IsUnattached (H.seen home.old).file resume fault node) }
    ensures reads { OnlyReads (H.seen home.old) (H.seen home.new) }
    ensures others { OtherFilesStay node (H.seen home.old) (H.seen home.new) }
    ensures device { (spot : Spot) → IsErrOf result (WorldFault.Device spot) → HasFailed spot (H.seen home.old) (H.seen home.new) }
    ensures quiet { ((spot : Spot) → IsErrOf result (WorldFault.Device spot) → ⊥) → (H.seen home.new).faults ≡ (H.seen home.old).faults }
{
    match attach(alloc, home, node, resume) {
        Ok(log) => Ok(log),
        Err(LogFault::Device { spot }) => Err(WorldFault::Device { spot }),
        Err(LogFault::Bad { spot, at }) => Err(WorldFault::Bad { spot, at }),
        Err(LogFault::Full { spot }) => Err(WorldFault::Full { spot }),
        Err(LogFault::InUse { spot }) => Err(WorldFault::InUse { spot }),
        Err(LogFault::Memory) => Err(WorldFault::Memory),
        Err(LogFault::Stopped { .. }) => unreachable!(),
        Err(LogFault::Differs { .. }) => unreachable!(),
    }
}

/// The logs of so many nodes of a sort, from the first one on. The first node whose log is not attached ends it.
fn attach_sort<H: Home>(
    alloc: Global,
    home: &mut H,
    sort: Sort,
    count: u8,
    resume: bool,
) -> Result<Vec<Log>, WorldFault>
    requires { count ≤ most_in sort }
    ensures attached { IfOk result (λ logs. EachPair (IsAttachedTo (H.seen home.old).file resume) (nodes_in sort count) logs.items) }
    ensures kept { IfOk result (λ logs. AreOwnLogs (H.seen home.new) (node_in sort) 0 logs.items) }
    ensures unattached { IfErr result (IsFirstUnattached (H.seen home.old).file resume (nodes_in sort count)) }
    ensures reads { OnlyReads (H.seen home.old) (H.seen home.new) }
    ensures others { (n : Node) → IsValidNode n → ((p : ℕ) → n ≢ node_in sort p) → NodeStays n (H.seen home.old) (H.seen home.new) }
    ensures device { (spot : Spot) → IsErrOf result (WorldFault.Device spot) → HasFailed spot (H.seen home.old) (H.seen home.new) }
    ensures quiet { ((spot : Spot) → IsErrOf result (WorldFault.Device spot) → ⊥) → (H.seen home.new).faults ≡ (H.seen home.old).faults }
{
    let mut logs = Vec::new(alloc);
    for place in 0..count {
        let log = attach_log(alloc, home, sort.node(place + 1), resume)?;
        logs.push(log)?;
    }
    Ok(logs)
}

/// The logs of all nodes of a federation in the directory that was entered, members before coordinators: fresh ones, or, where they are resumed,
/// those that a run left, of either version. No file is written.
///
/// The first node whose log is not attached ends it. `InUse` comes exactly where a file has more than one byte and the logs are not resumed. Where
/// they are resumed, `Full` comes where a file has more than 268,435,456 bytes, and `Bad` where the files of a node are no log, at the place of the
/// first fault. `Device` comes where the directory failed, and only there; no other fault comes but want of memory.
pub fn attach_all<H: Home>(
    alloc: Global,
    home: &mut H,
    head: &Head,
    resume: bool,
) -> Result<Logs, WorldFault>
    ensures attached { IfOk result (λ logs. AreAttached (H.seen home.old).file resume (length head.now.kinds) head.now.coords logs.members.items logs.coords.items) }
    ensures kept_members { IfOk result (λ logs. AreOwnLogs (H.seen home.new) node.Member 0 logs.members.items) }
    ensures kept_coords { IfOk result (λ logs. AreOwnLogs (H.seen home.new) node.Coord 0 logs.coords.items) }
    ensures refused { IfErr result (IsUnopened (H.seen home.old).file head.now resume) }
    ensures faults { IfErr result IsOfAttaching }
    ensures reads { OnlyReads (H.seen home.old) (H.seen home.new) }
    ensures device { (spot : Spot) → IsErrOf result (WorldFault.Device spot) → HasFailed spot (H.seen home.old) (H.seen home.new) }
    ensures quiet { ((spot : Spot) → IsErrOf result (WorldFault.Device spot) → ⊥) → (H.seen home.new).faults ≡ (H.seen home.old).faults }
{
    let count = head.kinds.len() as u8;
    let members = attach_sort(alloc, home, Sort::Members, count, resume)?;
    let coords = attach_sort(alloc, home, Sort::Coords, head.coords, resume)?;
    Ok(Logs { members, coords })
}
