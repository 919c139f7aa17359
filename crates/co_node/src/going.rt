//! Crashes, restarts, armed stops and waiting records.
ghost use Rattle.std.specs.Prelude.{◌≡◌, ◌≤◌, ◌++◌, ◌∷◌, [], ℕ, Option, None, Some, OnOk, OnErr};
ghost use Rattle.co_outside.specs.Home.{HomeView, File};
ghost use Rattle.co_outside.specs.declared.spot.Spot.{Spot};
ghost use Rattle.co_base.specs.declared.node.Node.{Node};
ghost use Rattle.co_record.specs.Spelling.{IsWritable};
ghost use Rattle.co_log.specs.LogView.{IsHeld, MayWait};
ghost use Rattle.co_log.specs.Others.{OtherNodesStay};
ghost use Rattle.co_plain.specs.LogWrite.{crashed_log, with_stop, with_waiting};
ghost use Rattle.co_plain.specs.declared.log_state.LogState.{LogState};
ghost use Rattle.co_node.specs.NodeLog.{RepresentsLog};
ghost use Rattle.co_node.specs.Rereading.{IsReread};

use co_base::Leaves;
use co_log::{Log, LogFault, NodeFault};
use co_outside::Home;
use co_record::Record;
use std::alloc::AllocError;

/// Keeps a record waiting for the next log write. Want of memory leaves the log as it was.
pub fn keep_waiting(log: &mut Log, item: Record) -> Result<(), AllocError>
    requires item { IsWritable item × MayWait item }
    ensures stands { (owner : Node) (l : LogState) → RepresentsLog owner log.old l → OnOk result (RepresentsLog owner log.new (with_waiting l item)) }
    ensures ok { OnOk result (log.new ≡ record log.old { waiting = log.old.waiting ++ item ∷ [] }) }
    ensures held { (home : HomeView) → IsHeld home log.old → IsHeld home log.new }
    ensures err { OnErr result (log.new ≡ log.old) }
{
    log.later(item)
}

/// Arms the next log write of the node: its device call with this number, counted from 1, stops and leaves this image.
pub fn arm(log: &mut Log, stop: u8, leaves: Leaves)
    requires { (1 ≤ stop) × (stop ≤ 4) }
    ensures stands { (owner : Node) (l : LogState) → RepresentsLog owner log.old l → RepresentsLog owner log.new (with_stop l (Some (record { call = stop; leaves = leaves }))) }
    ensures held { (home : HomeView) → IsHeld home log.old → IsHeld home log.new }
{
    log.arm(stop, leaves);
}

/// Takes the armed stop away.
pub fn disarm(log: &mut Log)
    ensures stands { (owner : Node) (l : LogState) → RepresentsLog owner log.old l → RepresentsLog owner log.new (with_stop l None) }
    ensures held { (home : HomeView) → IsHeld home log.old → IsHeld home log.new }
{
    log.disarm();
}

/// A crash between two log writes: the waiting records and the armed stop are lost. It makes no call of the directory.
pub fn crash<H: Home>(log: &mut Log, home: &mut H)
    requires held { IsHeld (H.seen home.old) log.old }
    requires stands { (owner : Node) × (l : LogState) × RepresentsLog owner log.old l }
    ensures stands { (owner : Node) (l : LogState) → RepresentsLog owner log.old l → RepresentsLog owner log.new (crashed_log l) }
    ensures held { IsHeld (H.seen home.new) log.new }
    ensures home { home.new ≡ home.old }
{
    match log.cut(home) {
        Ok(()) => (),
        Err(_) => unreachable!(),
    }
}

/// Reads both files of a node again, that of the current one first, before the node goes up. Nothing of the log changes.
///
/// `Device` comes where the directory failed, and only there; `Differs` exactly where a file is not what is kept of it, with the first place
/// that differs, and never over a directory that tells it; `Memory` where there was none.
pub fn reread<H: Home>(log: &mut Log, home: &mut H) -> Result<(), NodeFault>
    requires held { IsHeld (H.seen home.old) log.old }
    ensures log { log.new ≡ log.old }
    ensures held { IsHeld (H.seen home.new) log.new }
    ensures files { ((H.seen home.new).file log.old.current.spot ≡ (H.seen home.old).file log.old.current.spot) × ((H.seen home.new).file log.old.spare.spot ≡ (H.seen home.old).file log.old.spare.spot) }
    ensures reread { IsReread H.gives H.seen log.old home.old home.new result }
    ensures rest { OtherNodesStay log.old.node (H.seen home.old) (H.seen home.new) }
{
    match log.reattach(home) {
        Ok(()) => Ok(()),
        Err(LogFault::Device { spot }) => Err(NodeFault::Device { spot }),
        Err(
            LogFault::Differs {
                spot,
                at,
                kept,
                read,
            },
        ) => Err(NodeFault::Differs {
            spot,
            at,
            kept,
            read,
        }),
        Err(LogFault::Memory) => Err(NodeFault::Memory),
        Err(
            LogFault::Stopped { .. }
            | LogFault::Bad { .. }
            | LogFault::Full { .. }
            | LogFault::InUse { .. },
        ) => unreachable!(),
    }
}
