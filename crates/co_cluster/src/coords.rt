//! What one coordinator does.
ghost use Rattle.std.specs.Prelude.{◌≡◌, IfOk, IfErr, OnOk};
ghost use Rattle.co_base.specs.declared.node.Node.TheVariants as node;
ghost use Rattle.co_log.specs.Others.{OtherNodesStay};
ghost use Rattle.co_coord.specs.Standing.{RepresentsCoord, HasDone, IsSame};
ghost use Rattle.co_plain.specs.declared.coord_state.CoordState.{CoordState};
ghost use Rattle.co_cluster.specs.Calls.{coord_does, CoordMay};
ghost use Rattle.co_opening.specs.Nodes.{IsKept};
ghost use Rattle.co_cluster.specs.Left.{IsLeftBy, coord_disarmed};
ghost use Rattle.co_cluster.specs.Served.{IsServed, HasFailedAs};

use crate::calls::CoordCall;
use co_coord::{Coord, CoordStep};
use co_log::NodeFault;
use co_outside::Home;

/// What is asked of a coordinator is done.
///
/// A stopped write leaves the coordinator down, and nothing is sent. A fault ends the run, and leaves the stable records of before, or those of the
/// completed write.
pub(crate) fn coord_does<H: Home>(
    coord: &mut Coord,
    home: &mut H,
    call: CoordCall,
) -> Result<CoordStep, NodeFault>
    requires kept { IsKept (H.seen home.old) (node.Coord coord.old.number) coord.old.log }
    requires stands { (y : CoordState) × RepresentsCoord coord.old y × CoordMay coord.old.members coord.old.number call y }
    ensures did { (y : CoordState) → RepresentsCoord coord.old y → IfOk result (λ d. HasDone (coord_does coord.old.number call y) d coord.new) }
    ensures served { OnOk result (IsServed (node.Coord coord.old.number) coord.new.log
        (H.seen home.old) (H.seen home.new)) }
    ensures ended { IfErr result (λ fault. HasFailedAs fault
        (H.seen home.old) (H.seen home.new)) }
    ensures left { (y : CoordState) → RepresentsCoord coord.old y → IfErr result (IsLeftBy (H.seen home.new).file (node.Coord coord.old.number) y.log.stable
        (coord_does coord.old.number call (coord_disarmed y)).state.log.stable) }
    ensures rest { OtherNodesStay (node.Coord coord.old.number) (H.seen home.old) (H.seen home.new) }
    ensures same { IsSame coord.old coord.new }
{
    match call {
        CoordCall::Begin(t) => coord.begin(t),
        CoordCall::Commit { txn, parts } => coord.commit(home, txn, parts.as_slice()),
        CoordCall::Abort { txn, parts } => coord.abort(txn, parts.as_slice()),
        CoordCall::Deliver(message) => coord.deliver(home, &message),
        CoordCall::Timer(t) => coord.timer(t),
        CoordCall::Resend(t) => coord.resend(t),
        CoordCall::Crash => coord.crash(home),
        CoordCall::Restart => coord.restart(home),
        CoordCall::Arm { call, leaves } => coord.arm(call, leaves),
        CoordCall::Checkpoint => coord.checkpoint(home),
    }
}
