//! What one member does.
ghost use Rattle.std.specs.Prelude.{◌≡◌, IfOk, IfErr, OnOk};
ghost use Rattle.co_base.specs.declared.node.Node.TheVariants as node;
ghost use Rattle.co_log.specs.Others.{OtherNodesStay};
ghost use Rattle.co_member.specs.Standing.{RepresentsMember, HasDone, IsSame};
ghost use Rattle.co_plain.specs.declared.member_state.MemberState.{MemberState};
ghost use Rattle.co_cluster.specs.Calls.{member_does, MemberMay};
ghost use Rattle.co_opening.specs.Nodes.{IsKept};
ghost use Rattle.co_cluster.specs.Left.{IsLeftBy, member_disarmed};
ghost use Rattle.co_cluster.specs.Served.{IsServed, HasFailedAs};
ghost use Rattle.co_member.specs.Pins.{PinsStay};

use crate::calls::MemberCall;
use co_engine::Engine;
use co_log::NodeFault;
use co_member::{Member, MemberStep};
use co_outside::Home;

/// What is asked of a member is done.
///
/// A stopped write leaves the member down, and nothing is sent. A fault ends the run, and leaves the stable records of before, or those of the
/// completed write.
pub(crate) fn member_does<E: Engine + Drop, H: Home>(
    member: &mut Member<E>,
    home: &mut H,
    call: MemberCall,
) -> Result<MemberStep, NodeFault>
    requires kept { IsKept (H.seen home.old) (node.Member member.old.number) member.old.log }
    requires taken { E.takes member.old.kind }
    requires stands { (x : MemberState) × RepresentsMember E.stands_for member.old x × MemberMay member.old.coords call x }
    ensures did { (x : MemberState) → RepresentsMember E.stands_for member.old x → IfOk result (λ d. HasDone E.stands_for (member_does member.old.number call x) d member.new) }
    ensures served { OnOk result (IsServed (node.Member member.old.number) member.new.log
        (H.seen home.old) (H.seen home.new)) }
    ensures ended { IfErr result (λ fault. HasFailedAs fault
        (H.seen home.old) (H.seen home.new)) }
    ensures left { (x : MemberState) → RepresentsMember E.stands_for member.old x → IfErr result (IsLeftBy (H.seen home.new).file (node.Member member.old.number) x.log.stable
        (member_does member.old.number call (member_disarmed x)).state.log.stable) }
    ensures rest { OtherNodesStay (node.Member member.old.number) (H.seen home.old) (H.seen home.new) }
    ensures same { IsSame member.old member.new }
    ensures pins { PinsStay E.pins member.old member.new }
{
    match call {
        MemberCall::Deliver(message) => member.deliver(home, &message),
        MemberCall::Vote(t) => member.vote(home, t),
        MemberCall::Timer(t) => member.timer(t),
        MemberCall::Ask(t) => member.ask(t),
        MemberCall::LocalCommit { txn, carried } => member.local_commit(home, txn, carried),
        MemberCall::LocalAbort(t) => member.local_abort(t),
        MemberCall::Crash => member.crash(home),
        MemberCall::Restart => member.restart(home),
        MemberCall::Arm { call, leaves } => member.arm(call, leaves),
        MemberCall::Checkpoint => member.checkpoint(home),
    }
}
