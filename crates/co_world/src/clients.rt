//! What clients ask: to begin, to operate and to end.
ghost use Rattle.std.specs.Prelude.{◌≡◌, ◌≤◌, ◌<◌, Option, true, false, Some, length, IfOk, IfErr, IsErrOf, OnOk, ◌↔◌};
ghost use Rattle.co_base.specs.declared.reply.Reply.{Reply};
ghost use Rattle.co_base.specs.Limits.{most_members, most_operations};
ghost use Rattle.co_durable.specs.declared.fault.WorldFault.TheVariants as world;
ghost use Rattle.co_message.specs.declared.answer.Answer.{Answer};
ghost use Rattle.co_message.specs.declared.event.Event.TheVariants as event;
ghost use Rattle.co_outside.specs.Home.{HomeView};
ghost use Rattle.co_plain.specs.Federation.{Federation, with_member};
ghost use Rattle.co_plain.specs.Member.{member_op};
ghost use Rattle.co_plain.specs.Runs.{numbered};
ghost use Rattle.co_plain.specs.Sessions.{Grants, leave_to_visit, count_at, parts_of};
ghost use Rattle.co_plain.specs.Step.{is_stopped, is_held, reply_in, entered, operate, marked_asked, coord_answers, local_answers, step_line};
ghost use Rattle.co_plain.specs.declared.session.Session.{Session};
ghost use Rattle.co_session.specs.Clients.{is_used, is_full, carried_in};
ghost use Rattle.co_session.specs.Leaves.{refusal_of};
ghost use Rattle.co_state.specs.Table.{look, holds};
ghost use Rattle.co_world.specs.Calls.{coord_call, member_call, ended};
ghost use Rattle.co_cluster.specs.Calls.{coord_does, member_does};
ghost use Rattle.co_cluster.specs.Conditions.{IsReady};
ghost use Rattle.co_world.specs.Counting.{IsOneMore};
ghost use Rattle.co_world.specs.Standing.{RepresentsWorld, AreHeld};
ghost use Rattle.co_cluster.specs.Served.{IsOfNoFile};
ghost use Rattle.co_world.specs.Answered.{AnswersEvent};
ghost use Rattle.co_opening.specs.Rest.{OnlyOwnFilesChange};
ghost use Rattle.co_world.specs.Pins.{PinsStay};

use crate::world::World;
use co_base::{Node, Op, Parts, Reply, Rows, Txn, copy_rows};
use co_cluster::{CoordCall, MemberCall};
use co_durable::WorldFault;
use co_engine::Engine;
use co_message::{Answer, Items};
use co_outside::Home;
use co_serial::Site;
use co_session::SessionFault;
use std::alloc::{AllocError, Global};

/// How a client ends a transaction.
#[derive(Clone, Copy)]
pub(crate) enum Ending {
    Commit,
    Abort,
}

/// What a coordinator is asked for where a client ends a transaction.
fn coord_call(ending: Ending, txn: Txn, parts: Parts) -> CoordCall
    ensures { result ≡ coord_call ending txn parts }
{
    match ending {
        Ending::Commit => CoordCall::Commit { txn, parts },
        Ending::Abort => CoordCall::Abort { txn, parts },
    }
}

/// What a member is asked for where a client ends a local transaction.
fn member_call(ending: Ending, txn: Txn, carried: u16) -> MemberCall
    ensures { result ≡ member_call ending txn carried }
{
    match ending {
        Ending::Commit => MemberCall::LocalCommit { txn, carried },
        Ending::Abort => MemberCall::LocalAbort(txn),
    }
}

/// Whether the node was stopped.
fn is_stopped(answer: &Answer) -> bool
    ensures { result ≡ is_stopped answer.now }
{
    matches!(answer, Answer::Stopped(_))
}

/// Whether the answer is that the vote is held.
fn is_held(answer: &Answer) -> bool
    ensures { result ≡ is_held answer.now }
{
    matches!(answer, Answer::Held(_))
}

/// The answer to a client that may not act.
fn refusal(fault: SessionFault) -> Answer
    requires { (a : Answer) × (refusal_of fault ≡ Some a) }
    ensures { refusal_of fault ≡ Some result }
{
    match fault {
        SessionFault::Used => Answer::Used,
        SessionFault::NotBegun => Answer::NotBegun,
        SessionFault::Asked => Answer::Asked,
        SessionFault::Count => unreachable!(),
    }
}

/// The reply of an answer, where it has one.
fn reply_in(alloc: Global, answer: &Answer) -> Result<Option<Reply>, AllocError>
    ensures { IfOk result (λ reply. reply ≡ reply_in answer.now) }
{
    match answer {
        Answer::Replied(Reply::Got(None)) => Ok(Some(Reply::Got(None))),
        Answer::Replied(Reply::Got(Some(value))) => Ok(Some(Reply::Got(Some(value.copy()?)))),
        Answer::Replied(Reply::Rows(rows)) => {
            Ok(Some(Reply::Rows(Rows::of(copy_rows(alloc, rows.as_slice())?))))
        }
        Answer::Replied(Reply::Done) => Ok(Some(Reply::Done)),
        _ => Ok(None),
    }
}

impl<E: Engine + Drop> World<E> {
    /// Whether the number is used. `Count` comes where it is not, and as many are begun or used as there may be.
    fn used(&self, t: Txn) -> Result<bool, WorldFault>
        ensures used { IfOk result (λ used. used ≡ is_used self.now.sessions t) }
        ensures room { IfOk result (λ used. used ≡ false → is_full self.now.sessions ≡ false) }
        ensures count { IfErr result (λ fault. (fault ≡ world.Count) × (is_used self.now.sessions t ≡ false) × (is_full self.now.sessions ≡ true)) }
    {
        match self.sessions.may_begin(t) {
            Ok(()) => Ok(false),
            Err(SessionFault::Used) => Ok(true),
            Err(SessionFault::Count) => Err(WorldFault::Count),
            Err(SessionFault::NotBegun | SessionFault::Asked) => unreachable!(),
        }
    }

    /// A client begins at a coordinator. The number is used up only where the coordinator is up.
    pub(crate) fn begin<H: Home>(
        &mut self,
        home: &mut H,
        number: u32,
        t: Txn,
        coord: u8,
    ) -> Result<Items, WorldFault>
        requires in_head { (1 ≤ coord) × (coord ≤ length self.old.cluster.coords.items) }
        requires held { AreHeld (H.seen home.old) self.old }
        requires stands { (s : Federation) × RepresentsWorld E.takes E.stands_for self.old s }
        ensures count { IsErrOf result WorldFault.Count ↔ IsOneMore self.old.sessions t }
        ensures answered { (s : Federation) → RepresentsWorld E.takes E.stands_for self.old s →
            AnswersEvent E.takes E.stands_for number (λ z. step_line z (event.Begin t coord)) s self.new (H.seen home.old) (H.seen home.new) result }
        ensures rest { OnlyOwnFilesChange (length self.old.cluster.members.items) (length self.old.cluster.coords.items) (H.seen home.old) (H.seen home.new) }
        ensures pins { PinsStay E.pins self.old self.new }
    {
        if self.used(t)? {
            return self.answers(number, Answer::Used);
        }
        if !self.coord_up(coord) {
            return self.answers(number, Answer::Down(Node::Coord(coord)));
        }
        self.sessions.begin(t, Node::Coord(coord))?;
        let did = self.coord_does(home, coord, CoordCall::Begin(t))?;
        self.tells_of_coord(number, did)
    }

    /// A client begins a transaction at a member, which decides it alone.
    pub(crate) fn begin_local(
        &mut self,
        number: u32,
        t: Txn,
        member: u8,
    ) -> Result<Items, WorldFault>
        requires in_head { (1 ≤ member) × (member ≤ length self.old.cluster.members.items) }
        ensures count { IsErrOf result WorldFault.Count ↔ IsOneMore self.old.sessions t }
        ensures items { (s : Federation) → RepresentsWorld E.takes E.stands_for self.old s → IfOk result (λ items. items ≡ numbered number (step_line s (event.Local t member)).items) }
        ensures stands { (s : Federation) → RepresentsWorld E.takes E.stands_for self.old s → OnOk result (RepresentsWorld E.takes E.stands_for self.new (step_line s (event.Local t member)).state) }
        ensures held { (home : HomeView) → AreHeld home self.old → OnOk result (AreHeld home self.new) }
        ensures ended { IfErr result IsOfNoFile }
        ensures nodes { self.new.cluster ≡ self.old.cluster }
    {
        if self.used(t)? {
            return self.answers(number, Answer::Used);
        }
        if !self.member_up(member) {
            return self.answers(number, Answer::Down(Node::Member(member)));
        }
        self.sessions.begin(t, Node::Member(member))?;
        self.answers(number, Answer::Begun)
    }

    /// A client asks for an operation.
    pub(crate) fn operate(
        &mut self,
        number: u32,
        t: Txn,
        member: u8,
        op: Op,
    ) -> Result<Items, WorldFault>
        requires in_head { (1 ≤ member) × (member ≤ length self.old.cluster.members.items) }
        requires stands { (s : Federation) × RepresentsWorld E.takes E.stands_for self.old s × IsReady s }
        ensures items { (s : Federation) → RepresentsWorld E.takes E.stands_for self.old s → IsReady s → IfOk result (λ items. items ≡ numbered number (operate s t member op).items) }
        ensures stands { (s : Federation) → RepresentsWorld E.takes E.stands_for self.old s → IsReady s → OnOk result (RepresentsWorld E.takes E.stands_for self.new (operate s t member op).state) }
        ensures held { (home : HomeView) → AreHeld home self.old → OnOk result (AreHeld home self.new) }
        ensures memory { IfErr result (λ fault. fault ≡ WorldFault.Memory) }
        ensures pins { PinsStay E.pins self.old self.new }
    {
        match self.sessions.may_act(t, Some(member)) {
            Ok(_) => self.operated(number, t, member, op),
            Err(fault) => self.answers(number, refusal(fault)),
        }
    }

    /// An operation of a transaction whose client may act: a reply is entered in its session.
    fn operated(&mut self, number: u32, t: Txn, member: u8, op: Op) -> Result<Items, WorldFault>
        requires in_head { (1 ≤ member) × (member ≤ length self.old.cluster.members.items) }
        requires stands { (s : Federation) × RepresentsWorld E.takes E.stands_for self.old s × IsReady s × ((session : Session) × (leave_to_visit (look s.sessions t) member ≡ Grants session)) }
        ensures items { (s : Federation) → RepresentsWorld E.takes E.stands_for self.old s → IsReady s → (session : Session) → leave_to_visit (look s.sessions t) member ≡ Grants session → IfOk result (λ items. items ≡ numbered number (operate s t member op).items) }
        ensures stands { (s : Federation) → RepresentsWorld E.takes E.stands_for self.old s → IsReady s → (session : Session) → leave_to_visit (look s.sessions t) member ≡ Grants session → OnOk result (RepresentsWorld E.takes E.stands_for self.new (operate s t member op).state) }
        ensures held { (home : HomeView) → AreHeld home self.old → OnOk result (AreHeld home self.new) }
        ensures memory { IfErr result (λ fault. fault ≡ WorldFault.Memory) }
        ensures pins { PinsStay E.pins self.old self.new }
    {
        if !self.member_up(member) {
            return self.answers(number, Answer::Down(Node::Member(member)));
        }
        let answer = self.op_at(t, member, &op)?;
        self.enter(t, member, op, &answer)?;
        self.answers(number, answer)
    }

    /// An operation of a transaction whose client may act, at a member that is up.
    fn op_at(&mut self, t: Txn, member: u8, op: &Op) -> Result<Answer, WorldFault>
        requires in_head { (1 ≤ member) × (member ≤ length self.old.cluster.members.items) }
        requires stands { (s : Federation) × (session : Session) × RepresentsWorld E.takes E.stands_for self.old s × IsReady s × ((s.member member).up ≡ true) × (leave_to_visit (look s.sessions t) member ≡ Grants session) }
        ensures memory { IfErr result (λ fault. fault ≡ world.Memory) }
        ensures answer { (s : Federation) → RepresentsWorld E.takes E.stands_for self.old s → IsReady s → (session : Session) → leave_to_visit (look s.sessions t) member ≡ Grants session →
            IfOk result (λ a. a ≡ (member_op (s.member member) t (count_at session.told member) op.now).answer) }
        ensures stands { (s : Federation) → RepresentsWorld E.takes E.stands_for self.old s → IsReady s → (session : Session) → leave_to_visit (look s.sessions t) member ≡ Grants session →
            OnOk result (RepresentsWorld E.takes E.stands_for self.new (with_member s member (member_op (s.member member) t (count_at session.told member) op.now).state)) }
        ensures sessions { self.new.sessions ≡ self.old.sessions }
        ensures held { (home : HomeView) → AreHeld home self.old → AreHeld home self.new }
        ensures pins { PinsStay E.pins self.old self.new }
    {
        let carried = self.sessions.carried(t, member);
        self.cluster.op(member, t, carried, op)
    }

    /// A reply is entered in the session of its transaction.
    fn enter(&mut self, t: Txn, member: u8, op: Op, answer: &Answer) -> Result<(), WorldFault>
        requires in_head { (1 ≤ member) × (member ≤ most_members) }
        requires begun { holds self.old.sessions.sessions t ≡ true }
        requires count { (reply : Reply) → reply_in answer.now ≡ Some reply → carried_in self.old.sessions t member < most_operations }
        ensures memory { IfErr result (λ fault. fault ≡ world.Memory) }
        ensures stands { (s : Federation) → RepresentsWorld E.takes E.stands_for self.old s → (session : Session) → look s.sessions t ≡ Some session →
            OnOk result (RepresentsWorld E.takes E.stands_for self.new (entered s t session member op (reply_in answer.now))) }
        ensures held { (home : HomeView) → AreHeld home self.old → AreHeld home self.new }
        ensures nodes { self.new.cluster ≡ self.old.cluster }
    {
        match reply_in(self.alloc, answer)? {
            Some(reply) => Ok(self.sessions.answered(t, Site { member, op }, reply)?),
            None => Ok(()),
        }
    }

    /// The session is marked asked, where its deciding node answered.
    fn mark_asked(&mut self, t: Txn, answered: bool)
        requires begun { holds self.old.sessions.sessions t ≡ true }
        ensures stands { (s : Federation) → RepresentsWorld E.takes E.stands_for self.old s → (session : Session) → look s.sessions t ≡ Some session →
            RepresentsWorld E.takes E.stands_for self.new (marked_asked s t session answered) }
        ensures held { (home : HomeView) → AreHeld home self.old → AreHeld home self.new }
        ensures nodes { self.new.cluster ≡ self.old.cluster }
    {
        if answered {
            self.sessions.asked(t);
        }
    }

    /// A client asks the deciding node for the end of a transaction.
    pub(crate) fn end<H: Home>(
        &mut self,
        home: &mut H,
        number: u32,
        t: Txn,
        ending: Ending,
    ) -> Result<Items, WorldFault>
        requires held { AreHeld (H.seen home.old) self.old }
        requires stands { (s : Federation) × RepresentsWorld E.takes E.stands_for self.old s × IsReady s }
        ensures count { IsErrOf result WorldFault.Count → ⊥ }
        ensures answered { (s : Federation) → RepresentsWorld E.takes E.stands_for self.old s → IsReady s →
            AnswersEvent E.takes E.stands_for number (λ z. ended z t ending) s self.new (H.seen home.old) (H.seen home.new) result }
        ensures rest { OnlyOwnFilesChange (length self.old.cluster.members.items) (length self.old.cluster.coords.items) (H.seen home.old) (H.seen home.new) }
        ensures pins { PinsStay E.pins self.old self.new }
    {
        match self.sessions.may_act(t, None) {
            Ok(Node::Coord(coord)) => self.end_at_coord(home, number, t, coord, ending),
            Ok(Node::Member(member)) => self.end_at_member(home, number, t, member, ending),
            Err(fault) => self.answers(number, refusal(fault)),
        }
    }

    /// A coordinator is asked for the end. The session is marked asked where it was not stopped.
    fn end_at_coord<H: Home>(
        &mut self,
        home: &mut H,
        number: u32,
        t: Txn,
        coord: u8,
        ending: Ending,
    ) -> Result<Items, WorldFault>
        requires in_head { (1 ≤ coord) × (coord ≤ length self.old.cluster.coords.items) }
        requires held { AreHeld (H.seen home.old) self.old }
        requires stands { (s : Federation) × (session : Session) × RepresentsWorld E.takes E.stands_for self.old s × (look s.sessions t ≡ Some session) }
        ensures count { IsErrOf result WorldFault.Count → ⊥ }
        ensures answered { (s : Federation) → RepresentsWorld E.takes E.stands_for self.old s → (session : Session) → look s.sessions t ≡ Some session →
            AnswersEvent E.takes E.stands_for number (λ z. coord_answers z t session coord (z.coord coord).up (coord_does coord (coord_call ending t (parts_of session.told)) (z.coord coord))) s self.new (H.seen home.old) (H.seen home.new) result }
        ensures rest { OnlyOwnFilesChange (length self.old.cluster.members.items) (length self.old.cluster.coords.items) (H.seen home.old) (H.seen home.new) }
        ensures pins { PinsStay E.pins self.old self.new }
    {
        if !self.coord_up(coord) {
            return self.answers(number, Answer::Down(Node::Coord(coord)));
        }
        let parts = self.sessions.parts(t)?;
        let did = self.coord_does(home, coord, coord_call(ending, t, parts))?;
        self.mark_asked(t, !is_stopped(&did.answer));
        self.tells_of_coord(number, did)
    }

    /// The member of a local transaction is asked for the end. The session is marked asked where the commit is not held.
    fn end_at_member<H: Home>(
        &mut self,
        home: &mut H,
        number: u32,
        t: Txn,
        member: u8,
        ending: Ending,
    ) -> Result<Items, WorldFault>
        requires in_head { (1 ≤ member) × (member ≤ length self.old.cluster.members.items) }
        requires held { AreHeld (H.seen home.old) self.old }
        requires stands { (s : Federation) × (session : Session) × RepresentsWorld E.takes E.stands_for self.old s × IsReady s × (look s.sessions t ≡ Some session) × (session.asked ≡ false) }
        ensures count { IsErrOf result WorldFault.Count → ⊥ }
        ensures answered { (s : Federation) → RepresentsWorld E.takes E.stands_for self.old s → (session : Session) → look s.sessions t ≡ Some session →
            AnswersEvent E.takes E.stands_for number (λ z. local_answers z t session member (z.member member).up (member_does member (member_call ending t (count_at session.told member)) (z.member member))) s self.new (H.seen home.old) (H.seen home.new) result }
        ensures rest { OnlyOwnFilesChange (length self.old.cluster.members.items) (length self.old.cluster.coords.items) (H.seen home.old) (H.seen home.new) }
        ensures pins { PinsStay E.pins self.old self.new }
    {
        if !self.member_up(member) {
            return self.answers(number, Answer::Down(Node::Member(member)));
        }
        let carried = self.sessions.carried(t, member);
        let did = self.member_does(home, member, member_call(ending, t, carried))?;
        self.mark_asked(t, !is_held(&did.answer));
        self.tells_of_member(number, did)
    }
}
