//! How a member goes up: at first, and after a crash or a stop.
ghost use Rattle.std.specs.Prelude.{◌≡◌, ℕ, true, None, IsTrue, IfOk, IsOk};
ghost use Rattle.co_base.specs.declared.node.Node.{Node};
ghost use Rattle.co_log.specs.LogView.{IsHeld};
ghost use Rattle.co_log.specs.Others.{OtherNodesStay};
ghost use Rattle.co_node.specs.NodeLog.{RepresentsLog};
ghost use Rattle.co_node.specs.Rereading.{IsReread};
ghost use Rattle.co_pairs.specs.Free.{are_free};
ghost use Rattle.co_plain.specs.MemberLog.{member_restart};
ghost use Rattle.co_plain.specs.MemberStep.{member_from};
ghost use Rattle.co_plain.specs.MemberView.{numbers_from, recovered_view};
ghost use Rattle.co_plain.specs.Opening.{member_with};
ghost use Rattle.co_plain.specs.declared.log_state.LogState.{LogState};
ghost use Rattle.co_plain.specs.declared.member_state.MemberState.{MemberState};
ghost use Rattle.co_plain.specs.declared.member_view.MemberView.{MemberView};
ghost use Rattle.co_recover.specs.Recovered.{past_of_member};
ghost use Rattle.co_member.specs.Attaching.{IsReadable, IsPastOf, read_by};
ghost use Rattle.co_member.specs.Pins.{PinsStay, pins_of};
ghost use Rattle.co_member.specs.Standing.{is_up, RepresentsMember, RepresentsRunning, HasDone, IsSame};
ghost use Rattle.co_state.specs.Table.{no_entries};
ghost use Rattle.co_undecided.specs.Pins.{pins_in};

use crate::member::Member;
use crate::running::Running;
use crate::step::MemberStep;
use co_base::{Kind, Marks, Txns};
use co_engine::Engine;
use co_log::{Log, NodeFault};
use co_message::Answer;
use co_outside::Home;
use co_recover::{MemberPast, RecoverFault, recover_member};
use co_state::Table;
use co_undecided::Undecideds;
use std::alloc::{AllocError, Global};

/// The set of these numbers.
fn numbers_from(alloc: Global, numbers: Txns) -> Result<Table<()>, AllocError>
    ensures { IfOk result (λ table. table ≡ numbers_from numbers) }
{
    let mut table = Table::new(alloc);
    for t in numbers.as_slice() {
        table.insert(*t, ())?;
    }
    Ok(table)
}

/// What the records of a log tell, which are allowed where they stand.
pub(crate) fn recovered(alloc: Global, log: &Log, coords: u8) -> Result<MemberPast, AllocError>
    requires { (owner : Node) × (l : LogState) × RepresentsLog owner log.now l × IsReadable coords l }
    ensures { (owner : Node) (l : LogState) → RepresentsLog owner log.now l → IfOk result (λ past. past ≡ past_of_member (recovered_view l.stable)) }
{
    match recover_member(alloc, log.views(), coords) {
        Ok(past) => Ok(past),
        Err(RecoverFault::Memory) => Err(AllocError),
        Err(RecoverFault::Inconsistent { at: _ }) => unreachable!(),
    }
}

impl<E: Engine> Running<E> {
    /// What a member of this kind has in memory that its log tells. No transaction is active.
    fn restored(alloc: Global, kind: Kind, past: MemberPast) -> Result<Running<E>, AllocError>
        requires takes { E.takes kind }
        requires free { IsTrue (are_free past.voted) }
        ensures stands { (l : LogState) (v : MemberView) → past ≡ past_of_member v → IfOk result (λ r. RepresentsRunning E.stands_for kind r (member_with kind l v)) }
        ensures pins { IfOk result (λ r. pins_in E.pins r.undecided ≡ no_entries) }
    {
        let MemberPast {
            rows,
            voted,
            committed,
        } = past;
        let committed = numbers_from(alloc, committed)?;
        let undecided = Undecideds::restore(alloc, kind, rows, voted.as_slice())?;
        Ok(Running {
            undecided,
            committed,
        })
    }
}

impl<E: Engine + Drop> Member<E> {
    /// A member of this number and kind, of a federation of so many coordinators, on its log, which tells this past.
    pub fn attach(
        alloc: Global,
        number: u8,
        kind: Kind,
        coords: u8,
        log: Log,
        past: MemberPast,
    ) -> Result<Member<E>, AllocError>
        requires takes { E.takes kind }
        requires stands { (l : LogState) × IsPastOf number log past l × IsReadable coords l }
        ensures opened { (l : LogState) → IsPastOf number log past l → IfOk result (λ m. RepresentsMember E.stands_for m (member_with kind l (recovered_view l.stable))) }
        ensures made { IfOk result (λ m. (m.number ≡ number) × (m.kind ≡ kind) × (m.coords ≡ coords) × (m.log ≡ log)) }
        ensures pins { IfOk result (λ m. pins_of E.pins m ≡ no_entries) }
    {
        match Running::restored(alloc, kind, past) {
            Ok(running) => Ok(Member {
                alloc,
                number,
                kind,
                coords,
                log,
                running: Some(running),
            }),
            Err(fault) => {
                drop(log);
                Err(fault)
            }
        }
    }

    /// What its log tells, as what it has in memory.
    fn found(&self) -> Result<Running<E>, AllocError>
        requires takes { E.takes self.now.kind }
        requires stands { (owner : Node) × (l : LogState) × RepresentsLog owner self.now.log l × IsReadable self.now.coords l }
        ensures stands { (owner : Node) (l after : LogState) → RepresentsLog owner self.now.log l →
            IfOk result (λ r. RepresentsRunning E.stands_for self.now.kind r (member_with self.now.kind after (recovered_view l.stable))) }
        ensures pins { IfOk result (λ r. pins_in E.pins r.undecided ≡ no_entries) }
    {
        let past = recovered(self.alloc, &self.log, self.coords)?;
        Running::restored(self.alloc, self.kind, past)
    }

    /// Reads the log of a member that is down again, and goes up with what it tells.
    fn go_up<H: Home>(&mut self, home: &mut H) -> Result<MemberStep, NodeFault>
        requires down { self.old.running ≡ None }
        requires held { IsHeld (H.seen home.old) self.old.log }
        requires takes { E.takes self.old.kind }
        requires stands { (x : MemberState) × RepresentsMember E.stands_for self.old x × IsReadable self.old.coords x.log }
        ensures did { (x : MemberState) → RepresentsMember E.stands_for self.old x → IfOk result (λ d. HasDone E.stands_for (member_restart x) d self.new) }
        ensures reread { IsReread H.gives H.seen self.old.log home.old home.new (read_by result) }
        ensures log { self.new.log ≡ self.old.log }
        ensures held { IsHeld (H.seen home.new) self.new.log }
        ensures files { ((H.seen home.new).file self.old.log.current.spot ≡ (H.seen home.old).file self.old.log.current.spot) × ((H.seen home.new).file self.old.log.spare.spot ≡ (H.seen home.old).file self.old.log.spare.spot) }
        ensures rest { OtherNodesStay self.old.log.node (H.seen home.old) (H.seen home.new) }
        ensures same { IsSame self.old self.new }
        ensures pins { PinsStay E.pins self.old self.new }
    {
        co_node::reread(&mut self.log, home)?;
        let running = self.found()?;
        self.has(Some(running));
        Ok(MemberStep {
            answer: Answer::Up,
            sent: None,
            marks: Marks::new(self.alloc),
        })
    }

    /// A member that is down reads its log again and goes up with what it tells; one that is up stays.
    ///
    /// `Device` comes where the directory failed, and only there; `Differs` exactly where a file is not what is kept of it, and never over a
    /// directory that tells it; `Memory` where there was none.
    pub fn restart<H: Home>(&mut self, home: &mut H) -> Result<MemberStep, NodeFault>
        requires held { IsHeld (H.seen home.old) self.old.log }
        requires takes { E.takes self.old.kind }
        requires stands { (x : MemberState) × RepresentsMember E.stands_for self.old x × IsReadable self.old.coords x.log }
        ensures did { (x : MemberState) → RepresentsMember E.stands_for self.old x → IfOk result (λ d. HasDone E.stands_for (member_restart x) d self.new) }
        ensures stays { is_up self.old ≡ true → IsOk result × (home.new ≡ home.old) }
        ensures reread { self.old.running ≡ None → IsReread H.gives H.seen self.old.log home.old home.new (read_by result) }
        ensures log { self.new.log ≡ self.old.log }
        ensures held { IsHeld (H.seen home.new) self.new.log }
        ensures files { ((H.seen home.new).file self.old.log.current.spot ≡ (H.seen home.old).file self.old.log.current.spot) × ((H.seen home.new).file self.old.log.spare.spot ≡ (H.seen home.old).file self.old.log.spare.spot) }
        ensures rest { OtherNodesStay self.old.log.node (H.seen home.old) (H.seen home.new) }
        ensures same { IsSame self.old self.new }
        ensures pins { PinsStay E.pins self.old self.new }
    {
        if self.running.is_some() {
            return Ok(MemberStep {
                answer: Answer::Running,
                sent: None,
                marks: Marks::new(self.alloc),
            });
        }
        self.go_up(home)
    }
}
