//! The plans of local transactions, which a member decides alone.
ghost use Rattle.std.specs.Prelude.{◌≡◌, ℕ, false, IfOk};
ghost use Rattle.co_base.specs.declared.head.Kind.{Kind};
ghost use Rattle.co_plain.specs.declared.member_state.MemberState.{MemberState};
ghost use Rattle.co_state.specs.Changes.{sets_of};
ghost use Rattle.co_state.specs.EngineState.{operations_of};
ghost use Rattle.co_state.specs.Table.{holds};
ghost use Rattle.co_state.specs.VotingRule.{vote_of, kept_count};
ghost use Rattle.co_member.specs.Plans.{plan_of, local_vote_plan, local_commit_plan, local_abort_plan, IsSingleIn};
ghost use Rattle.co_member.specs.Standing.{RepresentsRunning};

use crate::plan::{Course, Plan, drops, says};
use crate::running::Running;
use co_base::Txn;
use co_engine::Engine;
use co_message::{Answer, Cause};
use co_plain::Standing;
use co_vote::Ballot;
use std::alloc::AllocError;

/// The coordinator number that stands in the prepare record of a local transaction.
pub(crate) const LOCAL_COORD: u8 = 1;

/// The client asks for the abort of a local transaction.
pub(crate) fn local_abort_plan(standing: Standing) -> Plan
    ensures { result ≡ local_abort_plan standing }
{
    match standing {
        Standing::IsActive => drops(Answer::Aborted(Cause::Client), None),
        Standing::IsVoted | Standing::IsInstalled | Standing::IsAbsent => says(Answer::Absent),
    }
}

impl<E: Engine> Running<E> {
    /// The ballot on a local transaction that has not voted.
    fn local_vote_plan(&self, t: Txn, carried: u16) -> Result<Course, AllocError>
        ensures plan { (kind : Kind) (m : ℕ) (x : MemberState) → RepresentsRunning E.stands_for kind self.now x → holds x.engine.voted t ≡ false →
            IfOk result (λ course. plan_of course m x t ≡ local_vote_plan t carried (kept_count x.engine t) (sets_of (operations_of x.engine t)) (vote_of x.engine t carried)) }
        ensures single { IfOk result IsSingleIn }
    {
        match self.undecided.ballot(t, carried) {
            Ballot::NoLost => {
                let answer = Answer::NoLost {
                    kept: self.undecided.kept(t),
                    carried,
                };
                Ok(Course::Carries(drops(answer, None)))
            }
            Ballot::NoStale(key) => match key.copy() {
                Ok(key) => Ok(Course::Carries(drops(Answer::NoStale(key), None))),
                Err(fault) => Err(fault),
            },
            Ballot::Held(u) => Ok(Course::Carries(says(Answer::Held(u)))),
            Ballot::Yes => Ok(Course::GrantsLocal { count: carried }),
        }
    }

    /// The client asks for the commit of a local transaction, and carries how many operations it saw answered. One without operations is nowhere.
    pub(crate) fn local_commit_plan(&self, t: Txn, carried: u16) -> Result<Course, AllocError>
        ensures plan { (kind : Kind) (m : ℕ) (x : MemberState) → RepresentsRunning E.stands_for kind self.now x → holds x.engine.voted t ≡ false →
            IfOk result (λ course. plan_of course m x t ≡ local_commit_plan x t carried) }
        ensures single { IfOk result IsSingleIn }
    {
        if carried == 0 {
            return Ok(Course::Carries(says(Answer::Absent)));
        }
        self.local_vote_plan(t, carried)
    }
}
