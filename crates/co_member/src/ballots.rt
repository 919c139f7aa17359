//! The plan of a vote, by the ballot on it.
ghost use Rattle.std.specs.Prelude.{◌≡◌, false, Some, IfOk, IsTrue};
ghost use Rattle.co_base.specs.declared.head.Kind.{Kind};
ghost use Rattle.co_message.specs.declared.message.Message.TheVariants as message;
ghost use Rattle.co_plain.specs.Member.{prepare_record, coord_of};
ghost use Rattle.co_plain.specs.MemberStep.{standing_of};
ghost use Rattle.co_plain.specs.declared.member_state.MemberState.{MemberState};
ghost use Rattle.co_plain.specs.declared.standing.Standing.TheVariants.{IsActive};
ghost use Rattle.co_state.specs.EngineState.{sets_at, is_undecided};
ghost use Rattle.co_state.specs.Table.{holds, look};
ghost use Rattle.co_member.specs.Plans.{drops, plan_of, ballot_plan, prepare_plan, asked_plan, again_plan};
ghost use Rattle.co_member.specs.Standing.{RepresentsRunning};
ghost use Rattle.co_member.specs.declared.plan.Course.TheVariants.{Carries};

use crate::plan::{Course, drops, says, sends};
use crate::running::Running;
use co_base::Txn;
use co_engine::Engine;
use co_message::{Answer, Message};
use co_plain::{AskedMark, Standing};
use co_record::LentPrepare;
use co_vote::Ballot;
use std::alloc::AllocError;

/// The vote no on a transaction, which is dropped.
fn refuses(member: u8, t: Txn, coord: u8, answer: Answer) -> Course
    ensures { result ≡ Carries (drops answer (Some (message.Vote t member coord false))) }
{
    let vote = Message::Vote {
        txn: t,
        member,
        coord,
        yes: false,
    };
    Course::Carries(drops(answer, Some(vote)))
}

impl<E: Engine> Running<E> {
    /// The ballot on a transaction that has not voted, which this coordinator asked about with so many operations.
    fn ballot_plan(&self, member: u8, t: Txn, coord: u8, count: u16) -> Result<Course, AllocError>
        ensures { (kind : Kind) (x : MemberState) → RepresentsRunning E.stands_for kind self.now x → holds x.engine.voted t ≡ false →
            IfOk result (λ course. plan_of course member x t ≡ ballot_plan member x t coord count) }
    {
        match self.undecided.ballot(t, count) {
            Ballot::NoLost => {
                let answer = Answer::NoLost {
                    kept: self.undecided.kept(t),
                    carried: count,
                };
                Ok(refuses(member, t, coord, answer))
            }
            Ballot::NoStale(key) => match key.copy() {
                Ok(key) => Ok(refuses(member, t, coord, Answer::NoStale(key))),
                Err(fault) => Err(fault),
            },
            Ballot::Held(u) => Ok(Course::Carries(says(Answer::Held(u)))),
            Ballot::Yes => Ok(Course::Grants { coord, count }),
        }
    }

    /// The record of a vote, lent from the sets of an undecided transaction.
    pub(crate) fn vote_record(&self, t: Txn, coord: u8, count: u16) -> LentPrepare<'_>
        ensures { (kind : Kind) (x : MemberState) → RepresentsRunning E.stands_for kind self.now x → IsTrue (is_undecided x.engine t) → result ≡ prepare_record t coord count (sets_at x.engine t) }
    {
        let sets = self.undecided.sets(t);
        LentPrepare::new(t, coord, count, sets.reads(), sets.writes())
    }

    /// The coordinator that a voted transaction waits for; 0 of another one.
    pub(crate) fn coord_of(&self, t: Txn) -> u8
        ensures { (kind : Kind) (x : MemberState) → RepresentsRunning E.stands_for kind self.now x → result ≡ coord_of x t }
    {
        self.undecided.coord_of(t).unwrap_or(0)
    }

    /// A prepare comes: the ballot on who has not voted, and a voted one says yes again.
    pub(crate) fn prepare_plan(
        &self,
        member: u8,
        t: Txn,
        coord: u8,
        count: u16,
    ) -> Result<Course, AllocError>
        ensures { (kind : Kind) (x : MemberState) → RepresentsRunning E.stands_for kind self.now x →
            IfOk result (λ course. plan_of course member x t ≡ prepare_plan member x t coord count (standing_of x t)) }
    {
        match self.standing(t) {
            Standing::IsActive | Standing::IsAbsent => self.ballot_plan(member, t, coord, count),
            Standing::IsVoted => Ok(Course::Carries(sends(
                Answer::Voted,
                Message::Vote {
                    txn: t,
                    member,
                    coord: self.coord_of(t),
                    yes: true,
                },
            ))),
            Standing::IsInstalled => Ok(Course::Carries(says(Answer::Already))),
        }
    }

    /// A vote is tried again on an active transaction, where it was asked for.
    fn asked_plan(&self, member: u8, t: Txn) -> Result<Course, AllocError>
        ensures { (kind : Kind) (x : MemberState) → RepresentsRunning E.stands_for kind self.now x → standing_of x t ≡ IsActive →
            IfOk result (λ course. plan_of course member x t ≡ asked_plan member x t (look x.asked t)) }
    {
        match self.undecided.mark_of(t) {
            None => Ok(Course::Carries(says(Answer::Unasked))),
            Some(AskedMark { coord, count }) => self.ballot_plan(member, t, coord, count),
        }
    }

    /// A vote is tried again.
    pub(crate) fn again_plan(&self, member: u8, t: Txn) -> Result<Course, AllocError>
        ensures { (kind : Kind) (x : MemberState) → RepresentsRunning E.stands_for kind self.now x →
            IfOk result (λ course. plan_of course member x t ≡ again_plan member x t (standing_of x t)) }
    {
        match self.standing(t) {
            Standing::IsActive => self.asked_plan(member, t),
            Standing::IsVoted => Ok(Course::Carries(says(Answer::Voted))),
            Standing::IsInstalled => Ok(Course::Carries(says(Answer::Already))),
            Standing::IsAbsent => Ok(Course::Carries(says(Answer::Absent))),
        }
    }
}
