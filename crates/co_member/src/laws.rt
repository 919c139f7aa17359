//! What carrying a plan out comes to.
ghost use Rattle.std.specs.Prelude.{ℕ, ◌≡◌};
ghost use Rattle.co_message.specs.declared.message.Message.{Message};
ghost use Rattle.co_plain.specs.LocalCommit.{member_local_commit, member_local_abort};
ghost use Rattle.co_plain.specs.Member.{member_deliver, member_vote, member_timer, member_ask, coord_of};
ghost use Rattle.co_plain.specs.MemberStep.{standing_of};
ghost use Rattle.co_plain.specs.declared.member_state.MemberState.{MemberState};
ghost use Rattle.co_member.specs.Plans.{deliver_plan, marked, txn_of, again_plan, timer_plan, ask_plan, local_commit_plan, local_abort_plan, carried_out};

/// Each event of a member is its plan, carried out: its log write first, and then its change of the transaction. A prepare of an active transaction
/// is marked before.
pub fn plans_are_steps()
    ensures deliver { (m : ℕ) (x : MemberState) (message : Message) → member_deliver m x message ≡ carried_out m (marked x message) (txn_of message) (deliver_plan m x message) }
    ensures vote { (m t : ℕ) (x : MemberState) → member_vote m x t ≡ carried_out m x t (again_plan m x t (standing_of x t)) }
    ensures timer { (m t : ℕ) (x : MemberState) → member_timer x t ≡ carried_out m x t (timer_plan (standing_of x t)) }
    ensures ask { (m t : ℕ) (x : MemberState) → member_ask m x t ≡ carried_out m x t (ask_plan m t (coord_of x t) (standing_of x t)) }
    ensures local_commit { (m t carried : ℕ) (x : MemberState) → member_local_commit m x t carried ≡ carried_out m x t (local_commit_plan x t carried) }
    ensures local_abort { (m t : ℕ) (x : MemberState) → member_local_abort x t ≡ carried_out m x t (local_abort_plan (standing_of x t)) }
{}
