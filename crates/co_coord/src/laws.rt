//! What carrying a plan out comes to.
ghost use Rattle.std.specs.Prelude.{ℕ, Bool, List, ◌≡◌};
ghost use Rattle.co_base.specs.declared.part.Part.{Part};
ghost use Rattle.co_message.specs.declared.message.Message.{Message};
ghost use Rattle.co_state.specs.Table.{look};
ghost use Rattle.co_plain.specs.declared.coord_state.CoordState.{CoordState};
ghost use Rattle.co_plain.specs.Coordinator.{coord_begin, coord_commit, coord_abort, coord_deliver, coord_timer, coord_resend};
ghost use Rattle.co_coord.specs.Plans.{begin_plan, commit_plan, abort_plan, deliver_plan, timer_plan, resend_plan, carried_out, txn_of};

/// Each event of a coordinator is its plan, carried out: its log write first, and then its change of the table.
pub fn plans_are_steps()
    ensures begin { (c t : ℕ) (x : CoordState) → coord_begin x t ≡ carried_out c x t begin_plan }
    ensures commit { (c t : ℕ) (x : CoordState) (parts : List Part) → coord_commit c x t parts ≡ carried_out c x t (commit_plan c t parts (look x.table t)) }
    ensures abort { (c t : ℕ) (x : CoordState) (parts : List Part) → coord_abort c x t parts ≡ carried_out c x t (abort_plan c t parts (look x.table t)) }
    ensures deliver { (c : ℕ) (x : CoordState) (m : Message) → coord_deliver c x m ≡ carried_out c x (txn_of m) (deliver_plan c m (look x.table (txn_of m))) }
    ensures timer { (c t : ℕ) (x : CoordState) → coord_timer c x t ≡ carried_out c x t (timer_plan c t (look x.table t)) }
    ensures resend { (c t : ℕ) (x : CoordState) → coord_resend c x t ≡ carried_out c x t (resend_plan c t (look x.table t)) }
{}
