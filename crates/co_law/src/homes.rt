//! Messages, and the coordinators that they name.
ghost use Rattle.std.specs.Prelude.{ℕ, List};
ghost use Rattle.co_base.specs.declared.head.Kind.{Kind};
ghost use Rattle.co_plain.specs.declared.happening.Happening.{Happening};
ghost use Rattle.co_plain.specs.AllInvariants.{AllInvariants};
ghost use Rattle.co_plain.specs.Federation.{Federation};
ghost use Rattle.co_plain.specs.Opening.{Found, opened};
ghost use Rattle.co_plain.specs.Runs.{run};
ghost use Rattle.co_plain.specs.Step.{step};
ghost use Rattle.co_plain.specs.Premises.{AreOpenable, AreTrueVerdicts, IsTrueVerdict};
ghost use Rattle.co_law.specs.MessageHomes.{MessagesNameHomes};

/// In every state of a run each message that was sent, of whatever kind, names the coordinator of its transaction: the one
/// at which it was begun, for which an opened log has it voted, or whose opened file has its commit without end. The one
/// exception is an acknowledgement that names no coordinator: of a verdict that was handed of an installed transaction.
pub fn messages_name_homes()
    ensures { (kinds : List Kind) (coords : ℕ) (found_member found_coord : ℕ → Found) (hs : List Happening) →
        AreOpenable kinds coords found_member found_coord →
        AreTrueVerdicts hs (opened kinds coords found_member found_coord) →
        MessagesNameHomes (run hs (opened kinds coords found_member found_coord)) }
{}

/// Each event keeps this, from any state that has it and all invariants.
pub fn each_event_keeps_homes()
    ensures { (s : Federation) (h : Happening) →
        AllInvariants s → MessagesNameHomes s → IsTrueVerdict s h → MessagesNameHomes (step s h).state }
{}
