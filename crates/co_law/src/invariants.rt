//! The invariants, in one list: opened logs have them, and each event and each move keeps them.
ghost use Rattle.std.specs.Prelude.{ℕ, List};
ghost use Rattle.co_base.specs.declared.head.Kind.{Kind};
ghost use Rattle.co_plain.specs.AllInvariants.{AllInvariants};
ghost use Rattle.co_plain.specs.declared.happening.Happening.{Happening};
ghost use Rattle.co_plain.specs.Federation.{Federation};
ghost use Rattle.co_plain.specs.Moves.{Move, GuardsHold, all_effects};
ghost use Rattle.co_plain.specs.Opening.{Found, opened};
ghost use Rattle.co_plain.specs.Premises.{AreOpenable, AreTrueVerdicts, IsTrueVerdict};
ghost use Rattle.co_plain.specs.Runs.{run};
ghost use Rattle.co_plain.specs.Step.{step};
ghost use Rattle.co_law_moves.specs.OwnFacts.{KeptByEach};

/// A federation over logs that may be opened has all invariants.
pub fn opened_logs_have_all()
    ensures { (kinds : List Kind) (coords : ℕ) (found_member found_coord : ℕ → Found) →
        AreOpenable kinds coords found_member found_coord → AllInvariants (opened kinds coords found_member found_coord) }
{}

/// Each event keeps all invariants, from any state that has them, reached by a run or not, and so does the taking away of all
/// armed stops; a verdict that is handed has to be true there. So the invariants are inductive as they stand: no fact that is
/// not among them is needed.
pub fn each_event_keeps_all()
    ensures { (s : Federation) (h : Happening) → AllInvariants s → IsTrueVerdict s h → AllInvariants (step s h).state }
{}

/// Every list of moves keeps them, from any state that has them, where each guard holds where its move is made.
pub fn moves()
    ensures { (s : Federation) (moves : List Move) → AllInvariants s → GuardsHold moves s → AllInvariants (all_effects moves s) }
{}

/// So every state of a run has all invariants.
pub fn all_invariants()
    ensures { (kinds : List Kind) (coords : ℕ) (found_member found_coord : ℕ → Found) (hs : List Happening) →
        AreOpenable kinds coords found_member found_coord →
        AreTrueVerdicts hs (opened kinds coords found_member found_coord) →
        AllInvariants (run hs (opened kinds coords found_member found_coord)) }
{}

/// Among them is what each node keeps by itself.
pub fn all_have_what_each_keeps()
    ensures { (s : Federation) → AllInvariants s → KeptByEach s }
{}
