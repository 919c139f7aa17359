//! What another member tells is true.
ghost use Rattle.std.specs.Prelude.{ℕ, Bool};
ghost use Rattle.co_base.specs.declared.leaves.Leaves.TheVariants.{New, Old};
ghost use Rattle.co_plain.specs.AllInvariants.{AllInvariants};
ghost use Rattle.co_plain.specs.Decisions.{BelongsTo};
ghost use Rattle.co_plain.specs.Federation.{Federation};
ghost use Rattle.co_plain.specs.Premises.{AreTrueVerdicts, IsTrueVerdict};
ghost use Rattle.co_plain.specs.declared.happening.Happening.TheVariants as happening;
ghost use Rattle.co_law_coop.specs.Blocking.{AwaitsLastYes, GoesEitherWay, stopped_with};
ghost use Rattle.co_law_coop.specs.Consulting.{consultation};
ghost use Rattle.co_law_node.specs.WholeNodes.{AreWhole};

/// A verdict that another member gives is true where it is handed: a commit is of a settled transaction, and an abort of one that is
/// presumed aborted. So it is from any state with all invariants and whole nodes, as every state of a run over sound logs is, where the
/// coordinator that counts is that of the transaction. So every law of runs holds of runs in which members consult each other.
pub fn handed_verdicts_are_true()
    ensures { (members coords : ℕ) (s : Federation) (t m c other : ℕ) →
        AllInvariants s → AreWhole members coords s → BelongsTo s t c → AreTrueVerdicts (consultation s t m c other) s }
{}

/// No rule could tell more where everybody is in doubt (Skeen, Nonblocking commit protocols, SIGMOD 1981, blocking). Wherever the last yes is about to
/// arrive at the coordinator of a transaction, a stop of the coordinator in the write of its decision leaves one of two states: with the commit
/// record stable, where the transaction is settled, and without it, where it is presumed aborted. The coordinator is down in both, and the members,
/// the clients, the messages and the other coordinators are the same. No verdict is true of both states, so whatever rule a member decided by that
/// does not look at the coordinator that is down, its verdict would be untrue in one of them.
pub fn doubts_may_go_either_way()
    ensures stopped { (s : Federation) (t c m : ℕ) → AllInvariants s → AwaitsLastYes s t c m → GoesEitherWay (stopped_with New s t c m) (stopped_with Old s t c m) t c }
    ensures blocked { (s z : Federation) (t c m : ℕ) (verdict : Bool) → AllInvariants s → AllInvariants z → GoesEitherWay s z t c →
        IsTrueVerdict s (happening.Hand t m verdict) → IsTrueVerdict z (happening.Hand t m verdict) → ⊥ }
{}
