//! What is final.
ghost use Rattle.std.specs.Prelude.{ℕ, List};
ghost use Rattle.co_base.specs.declared.node.Node.{Node};
ghost use Rattle.co_plain.specs.AllInvariants.{AllInvariants};
ghost use Rattle.co_plain.specs.declared.happening.Happening.{Happening};
ghost use Rattle.co_plain.specs.Decisions.{IsPresumedAborted};
ghost use Rattle.co_plain.specs.Federation.{Federation};
ghost use Rattle.co_plain.specs.Premises.{AreTrueVerdicts};
ghost use Rattle.co_plain.specs.Runs.{run};
ghost use Rattle.co_law_runs.specs.Finality.{IsFinal, IsLostAt, StaysLost};

/// From any state with all invariants, as every state of a run is: a transaction that is presumed aborted stays so, whatever
/// happens after: one that left its coordinator's table without a commit record (presumed abort, Mohan, Lindsay and Obermarck,
/// TODS 1986), and a local one that was asked to end or lost operations.
pub fn presumed_aborts_stay()
    ensures { (s : Federation) (hs : List Happening) (t : ℕ) →
        AllInvariants s → AreTrueVerdicts hs s → IsPresumedAborted s t → IsPresumedAborted (run hs s) t }
{}

/// Every timer that answers `dropped` or `aborted timer` is final, in every state with all invariants, quiet or not: no commit
/// record of its transaction becomes stable after it. One that was decided without operations may still act and be dropped; then
/// no further commit record of it becomes stable.
pub fn timers_are_final()
    ensures { (s : Federation) (t : ℕ) (at : Node) → AllInvariants s → IsFinal s t at }
{}

/// Where a member answered operations of a transaction and has lost it, it votes no yes on it after that, and no commit
/// record of it becomes stable there, neither by a decision nor by the member alone.
pub fn lost_transactions_stay_lost()
    ensures { (s : Federation) (hs : List Happening) (t m : ℕ) →
        AllInvariants s → IsLostAt s t m → AreTrueVerdicts hs s → StaysLost s hs t m }
{}
