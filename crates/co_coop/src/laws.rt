//! What holds where every doubt takes its turn.
ghost use Rattle.std.specs.Prelude.{ℕ, true, ◌≡◌, ◌≢◌, ◌↔◌, List, ◌∷◌, ◌++◌};
ghost use Rattle.co_plain.specs.Federation.{Federation};
ghost use Rattle.co_plain.specs.Premises.{AreTrueVerdicts};
ghost use Rattle.co_plain.specs.Quiet.{IsMember};
ghost use Rattle.co_plain.specs.Runs.{run};
ghost use Rattle.co_cluster.specs.Listed.{IsDoubt};
ghost use Rattle.co_cluster.specs.declared.doubting.Doubt.{Doubt};
ghost use Rattle.co_settle.specs.Reached.{IsReached};
ghost use Rattle.co_coop.specs.Remains.{AreOfOthers, CannotTell};
ghost use Rattle.co_coop.specs.Resolution.{AreDoubts, NameHomes, resolution};

/// Whatever doubts take their turns, one after the other, every verdict that is handed is true where it is handed. So what they leave is a state
/// of a run over sound logs again, and all that is promised of such runs is promised of the run with its hands.
pub fn resolutions_are_true()
    ensures verdicts { (s : Federation) (doubts : List Doubt) → IsReached s → NameHomes s doubts → AreTrueVerdicts (resolution s doubts) s }
    ensures reached { (s : Federation) (doubts : List Doubt) → IsReached s → NameHomes s doubts → IsReached (run (resolution s doubts) s) }
{}

/// The doubts that a federation lists name the coordinators of their transactions.
pub fn doubts_name_homes()
    ensures { (s : Federation) (doubts : List Doubt) → IsReached s → AreDoubts s doubts → NameHomes s doubts }
{}

/// Of doubts that take their turns, each once, that of a member which is still up at the end remains exactly where, when its turn came, each
/// other member could tell no verdict: it was down, or had the transaction voted, or had it active or nowhere, where the client was told of no operations of it
/// there in this run or its coordinator was up.
pub fn doubts_remain_exactly()
    ensures { (s : Federation) (before after : List Doubt) (doubt : Doubt) →
        IsReached s → AreDoubts s (before ++ doubt ∷ after) → AreOfOthers doubt before → AreOfOthers doubt after →
        ((run (resolution s (before ++ doubt ∷ after)) s).member doubt.member).up ≡ true →
        IsDoubt (run (resolution s (before ++ doubt ∷ after)) s) doubt
        ↔ ((other : ℕ) → IsMember s other → other ≢ doubt.member → CannotTell (run (resolution s before) s) doubt other) }
{}
