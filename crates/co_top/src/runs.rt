//! What holds of every run.
ghost use Rattle.std.specs.Prelude.{ℕ, Bool, ◌≡◌, ◌⊎◌, true, List, [], length, Option};
ghost use Rattle.co_outside.specs.declared.spot.Spot.{Spot};
ghost use Rattle.co_outside.specs.Home.{File};
ghost use Rattle.co_durable.specs.Told.{AreTold};
ghost use Rattle.co_top.specs.Ran.{Ran, IsSameRun, IsSoundlyFound, AreLeftBy, AreLeftByFault};

/// A run over fresh or sound logs leaves logs that a run over them finds sound, where it has as many members and coordinators: at its end, and behind a
/// fault too. So all that is promised of a run over sound logs is promised of each run that goes on over what runs left.
pub fn runs_go_on()
    ensures { (resume : Bool) (input more : List ℕ) (old new : Spot → Option File) (r : Ran resume input old) (next : Ran true more new) → IsSoundlyFound r → AreLeftBy r new ⊎ AreLeftByFault r new →
        length next.head.kinds ≡ length r.head.kinds → next.head.coords ≡ r.head.coords → AreTold new (length r.head.kinds) r.head.coords → IsSoundlyFound next }
{}

/// Over files that are told there is one run to the end of an input: two have the same head and the same events, over the same logs.
pub fn there_is_one_run()
    ensures { (resume : Bool) (input : List ℕ) (old : Spot → Option File) (this that : Ran resume input old) → AreTold old (length this.head.kinds) this.head.coords → this.rest ≡ [] → that.rest ≡ [] → IsSameRun this that }
{}
