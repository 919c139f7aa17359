//! What holds of every directory of logs over which a federation is opened.
ghost use Rattle.std.specs.Prelude.{ℕ, Bool, Option, ◌≡◌, ◌≤◌, length};
ghost use Rattle.std.specs.FinMap.{keys};
ghost use Rattle.co_base.specs.Limits.{most_transactions};
ghost use Rattle.co_base.specs.declared.head.Head.{Head};
ghost use Rattle.co_outside.specs.declared.spot.Spot.{Spot};
ghost use Rattle.co_outside.specs.Home.{File};
ghost use Rattle.co_plain.specs.Opening.{Found, used_numbers};
ghost use Rattle.co_durable.specs.declared.fault.WorldFault.{WorldFault};
ghost use Rattle.co_durable.specs.Told.{AreTold};
ghost use Rattle.co_opening.specs.Fit.{AreFit};
ghost use Rattle.co_opening.specs.Found.{AreFound};
ghost use Rattle.co_opening.specs.Opened.{IsUnopened, IsOfFound};

/// A directory that tells its files is refused for one cause of the files, or for none: where they are fit, and no more numbers stand in the logs
/// than there may be.
pub fn directories_are_opened_once()
    ensures refused { (file : Spot → Option File) (head : Head) (resume : Bool) (this that : WorldFault) → AreTold file (length head.kinds) head.coords → IsOfFound this → IsOfFound that →
        IsUnopened file head resume this → IsUnopened file head resume that → this ≡ that }
    ensures either { (file : Spot → Option File) (head : Head) (resume : Bool) (found_member found_coord : ℕ → Found) (fault : WorldFault) → AreTold file (length head.kinds) head.coords → IsOfFound fault →
        AreFit file head resume → AreFound file (length head.kinds) head.coords found_member found_coord → length (keys (used_numbers (length head.kinds) head.coords found_member found_coord)) ≤ most_transactions →
        IsUnopened file head resume fault → ⊥ }
{}
