//! What holds of every directory of logs.
ghost use Rattle.std.specs.Prelude.{ℕ, List, Option, ◌≡◌};
ghost use Rattle.co_outside.specs.declared.spot.Spot.{Spot};
ghost use Rattle.co_outside.specs.Home.{File};
ghost use Rattle.co_serial.specs.declared.member_row.MemberRow.{MemberRow};
ghost use Rattle.co_durable.specs.declared.fault.WorldFault.{WorldFault};
ghost use Rattle.co_durable.specs.Durable.{IsDurable, IsUndurable};
ghost use Rattle.co_durable.specs.Told.{AreTold, IsOfFiles};

/// The files of a directory, where it tells them, give one list of durable records or one fault of the files, and
/// not both.
pub fn directories_are_read_once()
    ensures records { (file : Spot → Option File) (members coords : ℕ) (these those : List MemberRow) → AreTold file members coords →
        IsDurable file members coords these → IsDurable file members coords those → these ≡ those }
    ensures fault { (file : Spot → Option File) (members coords : ℕ) (this that : WorldFault) → AreTold file members coords → IsOfFiles this → IsOfFiles that →
        IsUndurable file members coords this → IsUndurable file members coords that → this ≡ that }
    ensures either { (file : Spot → Option File) (members coords : ℕ) (rows : List MemberRow) (fault : WorldFault) → AreTold file members coords → IsOfFiles fault →
        IsDurable file members coords rows → IsUndurable file members coords fault → ⊥ }
{}
