//! Coordinators are whole.
ghost use Rattle.std.specs.Prelude.{ℕ, false, ◌≡◌, ◌≤◌, reverse, None};
ghost use Rattle.std.specs.List.{AllByRecursion};
ghost use Rattle.co_base.specs.Limits.{most_coordinators, most_members};
ghost use Rattle.co_record.specs.Spelling.{IsWritable};
ghost use Rattle.co_plain.specs.declared.coord_state.CoordState.{CoordState};
ghost use Rattle.co_plain.specs.CoordView.{first_refused_at_coord};
ghost use Rattle.co_plain.specs.Opening.{Found, opened_coord};
ghost use Rattle.co_law_node.specs.WholeCoords.{HasCommitsAlone, IsWholeCoord, CoordStaysWhole};
ghost use Rattle.co_plain.specs.Numbers.{IsAmong};
ghost use Rattle.co_law_node.specs.Writable.{IsWritableCoord, CoordStaysWritable};

/// Each event of a whole coordinator leaves it whole, however its log write ends, and a crash at any moment too: who is
/// undecided in the table has no commit record, the committed entries are the commits without end, and every record is
/// allowed where it stands. So a coordinator that is down has committed entries alone.
pub fn coordinators_stay_whole()
    ensures { (members c : ℕ) (y : CoordState) → IsWholeCoord members y → CoordStaysWhole members c y }
{}

/// A coordinator that is opened over a log which its grammar allows, sound or not, is whole.
pub fn opened_coordinators_are_whole()
    ensures { (members c : ℕ) (found : Found) →
        first_refused_at_coord members (reverse found.records) ≡ None → IsWholeCoord members (opened_coord c found) }
{}

/// What a whole coordinator writes can be written, and stays so with each event: its records, the decision of each
/// transaction that collects votes, and a filled spare. The participants that a commit names are members, ascending.
pub fn coordinators_stay_writable()
    ensures { (members c : ℕ) (y : CoordState) → members ≤ most_members → IsAmong c most_coordinators →
        IsWholeCoord members y → IsWritableCoord c y → CoordStaysWritable members c y }
{}

/// So is a coordinator that is opened over an allowed log whose records can be written.
pub fn opened_coordinators_are_writable()
    ensures { (members c : ℕ) (found : Found) → members ≤ most_members → IsAmong c most_coordinators →
        first_refused_at_coord members (reverse found.records) ≡ None → AllByRecursion IsWritable found.records →
        IsWritableCoord c (opened_coord c found) }
{}

/// A coordinator that is down has committed entries alone: whoever was undecided in its table is presumed aborted
/// (Mohan, Lindsay and Obermarck, TODS 1986).
pub fn down_coordinators_have_commits_alone()
    ensures { (members : ℕ) (y : CoordState) → IsWholeCoord members y → y.up ≡ false → HasCommitsAlone y }
{}
