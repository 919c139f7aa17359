//! Installed records are snapshots of the serial run.
ghost use Rattle.std.specs.Prelude.{ℕ, List, ◌≡◌};
ghost use Rattle.co_base.specs.declared.head.Kind.{Kind};
ghost use Rattle.co_plain.specs.AllInvariants.{AllInvariants};
ghost use Rattle.co_plain.specs.declared.happening.Happening.{Happening};
ghost use Rattle.co_plain.specs.Federation.{Federation};
ghost use Rattle.co_plain.specs.Opening.{Found, opened};
ghost use Rattle.co_plain.specs.Premises.{AreOpenable, AreTrueVerdicts, IsTrueVerdict};
ghost use Rattle.co_plain.specs.Runs.{run};
ghost use Rattle.co_plain.specs.Step.{step};
ghost use Rattle.co_law_snapshot.specs.Snapshot.{AreSnapshotsOf, InstalledAreSnapshots, SnapshotInvariants, decided_among};

/// A federation over logs that may be opened has the law and what is kept beside it.
pub fn opened_logs_have_snapshots()
    ensures { (kinds : List Kind) (coords : ℕ) (found_member found_coord : ℕ → Found) →
        AreOpenable kinds coords found_member found_coord → SnapshotInvariants (opened kinds coords found_member found_coord) }
{}

/// Each event keeps them, from any state that has them beside all invariants, reached by a run or not; and they have the law
/// among them.
pub fn each_event_keeps_snapshots()
    ensures kept { (s : Federation) (h : Happening) → AllInvariants s → SnapshotInvariants s → IsTrueVerdict s h → SnapshotInvariants (step s h).state }
    ensures law { (s : Federation) → SnapshotInvariants s → InstalledAreSnapshots s }
{}

/// So in every state of a run the records that a member has installed are those of the serial run of what it has installed; and
/// that run may be read over the decisions of any later state, since nothing that is decided later was installed by then.
pub fn installed_are_snapshots()
    ensures now { (kinds : List Kind) (coords : ℕ) (found_member found_coord : ℕ → Found) (hs : List Happening) →
        AreOpenable kinds coords found_member found_coord →
        AreTrueVerdicts hs (opened kinds coords found_member found_coord) →
        InstalledAreSnapshots (run hs (opened kinds coords found_member found_coord)) }
    ensures later { (kinds : List Kind) (coords : ℕ) (found_member found_coord : ℕ → Found) (hs more : List Happening) →
        AreOpenable kinds coords found_member found_coord →
        AreTrueVerdicts hs (opened kinds coords found_member found_coord) →
        AreTrueVerdicts more (run hs (opened kinds coords found_member found_coord)) →
        AreSnapshotsOf (run more (run hs (opened kinds coords found_member found_coord))) (run hs (opened kinds coords found_member found_coord)) }
{}

/// What is decided when a run goes on is installed nowhere before: of the decisions of any later state the same ones are installed
/// at the member as of those that were made by then. From any state with all invariants.
pub fn later_decisions_are_not_installed()
    ensures { (s : Federation) (more : List Happening) (m : ℕ) → AllInvariants s → AreTrueVerdicts more s →
        decided_among (s.member m).committed (run more s).decided ≡ decided_among (s.member m).committed s.decided }
{}
