//! Commitment ordering (Raz, VLDB 1992).
ghost use Rattle.std.specs.Prelude.{ℕ, List, ◌≡◌, map};
ghost use Rattle.co_message.specs.declared.event.Event.{Event};
ghost use Rattle.co_base.specs.declared.head.Kind.{Kind};
ghost use Rattle.co_plain.specs.declared.happening.Happening.{Happening};
ghost use Rattle.co_plain.specs.CommitmentOrder.{told_decisions, IsCommitmentOrdered};
ghost use Rattle.co_plain.specs.Decisions.{decided_numbers};
ghost use Rattle.co_plain.specs.Opening.{Found, opened};
ghost use Rattle.co_plain.specs.Runs.{run, transcript, lines};
ghost use Rattle.co_plain.specs.Premises.{AreTrueVerdicts, AreOpenable};
ghost use Rattle.co_law_moves.specs.MoveTraces.{items_along};

/// The items of every run are commitment ordered: where an operation of one decided transaction stands before a
/// conflicting one of another, it is decided first (Raz, The principle of commitment ordering, VLDB 1992). A transaction of
/// a coordinator is decided there, a local one at its member.
pub fn commitment_ordered()
    ensures { (kinds : List Kind) (coords : ℕ) (found_member found_coord : ℕ → Found) (hs : List Happening) →
        AreOpenable kinds coords found_member found_coord →
        AreTrueVerdicts hs (opened kinds coords found_member found_coord) →
        IsCommitmentOrdered kinds (items_along hs (opened kinds coords found_member found_coord)) }
{}

/// So is the transcript of every schedule: the items of its lines.
pub fn transcripts_ordered()
    ensures { (kinds : List Kind) (coords : ℕ) (found_member found_coord : ℕ → Found) (number : ℕ) (events : List Event) →
        AreOpenable kinds coords found_member found_coord →
        IsCommitmentOrdered kinds (map (λ i. i.what) (transcript number events (opened kinds coords found_member found_coord))) }
{}

/// The decisions that are read off the items of a run, each commit record at the node that decides, are its decision list;
/// and those read off the transcript of a schedule are that of its lines.
pub fn decisions_told()
    ensures runs { (kinds : List Kind) (coords : ℕ) (found_member found_coord : ℕ → Found) (hs : List Happening) →
        AreOpenable kinds coords found_member found_coord →
        AreTrueVerdicts hs (opened kinds coords found_member found_coord) →
        told_decisions (items_along hs (opened kinds coords found_member found_coord))
        ≡ decided_numbers (run hs (opened kinds coords found_member found_coord)).decided }
    ensures transcripts { (kinds : List Kind) (coords : ℕ) (found_member found_coord : ℕ → Found) (number : ℕ) (events : List Event) →
        AreOpenable kinds coords found_member found_coord →
        told_decisions (map (λ i. i.what) (transcript number events (opened kinds coords found_member found_coord)))
        ≡ decided_numbers (run (lines events) (opened kinds coords found_member found_coord)).decided }
{}
