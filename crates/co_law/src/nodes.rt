//! Every state of a run has whole nodes, and they write what can be written.
ghost use Rattle.std.specs.Prelude.{ℕ, List, ◌≡◌, ◌≤◌, length, reverse, None};
ghost use Rattle.std.specs.List.{AllByRecursion};
ghost use Rattle.co_base.specs.declared.head.Kind.{Kind};
ghost use Rattle.co_base.specs.Limits.{most_coordinators, most_members};
ghost use Rattle.co_record.specs.Spelling.{IsWritable};
ghost use Rattle.co_plain.specs.declared.happening.Happening.{Happening};
ghost use Rattle.co_plain.specs.MemberView.{first_refused_at_member};
ghost use Rattle.co_plain.specs.CoordView.{first_refused_at_coord};
ghost use Rattle.co_plain.specs.Opening.{Found, OnlyOwnLogs, opened};
ghost use Rattle.co_plain.specs.Runs.{run};
ghost use Rattle.co_plain.specs.AllInvariants.{AllInvariants};
ghost use Rattle.co_plain.specs.Federation.{Federation};
ghost use Rattle.co_plain.specs.Step.{step};
ghost use Rattle.co_plain.specs.Premises.{AreOwn, IsOwn};
ghost use Rattle.co_law_node.specs.WholeNodes.{AreWhole, AreWritable};
ghost use Rattle.co_law_node.specs.Writable.{IsWithinBounds};

/// Over any opened logs of the federation's own nodes, sound or not, each as its grammar allows it, with whatever
/// verdicts are handed, and where begins and operations name own nodes: every state has whole nodes. So every
/// restart finds a log that is allowed, what a run leaves may be opened again, a node that is down is what its
/// records tell, and an operation finds its transaction neither voted nor installed. No client is told of more than
/// 1,024 operations of a transaction at a member, and each prepare that was sent names a coordinator of the federation and is about
/// some operations.
pub fn whole_nodes()
    ensures { (kinds : List Kind) (coords : ℕ) (found_member found_coord : ℕ → Found) (hs : List Happening) →
        1 ≤ coords → OnlyOwnLogs kinds coords found_member found_coord →
        ((m : ℕ) → first_refused_at_member coords (reverse (found_member m).records) ≡ None) →
        ((c : ℕ) → first_refused_at_coord (length kinds) (reverse (found_coord c).records) ≡ None) →
        AreOwn (length kinds) coords hs →
        AreWhole (length kinds) coords (run hs (opened kinds coords found_member found_coord)) }
{}

/// Each event keeps whole nodes, from any state that has them and all invariants, where a begin and an operation name own nodes.
pub fn each_event_keeps_nodes()
    ensures { (members coords : ℕ) (s : Federation) (h : Happening) →
        1 ≤ coords → AllInvariants s → AreWhole members coords s → IsOwn members coords h → AreWhole members coords (step s h).state }
{}

/// Where the records of the opened logs are within their bounds and in order, those of every state are so, and whatever a
/// node of the federation would force or fill next can be written: votes, decisions, and the votes and commits that a
/// checkpoint tells again, where the lists of the checkpoint are as short as a count of 32 bits tells.
pub fn writable_nodes()
    ensures { (kinds : List Kind) (coords : ℕ) (found_member found_coord : ℕ → Found) (hs : List Happening) →
        1 ≤ coords → coords ≤ most_coordinators → length kinds ≤ most_members → OnlyOwnLogs kinds coords found_member found_coord →
        ((m : ℕ) → first_refused_at_member coords (reverse (found_member m).records) ≡ None) →
        ((c : ℕ) → first_refused_at_coord (length kinds) (reverse (found_coord c).records) ≡ None) →
        ((m : ℕ) → AllByRecursion IsWithinBounds (found_member m).records) →
        ((c : ℕ) → AllByRecursion IsWritable (found_coord c).records) →
        AreOwn (length kinds) coords hs →
        AreWritable (length kinds) coords (run hs (opened kinds coords found_member found_coord)) }
{}
