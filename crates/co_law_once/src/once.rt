//! What is written at most once.
ghost use Rattle.std.specs.Prelude.{ℕ, List};
ghost use Rattle.co_base.specs.declared.head.Kind.{Kind};
ghost use Rattle.co_base.specs.declared.node.Node.{Node};
ghost use Rattle.co_plain.specs.declared.happening.Happening.{Happening};
ghost use Rattle.co_plain.specs.CommitmentOrder.{trace_of};
ghost use Rattle.co_plain.specs.Opening.{Found, opened};
ghost use Rattle.co_plain.specs.Premises.{AreTrueVerdicts, AreOpenable};
ghost use Rattle.co_law_moves.specs.MoveTraces.{items_along, messages_in};
ghost use Rattle.co_law_once.specs.Costs.{AreFour, IsWithoutLoss};
ghost use Rattle.co_law_once.specs.Records.{AreForcedFew, ArePreparedOnce, CostsAsPresumedAbort};
ghost use Rattle.co_law_once.specs.Once.{AtMostOnce, AreEndedOnce, AreForcedOnce, moves_along, tells_commit_here};

/// In every run each member forces the vote of a transaction at most once, and its install at most once, and each transaction is
/// decided at most once, at one node; whatever messages come late and again, whatever is asked or resent, whichever nodes crash. A
/// local transaction forces its vote and its install together, and is decided by it. So a transaction costs at most two forced
/// writes at each member, and one at its coordinator, as two-phase commit with presumed abort does at best (Mohan, Lindsay and
/// Obermarck, Transaction management in the R* distributed database management system, TODS 1986).
pub fn records_are_forced_once()
    ensures { (kinds : List Kind) (coords : ℕ) (found_member found_coord : ℕ → Found) (hs : List Happening) →
        AreOpenable kinds coords found_member found_coord →
        AreTrueVerdicts hs (opened kinds coords found_member found_coord) →
        AreForcedOnce (moves_along hs (opened kinds coords found_member found_coord)) }
{}

/// So the prepare record of a transaction becomes stable at most once at each member in a run. A write that is stopped with its gate
/// closed loses the record, and the transaction does not vote there again: its operations are lost with it. A checkpoint carries the
/// votes that it finds over to the new file, and is told as a checkpoint alone. Nor does a transaction vote that the opened logs know:
/// it voted in an earlier run. (Where it was aborted there, the logs know it no more, and its number may be begun anew.)
pub fn prepares_are_told_once()
    ensures { (kinds : List Kind) (coords : ℕ) (found_member found_coord : ℕ → Found) (hs : List Happening) →
        AreOpenable kinds coords found_member found_coord →
        AreTrueVerdicts hs (opened kinds coords found_member found_coord) →
        ArePreparedOnce (opened kinds coords found_member found_coord) (items_along hs (opened kinds coords found_member found_coord)) }
{}

/// So the items of a run tell of each commit record of a transaction at most once at each node: a decision that is repeated
/// installs nothing again.
pub fn commits_are_told_once()
    ensures { (kinds : List Kind) (coords : ℕ) (found_member found_coord : ℕ → Found) (hs : List Happening) (at : Node) (t : ℕ) →
        AreOpenable kinds coords found_member found_coord →
        AreTrueVerdicts hs (opened kinds coords found_member found_coord) →
        AtMostOnce (tells_commit_here at t) (trace_of (items_along hs (opened kinds coords found_member found_coord))) }
{}

/// So the end record of a transaction becomes stable at most once in a run, at one node. An end is not forced: it waits in memory for
/// the next commit of its coordinator, a crash loses it and a checkpoint drops it. After a crash the transaction is there again
/// without its acknowledgements, and a new end may be written; but once an end is stable, none is written again. Nor is one of a
/// transaction that the opened logs know and that has no commit without end in them: so the end becomes stable at most once in all
/// runs over the same files. (`log c1 end 7` stands in the transcript where it became stable.)
pub fn ends_are_told_once()
    ensures { (kinds : List Kind) (coords : ℕ) (found_member found_coord : ℕ → Found) (hs : List Happening) →
        AreOpenable kinds coords found_member found_coord →
        AreTrueVerdicts hs (opened kinds coords found_member found_coord) →
        AreEndedOnce (opened kinds coords found_member found_coord) (items_along hs (opened kinds coords found_member found_coord)) }
{}

/// Where nothing of a transaction is lost or mended, a commit costs four messages a participant: its prepare, its vote, its
/// decision and its acknowledgement, as the transcript tells them, each at most once between the transaction and a member, and no
/// question. Its client asks once, each prepare and each decision is delivered at most once, and neither a timer nor a vote that is
/// tried again nor anything that is sent again or handed is of it; whatever happens to other transactions and to the nodes. With
/// the two forced writes at each member and the one at its coordinator (`records_are_forced_once`) these are the counts of two-phase
/// commit with presumed abort (Mohan, Lindsay and Obermarck, TODS 1986).
pub fn commits_cost_four_messages()
    ensures { (kinds : List Kind) (coords : ℕ) (found_member found_coord : ℕ → Found) (hs : List Happening) (t m : ℕ) →
        AreOpenable kinds coords found_member found_coord →
        AreTrueVerdicts hs (opened kinds coords found_member found_coord) →
        IsWithoutLoss t hs →
        AreFour t m (messages_in (items_along hs (opened kinds coords found_member found_coord))) }
{}

/// So in every run, whatever is lost, repeated or resent, the items tell of at most two forced records of a transaction at each member,
/// its prepare and its commit, and of at most one at all coordinators together, its decision. A local transaction has its two in one
/// write, and none at a coordinator. An end and an abort are not forced: each waits for the next write.
pub fn forced_records_are_few()
    ensures { (kinds : List Kind) (coords : ℕ) (found_member found_coord : ℕ → Found) (hs : List Happening) (t m : ℕ) →
        AreOpenable kinds coords found_member found_coord →
        AreTrueVerdicts hs (opened kinds coords found_member found_coord) →
        AreForcedFew t m (items_along hs (opened kinds coords found_member found_coord)) }
{}

/// So a commit without loss costs what two-phase commit with presumed abort pays for it, as the transcript tells: at most four messages
/// between the transaction and each member, two forced records at the member, and one at the coordinators (Mohan, Lindsay and
/// Obermarck, TODS 1986).
pub fn commits_cost_as_presumed_abort()
    ensures { (kinds : List Kind) (coords : ℕ) (found_member found_coord : ℕ → Found) (hs : List Happening) (t m : ℕ) →
        AreOpenable kinds coords found_member found_coord →
        AreTrueVerdicts hs (opened kinds coords found_member found_coord) →
        IsWithoutLoss t hs →
        CostsAsPresumedAbort t m (items_along hs (opened kinds coords found_member found_coord)) }
{}
