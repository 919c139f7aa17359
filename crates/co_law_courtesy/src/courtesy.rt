//! What is left where no vote waits for active readers.
ghost use Rattle.std.specs.Prelude.{ℕ, List};
ghost use Rattle.co_base.specs.declared.head.Kind.{Kind};
ghost use Rattle.co_plain.specs.AllInvariants.{AllInvariants};
ghost use Rattle.co_plain.specs.Federation.{Federation};
ghost use Rattle.co_plain.specs.Invariants.{ReadsAreSerial};
ghost use Rattle.co_plain.specs.Moves.{Move, Guard, all_effects};
ghost use Rattle.co_plain.specs.Opening.{Found, opened};
ghost use Rattle.co_plain.specs.Premises.{AreOpenable};
ghost use Rattle.co_law_minimal.specs.Rule.{ActiveReader};
ghost use Rattle.co_law_courtesy.specs.Without.{GuardWithout, GuardsHoldWithout};

/// That a vote is held while an active transaction has read what it writes is a courtesy to that reader, and no promise rests on it.
/// Where every vote leaves this part out, of coordinators' transactions and of local ones, each move still keeps all invariants; so
/// over sound logs committed transactions read what they read when run whole, one by one, in the order of their decisions. The
/// reader pays: its read is stale then, and its own vote is refused. So of the voting rule (Raz, The principle of commitment
/// ordering, VLDB 1992; the profile is this project's own) just this part could go, and each other one is needed
/// (`voting_rule_is_minimal` of `co_law_minimal`).
pub fn active_readers_are_a_courtesy()
    ensures kept { (moves : List Move) (s : Federation) → AllInvariants s → GuardsHoldWithout ActiveReader moves s → AllInvariants (all_effects moves s) }
    ensures serial { (kinds : List Kind) (coords : ℕ) (found_member found_coord : ℕ → Found) (moves : List Move) →
        AreOpenable kinds coords found_member found_coord →
        GuardsHoldWithout ActiveReader moves (opened kinds coords found_member found_coord) →
        ReadsAreSerial (all_effects moves (opened kinds coords found_member found_coord)) }
    ensures weaker { (move : Move) (s : Federation) → Guard s move → GuardWithout ActiveReader s move }
{}
