//! Every transaction ends, in a bounded number of rounds in each of which something helps.
ghost use Rattle.std.specs.Prelude.{ℕ, List, ◌≡◌, ◌≤◌, ◌+◌, ◌*◌, length};
ghost use Rattle.co_base.specs.declared.head.Kind.{Kind};
ghost use Rattle.co_message.specs.declared.event.Event.{Event};
ghost use Rattle.co_plain.specs.declared.happening.Happening.{Happening};
ghost use Rattle.co_plain.specs.Opening.{Found, opened};
ghost use Rattle.co_plain.specs.Premises.{AreTrueVerdicts, AreOwn, AreOwnLogs, AreOpenable};
ghost use Rattle.co_plain.specs.Quiet.{IsOpen, open_pairs, open_count};
ghost use Rattle.co_plain.specs.Runs.{run};
ghost use Rattle.co_law_settle.specs.SettlingTurns.{AllUp, IsUnarmed, NothingOpen};
ghost use Rattle.co_law_rounds.specs.Rounds.{IsRound, AreRounds, after_rounds};

/// Every transaction ends, in a bounded number of rounds, from any state of a run in which no stop is armed and every node is
/// up. A round is any events of nodes and any deliveries, late, again or in vain, among which one exchange that can help goes
/// through without interruption, or one timer fires where it ends a transaction. Rounds are no more than three for each open pair
/// of a transaction and a member and one for each open transaction; where one is open there is another round; so after that many
/// nothing is open. Rounds that are fair in words help so (`fair_rounds_lower`).
pub fn every_transaction_ends()
    ensures few { (kinds : List Kind) (coords : ℕ) (found_member found_coord : ℕ → Found) (hs : List Happening) (rounds : List (List Event)) →
        AreOpenable kinds coords found_member found_coord →
        AreOwnLogs kinds coords found_member found_coord →
        AreTrueVerdicts hs (opened kinds coords found_member found_coord) →
        AreOwn (length kinds) coords hs →
        IsUnarmed (run hs (opened kinds coords found_member found_coord)) →
        AreRounds rounds (run hs (opened kinds coords found_member found_coord)) →
        length rounds ≤ 3 * open_pairs (run hs (opened kinds coords found_member found_coord)) + open_count (run hs (opened kinds coords found_member found_coord)) }
    ensures next { (kinds : List Kind) (coords : ℕ) (found_member found_coord : ℕ → Found) (hs : List Happening) (rounds : List (List Event)) (t : ℕ) →
        AreOpenable kinds coords found_member found_coord →
        AreOwnLogs kinds coords found_member found_coord →
        AreTrueVerdicts hs (opened kinds coords found_member found_coord) →
        AreOwn (length kinds) coords hs →
        IsUnarmed (run hs (opened kinds coords found_member found_coord)) →
        AreRounds rounds (run hs (opened kinds coords found_member found_coord)) →
        AllUp (run hs (opened kinds coords found_member found_coord)) →
        IsOpen (after_rounds rounds (run hs (opened kinds coords found_member found_coord))) t →
        (round : List Event) × IsRound (after_rounds rounds (run hs (opened kinds coords found_member found_coord))) round }
    ensures ended { (kinds : List Kind) (coords : ℕ) (found_member found_coord : ℕ → Found) (hs : List Happening) (rounds : List (List Event)) →
        AreOpenable kinds coords found_member found_coord →
        AreOwnLogs kinds coords found_member found_coord →
        AreTrueVerdicts hs (opened kinds coords found_member found_coord) →
        AreOwn (length kinds) coords hs →
        IsUnarmed (run hs (opened kinds coords found_member found_coord)) →
        AreRounds rounds (run hs (opened kinds coords found_member found_coord)) →
        AllUp (run hs (opened kinds coords found_member found_coord)) →
        length rounds ≡ 3 * open_pairs (run hs (opened kinds coords found_member found_coord)) + open_count (run hs (opened kinds coords found_member found_coord)) →
        NothingOpen (after_rounds rounds (run hs (opened kinds coords found_member found_coord))) }
{}
