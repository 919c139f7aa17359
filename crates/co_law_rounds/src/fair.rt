//! Rounds that are fair in words, and what they come to.
ghost use Rattle.std.specs.Prelude.{ℕ, suc, List, ◌≤◌, ◌+◌, ◌*◌, length};
ghost use Rattle.co_base.specs.declared.head.Kind.{Kind};
ghost use Rattle.co_message.specs.declared.event.Event.{Event};
ghost use Rattle.co_plain.specs.declared.happening.Happening.{Happening};
ghost use Rattle.co_plain.specs.Opening.{Found, opened};
ghost use Rattle.co_plain.specs.Premises.{AreTrueVerdicts, AreOwn, AreOwnLogs, AreOpenable};
ghost use Rattle.co_plain.specs.Quiet.{open_pairs, open_count};
ghost use Rattle.co_plain.specs.Runs.{run, lines};
ghost use Rattle.co_law_settle.specs.SettlingTurns.{AllUp, IsUnarmed, SomethingOpen, NothingOpen};
ghost use Rattle.co_law_settle.specs.SettlingMeasure.{left_of, pairs_in, numbers_in_state};
ghost use Rattle.co_law_rounds.specs.FairRounds.{IsFairRound, AreFairRounds};
ghost use Rattle.co_law_rounds.specs.Rounds.{after_rounds};

/// A fair round lowers what is left to settle, in every state of a run in which all nodes are up, no stop is armed and something is
/// open. In a fair round first each member tries again to vote on each open transaction; behind that each coordinator sends again
/// what it awaits of each, and each member asks after each; and each message that an event of the round sends is delivered behind
/// it. In between come any other events of nodes, and any deliveries: late, again, in any order. Only where the round begins in a
/// quiet state, in which no exchange can help, it has to have one timer that ends a transaction, and nothing else. So a scheduler
/// need not know what helps.
pub fn fair_rounds_lower()
    ensures { (kinds : List Kind) (coords : ℕ) (found_member found_coord : ℕ → Found) (hs : List Happening) (round : List Event) →
        AreOpenable kinds coords found_member found_coord →
        AreOwnLogs kinds coords found_member found_coord →
        AreTrueVerdicts hs (opened kinds coords found_member found_coord) →
        AreOwn (length kinds) coords hs →
        IsUnarmed (run hs (opened kinds coords found_member found_coord)) →
        AllUp (run hs (opened kinds coords found_member found_coord)) →
        SomethingOpen (run hs (opened kinds coords found_member found_coord)) →
        IsFairRound (run hs (opened kinds coords found_member found_coord)) round →
        suc (left_of (pairs_in (run hs (opened kinds coords found_member found_coord))) (numbers_in_state (run hs (opened kinds coords found_member found_coord)))
        (run (lines round) (run hs (opened kinds coords found_member found_coord))))
        ≤ left_of (pairs_in (run hs (opened kinds coords found_member found_coord))) (numbers_in_state (run hs (opened kinds coords found_member found_coord)))
        (run hs (opened kinds coords found_member found_coord)) }
{}

/// So every transaction ends in a bounded number of fair rounds: after three for each open pair of a transaction and a member and
/// one for each open transaction, or more, nothing is open.
pub fn fair_rounds_end_every_transaction()
    ensures { (kinds : List Kind) (coords : ℕ) (found_member found_coord : ℕ → Found) (hs : List Happening) (rounds : List (List Event)) →
        AreOpenable kinds coords found_member found_coord →
        AreOwnLogs kinds coords found_member found_coord →
        AreTrueVerdicts hs (opened kinds coords found_member found_coord) →
        AreOwn (length kinds) coords hs →
        IsUnarmed (run hs (opened kinds coords found_member found_coord)) →
        AllUp (run hs (opened kinds coords found_member found_coord)) →
        AreFairRounds rounds (run hs (opened kinds coords found_member found_coord)) →
        3 * open_pairs (run hs (opened kinds coords found_member found_coord)) + open_count (run hs (opened kinds coords found_member found_coord)) ≤ length rounds →
        NothingOpen (after_rounds rounds (run hs (opened kinds coords found_member found_coord))) }
{}

/// And where all nodes are up and no stop is armed there is a fair round, in every state of a run: what is sent again, asked and
/// answered comes to an end, since each delivery sends only messages that stand later in an exchange.
pub fn there_is_a_fair_round()
    ensures { (kinds : List Kind) (coords : ℕ) (found_member found_coord : ℕ → Found) (hs : List Happening) →
        AreOpenable kinds coords found_member found_coord →
        AreOwnLogs kinds coords found_member found_coord →
        AreTrueVerdicts hs (opened kinds coords found_member found_coord) →
        AreOwn (length kinds) coords hs →
        IsUnarmed (run hs (opened kinds coords found_member found_coord)) →
        AllUp (run hs (opened kinds coords found_member found_coord)) →
        (round : List Event) × IsFairRound (run hs (opened kinds coords found_member found_coord)) round }
{}
