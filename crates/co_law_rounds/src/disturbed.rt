//! Whatever nodes do, what is left to settle does not grow.
ghost use Rattle.std.specs.Prelude.{ℕ, List, ◌≤◌, length};
ghost use Rattle.co_base.specs.declared.head.Kind.{Kind};
ghost use Rattle.co_base.specs.Limits.{most_coordinators, most_members};
ghost use Rattle.co_message.specs.declared.event.Event.{Event};
ghost use Rattle.co_plain.specs.declared.happening.Happening.{Happening};
ghost use Rattle.co_plain.specs.Opening.{Found, opened};
ghost use Rattle.co_plain.specs.Premises.{AreTrueVerdicts, AreOwn, AreOwnLogs, AreOpenable};
ghost use Rattle.co_plain.specs.Quiet.{settling_bound};
ghost use Rattle.co_plain.specs.Runs.{run, lines};
ghost use Rattle.co_plain.specs.Step.{step_line};
ghost use Rattle.co_law_settle.specs.SettlingTurns.{IsUnarmed, IsSettling};
ghost use Rattle.co_law_settle.specs.SettlingMeasure.{RaisesNothing, left_of, pairs_in, numbers_in_state};
ghost use Rattle.co_law_rounds.specs.CanBeSettled.{MakesItself, MakeThemselves};

/// In every state of a run in which no stop is armed, no event of a node raises what settling counts, between no transaction and
/// no member: not a message that comes late, again or for the first time, not a vote that is tried again, a timer, a question, a
/// commit that is told again, or a restart; whether the node is up or down, and whether the event helps or not. And none arms a
/// stop.
pub fn node_events_raise_nothing()
    ensures { (kinds : List Kind) (coords : ℕ) (found_member found_coord : ℕ → Found) (hs : List Happening) (e : Event) →
        AreOpenable kinds coords found_member found_coord →
        AreOwnLogs kinds coords found_member found_coord →
        AreTrueVerdicts hs (opened kinds coords found_member found_coord) →
        AreOwn (length kinds) coords hs →
        IsUnarmed (run hs (opened kinds coords found_member found_coord)) →
        MakesItself e →
        RaisesNothing (run hs (opened kinds coords found_member found_coord)) e
        × IsUnarmed (step_line (run hs (opened kinds coords found_member found_coord)) e).state }
{}

/// So what is left of the transactions that are open in a state does not grow, however many such events follow; and settling
/// that begins behind them takes no more events than the bound of the state before them. Only clients, crashes and stops can make
/// more to settle.
pub fn disturbances_do_not_delay_settling()
    ensures left { (kinds : List Kind) (coords : ℕ) (found_member found_coord : ℕ → Found) (hs : List Happening) (events : List Event) →
        AreOpenable kinds coords found_member found_coord →
        AreOwnLogs kinds coords found_member found_coord →
        AreTrueVerdicts hs (opened kinds coords found_member found_coord) →
        AreOwn (length kinds) coords hs →
        IsUnarmed (run hs (opened kinds coords found_member found_coord)) →
        MakeThemselves events →
        left_of (pairs_in (run hs (opened kinds coords found_member found_coord))) (numbers_in_state (run hs (opened kinds coords found_member found_coord)))
        (run (lines events) (run hs (opened kinds coords found_member found_coord)))
        ≤ left_of (pairs_in (run hs (opened kinds coords found_member found_coord))) (numbers_in_state (run hs (opened kinds coords found_member found_coord)))
        (run hs (opened kinds coords found_member found_coord)) }
    ensures bounded { (kinds : List Kind) (coords : ℕ) (found_member found_coord : ℕ → Found) (hs : List Happening) (events more : List Event) →
        length kinds ≤ most_members → coords ≤ most_coordinators →
        AreOpenable kinds coords found_member found_coord →
        AreOwnLogs kinds coords found_member found_coord →
        AreTrueVerdicts hs (opened kinds coords found_member found_coord) →
        AreOwn (length kinds) coords hs →
        IsUnarmed (run hs (opened kinds coords found_member found_coord)) →
        MakeThemselves events →
        IsSettling (run (lines events) (run hs (opened kinds coords found_member found_coord))) more →
        length more ≤ settling_bound (run hs (opened kinds coords found_member found_coord)) }
{}
