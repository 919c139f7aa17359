//! One turn of settling.
ghost use Rattle.std.specs.Prelude.{ℕ, List, ◌≤◌, ◌+◌, ◌*◌, length};
ghost use Rattle.co_base.specs.declared.head.Kind.{Kind};
ghost use Rattle.co_message.specs.declared.event.Event.{Event};
ghost use Rattle.co_plain.specs.declared.happening.Happening.{Happening};
ghost use Rattle.co_plain.specs.Federation.{Federation};
ghost use Rattle.co_plain.specs.Opening.{Found, opened};
ghost use Rattle.co_plain.specs.Quiet.{IsOpen, IsEnabled, Exchange, open_pairs, open_count, IsBusy};
ghost use Rattle.co_plain.specs.Runs.{run};
ghost use Rattle.co_plain.specs.Settling.{SettlesBy, exchange_txn};
ghost use Rattle.co_plain.specs.Premises.{AreTrueVerdicts, AreOwn, AreOwnLogs, AreOpenable};
ghost use Rattle.co_law_settle.specs.SettlingTurns.{Turn, Exchanges, turn_events, after_turn, AllUp, CanTurn, IsUnarmed, IsServed, IsAnswered, AreServed};
ghost use Rattle.co_law_settle.specs.SettlingMeasure.{AreCounted, TurnLowers, left_of, pairs_in, numbers_in_state};

/// In every state of a run where something is open there is a next turn: a first node that is down; or, where all are up,
/// a first exchange that can help; or the state is quiet, and there is a first timer.
pub fn settling_is_never_stuck()
    ensures { (kinds : List Kind) (coords : ℕ) (found_member found_coord : ℕ → Found) (hs : List Happening) (t : ℕ) →
        AreOpenable kinds coords found_member found_coord →
        AreOwnLogs kinds coords found_member found_coord →
        AreTrueVerdicts hs (opened kinds coords found_member found_coord) →
        AreOwn (length kinds) coords hs →
        IsOpen (run hs (opened kinds coords found_member found_coord)) t →
        SettlesBy (run hs (opened kinds coords found_member found_coord)) }
{}

/// Where no stop is armed and all nodes are up, each event of an exchange that can help finds its message sent and its
/// node up.
pub fn exchanges_are_served()
    ensures { (kinds : List Kind) (coords : ℕ) (found_member found_coord : ℕ → Found) (hs : List Happening) (e : Exchange) →
        AreOpenable kinds coords found_member found_coord →
        AreOwnLogs kinds coords found_member found_coord →
        AreTrueVerdicts hs (opened kinds coords found_member found_coord) →
        AreOwn (length kinds) coords hs →
        IsUnarmed (run hs (opened kinds coords found_member found_coord)) →
        AllUp (run hs (opened kinds coords found_member found_coord)) →
        IsEnabled (run hs (opened kinds coords found_member found_coord)) e →
        AreServed (turn_events (run hs (opened kinds coords found_member found_coord)) (Exchanges e))
        (run hs (opened kinds coords found_member found_coord)) }
{}

/// So its node answers it, and no refusal of the wire or of a node that is down stands before.
pub fn events_are_answered()
    ensures { (s : Federation) (e : Event) → IsServed s e → IsAnswered s e }
{}

/// Where no stop is armed, no event of a turn raises anything of what is left, an exchange and a timer lower it by one at
/// least, and no turn takes more events than it lowers the events that are left.
pub fn turns_lower()
    ensures { (kinds : List Kind) (coords : ℕ) (found_member found_coord : ℕ → Found) (hs : List Happening) (turn : Turn) →
        AreOpenable kinds coords found_member found_coord →
        AreOwnLogs kinds coords found_member found_coord →
        AreTrueVerdicts hs (opened kinds coords found_member found_coord) →
        AreOwn (length kinds) coords hs →
        IsUnarmed (run hs (opened kinds coords found_member found_coord)) →
        CanTurn (run hs (opened kinds coords found_member found_coord)) turn →
        TurnLowers (run hs (opened kinds coords found_member found_coord)) turn }
{}

/// An exchange that can help is of a busy transaction: one that is collecting or committed at a coordinator, voted at a
/// member, or asked for its vote there.
pub fn exchanges_are_of_busy_ones()
    ensures { (s : Federation) (e : Exchange) → IsEnabled s e → IsBusy s (exchange_txn e) }
{}

/// Where no stop is armed, no turn makes a transaction busy that was not. So while settling goes on, an exchange can help no
/// transaction but those that were busy when it began.
pub fn turns_make_none_busy()
    ensures { (kinds : List Kind) (coords : ℕ) (found_member found_coord : ℕ → Found) (hs : List Happening) (turn : Turn) (t : ℕ) →
        AreOpenable kinds coords found_member found_coord →
        AreOwnLogs kinds coords found_member found_coord →
        AreTrueVerdicts hs (opened kinds coords found_member found_coord) →
        AreOwn (length kinds) coords hs →
        IsUnarmed (run hs (opened kinds coords found_member found_coord)) →
        CanTurn (run hs (opened kinds coords found_member found_coord)) turn →
        IsBusy (after_turn (run hs (opened kinds coords found_member found_coord)) turn) t →
        IsBusy (run hs (opened kinds coords found_member found_coord)) t }
{}

/// In every state, reached by a run or not: what is left is among the open pairs and the open transactions, at most three
/// for each pair and one for each transaction.
pub fn what_is_left_is_counted()
    ensures counted { (s : Federation) → AreCounted (pairs_in s) (numbers_in_state s) s }
    ensures most { (s : Federation) → left_of (pairs_in s) (numbers_in_state s) s ≤ 3 * open_pairs s + open_count s }
{}
