//! Settling as a whole.
ghost use Rattle.std.specs.Prelude.{ℕ, List, ◌∷◌, ◌++◌, ◌≡◌, ◌≤◌, length};
ghost use Rattle.co_base.specs.declared.head.Kind.{Kind};
ghost use Rattle.co_base.specs.declared.node.Node.{Node};
ghost use Rattle.co_base.specs.Limits.{most_coordinators, most_members};
ghost use Rattle.co_message.specs.declared.event.Event.{Event};
ghost use Rattle.co_message.specs.declared.event.Event.TheVariants as event;
ghost use Rattle.co_plain.specs.declared.happening.Happening.{Happening};
ghost use Rattle.co_plain.specs.Federation.{Federation};
ghost use Rattle.co_plain.specs.Opening.{Found, opened};
ghost use Rattle.co_plain.specs.Quiet.{IsMember, IsOpen, IsQuiet, settling_bound};
ghost use Rattle.co_plain.specs.Runs.{run, lines};
ghost use Rattle.co_plain.specs.Settling.{SettlesBy};
ghost use Rattle.co_plain.specs.Step.{disarmed};
ghost use Rattle.co_plain.specs.Premises.{AreTrueVerdicts, AreOwn, AreOwnLogs, AreOpenable};
ghost use Rattle.co_law_settle.specs.SettlingTurns.{Turn, turn_events, IsNext, IsSettling, Settles, SomethingOpen, NothingOpen};
ghost use Rattle.co_law_settle.specs.SettledRecords.{HoldsSerially};

/// Settling goes on by the turn that the state calls for, as long as something is open.
pub fn settling_goes_on()
    ensures { (s : Federation) (events : List Event) (turn : Turn) →
        IsSettling s events →
        SomethingOpen (run (lines events) (disarmed s)) →
        IsNext (run (lines events) (disarmed s)) turn →
        IsSettling s (events ++ turn_events (run (lines events) (disarmed s)) turn) }
{}

/// And as long as something is open there is such a turn, however far settling has come.
pub fn settling_has_a_next_turn()
    ensures { (kinds : List Kind) (coords : ℕ) (found_member found_coord : ℕ → Found) (hs : List Happening) (events : List Event) (t : ℕ) →
        AreOpenable kinds coords found_member found_coord →
        AreOwnLogs kinds coords found_member found_coord →
        AreTrueVerdicts hs (opened kinds coords found_member found_coord) →
        AreOwn (length kinds) coords hs →
        IsSettling (run hs (opened kinds coords found_member found_coord)) events →
        IsOpen (run (lines events) (disarmed (run hs (opened kinds coords found_member found_coord)))) t →
        SettlesBy (run (lines events) (disarmed (run hs (opened kinds coords found_member found_coord)))) }
{}

/// Settling takes no more events than its bound says, however far it has come. The bound has 24 restarts, so the
/// federation has at most 16 members and 8 coordinators.
pub fn settling_is_bounded()
    ensures { (kinds : List Kind) (coords : ℕ) (found_member found_coord : ℕ → Found) (hs : List Happening) (events : List Event) →
        length kinds ≤ most_members → coords ≤ most_coordinators →
        AreOpenable kinds coords found_member found_coord →
        AreOwnLogs kinds coords found_member found_coord →
        AreTrueVerdicts hs (opened kinds coords found_member found_coord) →
        AreOwn (length kinds) coords hs →
        IsSettling (run hs (opened kinds coords found_member found_coord)) events →
        length events ≤ settling_bound (run hs (opened kinds coords found_member found_coord)) }
{}

/// And it comes to its end: there are events that settle, after which nothing is open.
pub fn settling_ends()
    ensures { (kinds : List Kind) (coords : ℕ) (found_member found_coord : ℕ → Found) (hs : List Happening) →
        AreOpenable kinds coords found_member found_coord →
        AreOwnLogs kinds coords found_member found_coord →
        AreTrueVerdicts hs (opened kinds coords found_member found_coord) →
        AreOwn (length kinds) coords hs →
        (events : List Event) × Settles (run hs (opened kinds coords found_member found_coord)) events }
{}

/// There is one way to settle: a state calls for one turn alone, since a transaction is in the table of one coordinator.
pub fn settling_is_one()
    ensures { (kinds : List Kind) (coords : ℕ) (found_member found_coord : ℕ → Found) (hs : List Happening) (events others : List Event) →
        AreOpenable kinds coords found_member found_coord →
        AreOwnLogs kinds coords found_member found_coord →
        AreTrueVerdicts hs (opened kinds coords found_member found_coord) →
        AreOwn (length kinds) coords hs →
        Settles (run hs (opened kinds coords found_member found_coord)) events →
        Settles (run hs (opened kinds coords found_member found_coord)) others →
        events ≡ others }
{}

/// Each timer of settling stands in a quiet state: every node is up, and no exchange can help.
pub fn timers_stand_in_quiet_states()
    ensures { (kinds : List Kind) (coords : ℕ) (found_member found_coord : ℕ → Found) (hs : List Happening)
        (events before after : List Event) (t : ℕ) (at : Node) →
        IsSettling (run hs (opened kinds coords found_member found_coord)) events →
        events ≡ before ++ event.Timer t at ∷ after →
        IsQuiet (run (lines before) (disarmed (run hs (opened kinds coords found_member found_coord)))) }
{}

/// In every state of a run where nothing is open, the durable records of each member, and those that are installed in
/// its memory, are the ones that the serial run of the decided transactions leaves.
pub fn settled_records()
    ensures { (kinds : List Kind) (coords : ℕ) (found_member found_coord : ℕ → Found) (hs : List Happening) (m : ℕ) →
        AreOpenable kinds coords found_member found_coord →
        AreTrueVerdicts hs (opened kinds coords found_member found_coord) →
        NothingOpen (run hs (opened kinds coords found_member found_coord)) →
        IsMember (run hs (opened kinds coords found_member found_coord)) m →
        HoldsSerially (opened kinds coords found_member found_coord) (run hs (opened kinds coords found_member found_coord)) m }
{}

/// So it is after settling.
pub fn settling_leaves_serial_records()
    ensures { (kinds : List Kind) (coords : ℕ) (found_member found_coord : ℕ → Found) (hs : List Happening)
        (events : List Event) (m : ℕ) →
        AreOpenable kinds coords found_member found_coord →
        AreOwnLogs kinds coords found_member found_coord →
        AreTrueVerdicts hs (opened kinds coords found_member found_coord) →
        AreOwn (length kinds) coords hs →
        Settles (run hs (opened kinds coords found_member found_coord)) events →
        IsMember (run (lines events) (disarmed (run hs (opened kinds coords found_member found_coord)))) m →
        HoldsSerially (opened kinds coords found_member found_coord)
        (run (lines events) (disarmed (run hs (opened kinds coords found_member found_coord)))) m }
{}
