//! How many transactions may be open, and so how many events settling takes.
ghost use Rattle.std.specs.Prelude.{ℕ, List, true, ◌||◌, ◌≡◌, ◌≤◌, ◌+◌, ◌*◌, length};
ghost use Rattle.std.specs.FinMap.{keys};
ghost use Rattle.co_base.specs.Limits.{most_transactions};
ghost use Rattle.co_base.specs.declared.head.Kind.{Kind};
ghost use Rattle.co_message.specs.declared.event.Event.{Event};
ghost use Rattle.co_plain.specs.Federation.{Federation};
ghost use Rattle.co_opening.specs.Found.{AreUnused};
ghost use Rattle.co_plain.specs.Opening.{Found, opened};
ghost use Rattle.co_plain.specs.Quiet.{IsOpen, open_count, settling_bound};
ghost use Rattle.co_plain.specs.Runs.{run, lines};
ghost use Rattle.co_state.specs.Table.{holds};
ghost use Rattle.co_settle.specs.Reached.{IsReached};

/// What is open was begun in this run or stands in an opened log. So no more transactions are open than there are such numbers.
pub fn open_ones_are_known()
    ensures known { (s : Federation) (t : ℕ) → IsReached s → IsOpen s t → (holds s.sessions t || holds s.used t) ≡ true }
    ensures few { (s : Federation) → IsReached s → open_count s ≤ length (keys s.sessions) + length (keys s.used) }
{}

/// Each event begins one transaction at most.
pub fn events_begin_few()
    ensures { (events : List Event) (s : Federation) → length (keys (run (lines events) s).sessions) ≤ length (keys s.sessions) + length events }
{}

/// So a run of schedule lines over fresh logs leaves no more transactions open than it has lines.
pub fn fresh_runs_leave_few_open()
    ensures { (kinds : List Kind) (coords : ℕ) (found_member found_coord : ℕ → Found) (events : List Event) →
        AreUnused found_member found_coord →
        IsReached (run (lines events) (opened kinds coords found_member found_coord)) →
        open_count (run (lines events) (opened kinds coords found_member found_coord)) ≤ length events }
{}

/// The events of settling are bounded by the members and by what is open: a federation of at most 16 members with at most
/// 65,536 open transactions takes 13,172,760 events at most.
pub fn settling_is_short()
    ensures each { (s : Federation) (members most : ℕ) → length s.kinds ≤ members → open_count s ≤ most →
        settling_bound s ≤ 24 + 3 * ((4 * members + 3) * most) }
    ensures largest { (s : Federation) → IsReached s → open_count s ≤ most_transactions → settling_bound s ≤ 13172760 }
{}
