//! Only timers are left.
ghost use Rattle.std.specs.Prelude.{ℕ, List, length};
ghost use Rattle.co_base.specs.declared.head.Kind.{Kind};
ghost use Rattle.co_plain.specs.declared.happening.Happening.{Happening};
ghost use Rattle.co_plain.specs.Opening.{Found, opened};
ghost use Rattle.co_plain.specs.Quiet.{IsOpen, IsQuiet};
ghost use Rattle.co_plain.specs.Runs.{run};
ghost use Rattle.co_plain.specs.Premises.{AreTrueVerdicts, AreOwn, AreOwnLogs, AreOpenable};
ghost use Rattle.co_law_runs.specs.OnlyTimers.{SomeTimerEnds};

/// Where the run is quiet and a transaction is open, some open transaction has not voted: it is active at a member or
/// idle at its coordinator. The timer there answers `dropped` or `aborted timer`, and after it no commit record of that
/// transaction becomes stable in any continuation. Begins and operations name nodes of the federation, and so do the
/// opened logs.
pub fn only_timers()
    ensures { (kinds : List Kind) (coords : ℕ) (found_member found_coord : ℕ → Found) (hs : List Happening) (t : ℕ) →
        AreOpenable kinds coords found_member found_coord →
        AreOwnLogs kinds coords found_member found_coord →
        AreTrueVerdicts hs (opened kinds coords found_member found_coord) →
        AreOwn (length kinds) coords hs →
        IsQuiet (run hs (opened kinds coords found_member found_coord)) →
        IsOpen (run hs (opened kinds coords found_member found_coord)) t →
        SomeTimerEnds (run hs (opened kinds coords found_member found_coord)) }
{}
