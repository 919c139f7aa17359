//! Logs that may be opened: those without records, those that the grammars allow, and those that a run leaves; and what
//! every run over them keeps.
ghost use Rattle.std.specs.Prelude.{ℕ, Bool, List, [], ◌≡◌, ◌≤◌, length, reverse, None};
ghost use Rattle.co_base.specs.declared.head.Kind.{Kind};
ghost use Rattle.co_plain.specs.declared.happening.Happening.{Happening};
ghost use Rattle.co_plain.specs.MemberView.{first_refused_at_member};
ghost use Rattle.co_plain.specs.Opening.{Found, OnlyOwnLogs, opened};
ghost use Rattle.co_plain.specs.Runs.{run};
ghost use Rattle.co_plain.specs.Premises.{AreTrueVerdicts, AreOwn, AreOwnLogs, MayBeOpened};
ghost use Rattle.co_law.specs.LeftLogs.{left};
ghost use Rattle.co_law.specs.WholeInvariants.{AreKeptWhole};

/// Every premise that the laws ask of opened logs holds of logs without records, whatever their spare files have: a spare
/// may be closed where nothing else was written.
pub fn empty_logs()
    ensures { (kinds : List Kind) (coords : ℕ) (found_member found_coord : ℕ → Found) →
        ((m : ℕ) → (found_member m).records ≡ []) → ((c : ℕ) → (found_coord c).records ≡ []) →
        MayBeOpened kinds coords found_member found_coord }
{}

/// Logs of the federation's own nodes that the grammar of members' logs allows have votes that name its coordinators.
pub fn allowed_logs_are_own()
    ensures { (kinds : List Kind) (coords : ℕ) (found_member found_coord : ℕ → Found) →
        OnlyOwnLogs kinds coords found_member found_coord →
        ((m : ℕ) → first_refused_at_member coords (reverse (found_member m).records) ≡ None) →
        AreOwnLogs kinds coords found_member found_coord }
{}

/// What a run leaves may be opened again, whatever the spare files have: every premise that the laws ask of opened logs
/// holds of the stable records of its state, where begins and operations named own nodes.
pub fn left_logs()
    ensures { (kinds : List Kind) (coords : ℕ) (found_member found_coord : ℕ → Found) (hs : List Happening) (closed_member closed_coord : ℕ → Bool) →
        1 ≤ coords → MayBeOpened kinds coords found_member found_coord →
        AreTrueVerdicts hs (opened kinds coords found_member found_coord) → AreOwn (length kinds) coords hs →
        MayBeOpened kinds coords
        (left (length kinds) (λ m. ((run hs (opened kinds coords found_member found_coord)).member m).log.stable) closed_member)
        (left coords (λ c. ((run hs (opened kinds coords found_member found_coord)).coord c).log.stable) closed_coord) }
{}

/// Over such logs every state has the invariants whole, in one place: all invariants of every run, that each message names the
/// coordinator of its transaction, that every commit record names who was asked about its transaction, and that nodes are whole.
pub fn whole_invariants()
    ensures { (kinds : List Kind) (coords : ℕ) (found_member found_coord : ℕ → Found) (hs : List Happening) →
        1 ≤ coords → MayBeOpened kinds coords found_member found_coord →
        AreTrueVerdicts hs (opened kinds coords found_member found_coord) → AreOwn (length kinds) coords hs →
        AreKeptWhole kinds coords (run hs (opened kinds coords found_member found_coord)) }
{}
