//! What every run keeps, from logs that may be opened and with verdicts that are true where they are handed.
ghost use Rattle.std.specs.Prelude.{ℕ, Bool, List, [], ◌≡◌, reverse, None};
ghost use Rattle.co_base.specs.declared.head.Kind.{Kind};
ghost use Rattle.co_plain.specs.declared.happening.Happening.{Happening};
ghost use Rattle.co_plain.specs.Opening.{Found, OnlyOwnLogs, opened};
ghost use Rattle.co_plain.specs.MemberView.{first_refused_at_member};
ghost use Rattle.co_plain.specs.SoundLogs.{AreSound};
ghost use Rattle.co_plain.specs.Runs.{run};
ghost use Rattle.co_plain.specs.Promises.{SerialReads, LogsAlone, LogsStaySound, Acknowledged, MembersAgree};
ghost use Rattle.co_plain.specs.Premises.{AreTrueVerdicts, AreOpenable};

/// Committed transactions read what they read when run whole, one by one, in the order of their decisions
/// (Bernstein, Hadzilacos and Goodman 1987, serializability).
pub fn serial_reads()
    ensures { (kinds : List Kind) (coords : ℕ) (found_member found_coord : ℕ → Found) (hs : List Happening) →
        AreOpenable kinds coords found_member found_coord →
        AreTrueVerdicts hs (opened kinds coords found_member found_coord) →
        SerialReads (opened kinds coords found_member found_coord) hs }
{}

/// At any moment, after any crash too, the stable records of the logs alone give the records of the serial run.
pub fn logs_alone()
    ensures { (kinds : List Kind) (coords : ℕ) (found_member found_coord : ℕ → Found) (hs : List Happening) →
        AreOpenable kinds coords found_member found_coord →
        AreTrueVerdicts hs (opened kinds coords found_member found_coord) →
        LogsAlone (opened kinds coords found_member found_coord) hs }
{}

/// Every transaction for which an event answered `committed` is decided, and each is decided once.
pub fn acknowledged()
    ensures { (kinds : List Kind) (coords : ℕ) (found_member found_coord : ℕ → Found) (hs : List Happening) →
        AreOpenable kinds coords found_member found_coord →
        AreTrueVerdicts hs (opened kinds coords found_member found_coord) →
        Acknowledged (opened kinds coords found_member found_coord) hs }
{}

/// No two members decide a transaction differently: where one has it among its committed ones, no other had it
/// undecided at one moment and nowhere at a later one. A crash that loses it counts.
pub fn agreement()
    ensures { (kinds : List Kind) (coords : ℕ) (found_member found_coord : ℕ → Found) (hs : List Happening) →
        AreOpenable kinds coords found_member found_coord →
        AreTrueVerdicts hs (opened kinds coords found_member found_coord) →
        MembersAgree (opened kinds coords found_member found_coord) hs }
{}

/// The logs of every run are sound again.
pub fn sound_logs()
    ensures { (kinds : List Kind) (coords : ℕ) (found_member found_coord : ℕ → Found) (hs : List Happening) →
        AreOpenable kinds coords found_member found_coord →
        AreTrueVerdicts hs (opened kinds coords found_member found_coord) →
        LogsStaySound (opened kinds coords found_member found_coord) hs }
{}

/// Sound logs may be opened where nothing stands in logs of other nodes, and each member's log is as its grammar
/// allows it.
pub fn readable_logs()
    ensures { (kinds : List Kind) (coords : ℕ) (found_member found_coord : ℕ → Found) →
        AreSound (λ m. (found_member m).records) (λ c. (found_coord c).records) →
        OnlyOwnLogs kinds coords found_member found_coord →
        ((m : ℕ) → first_refused_at_member coords (reverse (found_member m).records) ≡ None) →
        AreOpenable kinds coords found_member found_coord }
{}

/// Logs in which nothing was written may be opened, whether their spare files are closed or not.
pub fn fresh_logs()
    ensures { (kinds : List Kind) (coords : ℕ) (closed_member closed_coord : ℕ → Bool) →
        AreOpenable kinds coords (λ m. record { records = []; spare_closed = closed_member m }) (λ c. record { records = []; spare_closed = closed_coord c }) }
{}
