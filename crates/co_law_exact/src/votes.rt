//! Why a vote is refused or held, and an operation blocked.
ghost use Rattle.std.specs.Prelude.{ℕ};
ghost use Rattle.co_state.specs.declared.engine_state.EngineState.{EngineState};
ghost use Rattle.co_plain.specs.declared.member_state.MemberState.{MemberState};
ghost use Rattle.co_law_exact.specs.Votes.{VerdictIsExact, NoIsExact, YesSentIsExact, HeldIsExact, OperationIsExact};

/// The voting rule (Raz, The principle of commitment ordering, VLDB 1992) in every state of an engine: operations were lost exactly
/// where their counts differ; a read is stale exactly where the counts agree and a later install wrote a key of it, the least such
/// key; the vote is held exactly where, besides, no read is stale and someone is in the way, the least one; and it is yes exactly
/// where none of these is so.
pub fn verdicts_are_exact()
    ensures { (b : EngineState) (t carried : ℕ) → VerdictIsExact b t carried }
{}

/// In every state, whole or not, a member answers no to a prepare exactly where the transaction is active or nowhere and the rule
/// finds operations lost or a read stale, and it sends a no exactly then; to a vote that is tried again exactly where the
/// transaction is active and was asked with a count for which the rule finds so. A local transaction gets the same answers
/// exactly where it has operations and the rule finds so.
pub fn no_is_exact()
    ensures { (m : ℕ) (x : MemberState) → NoIsExact m x }
{}

/// In every state, a member sends a yes on a prepare exactly where the rule grants it and the prepare record was written, or where
/// the transaction is voted already; on a vote that is tried again exactly where the rule grants it and the record was written.
/// So a yes that is sent is always of what stands in the log.
pub fn yes_sent_is_exact()
    ensures { (m : ℕ) (x : MemberState) → YesSentIsExact m x }
{}

/// A vote is held exactly where the rule finds someone in the way, and then nothing changes but that a prepare is marked: no
/// record is written, nothing is sent.
pub fn held_is_exact()
    ensures { (m : ℕ) (x : MemberState) → HeldIsExact m x }
{}

/// An operation answers `gone` exactly where the member keeps another number of operations than the client carries, `too many`
/// exactly where these agree and are 1,024, `blocked` exactly where they agree, are fewer, and a lock is in the way (the least
/// holder: strict two-phase locking, Bernstein, Hadzilacos and Goodman 1987); in each of these cases nothing changes. Else it is
/// done, with the reply of the read rule.
pub fn blocked_is_exact()
    ensures { (x : MemberState) → OperationIsExact x }
{}
