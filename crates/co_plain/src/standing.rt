//! Where a transaction stands at a member.

/// Where a transaction stands at a member.
#[derive(Clone, Copy)]
pub enum Standing {
    /// It has operations there and has not voted.
    IsActive,
    /// It voted yes and waits for the decision.
    IsVoted,
    /// It is committed there.
    IsInstalled,
    /// Nothing of it is there.
    IsAbsent,
}
