//! What a member that is asked tells one in doubt.

/// What another member tells a member in doubt about a transaction (cooperative termination: Skeen, Nonblocking commit protocols,
/// SIGMOD 1981; Bernstein, Hadzilacos and Goodman 1987). Of several that apply, the first one is told.
#[derive(Clone, Copy, PartialEq, Eq)]
pub enum Told {
    /// The member that asks is down, or has not voted the transaction, or no longer.
    Settled,
    /// The other member is down.
    Down,
    /// The transaction is committed at the other member.
    Commit,
    /// The other member voted it, and is in doubt itself.
    InDoubt,
    /// The client was told of no operations of it at the other member in this run.
    Stranger,
    /// Its coordinator is up, and can be asked.
    Reachable,
    /// The other member took part and has not voted, or lost it; it can never vote yes any more, once it has let go of it.
    Abort,
}
