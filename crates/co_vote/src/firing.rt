//! The timer.
ghost use Rattle.std.specs.Prelude.{◌≡◌, ◌≢◌, ◌↔◌};

/// Where a transaction stands at a member.
#[derive(Clone, Copy)]
pub enum Phase {
    /// It has operations here, and has not voted.
    Active,
    /// It voted yes, and the decision is not known here.
    Voted,
    /// It is committed here.
    Installed,
    /// It is not here.
    Absent,
}

/// What a timer does to a transaction at a member.
#[derive(Clone, Copy, PartialEq, Eq)]
pub enum Fire {
    /// It drops the transaction.
    Drop,
    /// It does nothing.
    Nothing,
}

/// What the timer of a transaction does at a member. It drops exactly an active one: a member that has
/// not voted may abort alone, and one that voted may not (Bernstein, Hadzilacos and Goodman 1987, on
/// two-phase commit).
pub fn timer(phase: Phase) -> Fire
    ensures drops { (result ≡ Fire.Drop) ↔ (phase ≡ Phase.Active) }
    ensures nothing { (result ≡ Fire.Nothing) ↔ (phase ≢ Phase.Active) }
{
    match phase {
        Phase::Active => Fire::Drop,
        Phase::Voted | Phase::Installed | Phase::Absent => Fire::Nothing,
    }
}
