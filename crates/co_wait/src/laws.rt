//! What holds of every knot.
ghost use Rattle.std.specs.Prelude.{◌≡◌, List, All, AllPairs, Contains};
ghost use Rattle.co_wait.specs.declared.knot.Knot.{Knot};
ghost use Rattle.co_wait.specs.declared.knot.Rank.{Rank};
ghost use Rattle.co_wait.specs.declared.wait.Wait.{Wait};
ghost use Rattle.co_wait.specs.Chains.{IsWaitBefore};
ghost use Rattle.co_wait.specs.Holding.{GoRound, KnotHolds, OrderHolds};
ghost use Rattle.co_wait.specs.Knots.{IsKnot};

/// Waits in their order have one knot.
pub fn waits_have_one_knot()
    ensures { (waits : List Wait) (one other : Knot) → AllPairs IsWaitBefore waits → IsKnot waits one → IsKnot waits other → one ≡ other }
{}

/// The knot of waits holds of them.
pub fn knots_hold()
    ensures { (waits : List Wait) (knot : Knot) → IsKnot waits knot → KnotHolds waits knot }
{}

/// Where an order holds of waits, no list of them goes round.
pub fn orders_have_no_cycle()
    ensures { (waits : List Wait) (ranks : List Rank) (legs : List Wait) → OrderHolds waits ranks → All (Contains waits) legs → GoRound legs → ⊥ }
{}
