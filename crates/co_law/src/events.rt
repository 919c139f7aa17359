//! Every event is the list of moves that its table says.
ghost use Rattle.std.specs.Prelude.{◌≢◌};
ghost use Rattle.co_plain.specs.AllInvariants.{AllInvariants};
ghost use Rattle.co_plain.specs.declared.happening.Happening.{Happening};
ghost use Rattle.co_plain.specs.declared.happening.Happening.TheVariants as happening;
ghost use Rattle.co_plain.specs.Federation.{Federation};
ghost use Rattle.co_plain.specs.Premises.{IsTrueVerdict};
ghost use Rattle.co_plain.specs.Step.{step};
ghost use Rattle.co_law_moves.specs.MoveTraces.{IsItsMoves, IsDisarmedEverywhere};

/// From any state with all invariants, as every state of a run is, each event is its list of moves: they leave what the event
/// leaves, the guard of each holds where it is made, and the items of the event tell of these moves. To take all armed stops
/// away is no event.
pub fn events_are_moves()
    ensures { (s : Federation) (h : Happening) → AllInvariants s → IsTrueVerdict s h → h ≢ happening.Disarm → IsItsMoves s h }
{}

/// To take all armed stops away is to disarm each member and each coordinator.
pub fn disarming()
    ensures { (s : Federation) → IsDisarmedEverywhere s (step s happening.Disarm).state }
{}
