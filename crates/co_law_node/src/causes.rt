//! Exact causes: why a member answers yes, and why a transaction is decided.
ghost use Rattle.std.specs.Prelude.{ℕ};
ghost use Rattle.co_plain.specs.declared.coord_state.CoordState.{CoordState};
ghost use Rattle.co_plain.specs.declared.member_state.MemberState.{MemberState};
ghost use Rattle.co_law_node.specs.Causes.{YesIsExact, DecisionIsExact};

/// In every state, whole or not: a member answers yes to a prepare exactly where the transaction is active or nowhere, the
/// voting rule says yes and the prepare record was written; to a vote that is tried again, where it is active and was
/// asked so; and it decides alone exactly where it carries operations, the rule says yes and the records were written.
pub fn yes_is_exact()
    ensures { (m : ℕ) (x : MemberState) → YesIsExact m x }
{}

/// In every state: a coordinator decides exactly in two rows of its table, an idle transaction without participants whose
/// commit is asked, and one that lacks this yes alone, where the write leaves the commit record stable: it completes, or it
/// is stopped and its gate is open. It answers `committed` where the write completes.
pub fn decisions_are_exact()
    ensures { (c : ℕ) (y : CoordState) → DecisionIsExact c y }
{}
