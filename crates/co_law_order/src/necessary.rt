//! Commitment ordering suffices for serializability, and among autonomous members it is necessary.
ghost use Rattle.std.specs.Prelude.{ℕ, false, List, [], ◌∷◌, ◌++◌, ◌≡◌, ◌≢◌, length};
ghost use Rattle.co_base.specs.declared.head.Kind.{Kind};
ghost use Rattle.co_plain.specs.Numbers.{IsAmong};
ghost use Rattle.co_plain.specs.CommitmentOrder.{Trace, decisions_in, Precedes, StandsBefore};
ghost use Rattle.co_law_order.specs.Joining.{items_of_member, is_begun_locally, next_member, IsGlobal, IsJoinedBy};
ghost use Rattle.co_law_order.specs.Ordering.{IsOrderedTrace, IsSerializable, StandsOnce};

/// A trace that is commitment ordered, and in which each transaction is decided once, is serializable: by the order of decisions.
pub fn order_suffices()
    ensures { (kinds : List Kind) (trace : List Trace) →
        StandsOnce (decisions_in trace) → IsOrderedTrace kinds trace → IsSerializable kinds trace }
{}

/// Where a member let t precede u while u was decided first, whatever made that trace, one more member may join, of any kind, that
/// keeps the order by itself, with the same decisions and nothing changed elsewhere, and no order of distinct numbers serializes
/// the whole (Raz, The principle of commitment ordering, VLDB 1992). There u reads a record right before its decision and t
/// writes that record right before its own, and each is installed right behind its decision: the new member does nothing but one
/// transaction after the other. So members that know nothing of each other but decisions cannot do without the rule. It says so
/// of histories, not of schedulers as programs; and of transactions of coordinators, since local ones operate at one member
/// alone.
pub fn order_is_necessary()
    ensures { (kinds : List Kind) (kind : Kind) (trace : List Trace) (t u m : ℕ) →
        items_of_member (next_member kinds) trace ≡ [] → IsAmong m (length kinds) →
        StandsOnce (decisions_in trace) → is_begun_locally trace t ≡ false → is_begun_locally trace u ≡ false → t ≢ u →
        Precedes kinds trace t u m → StandsBefore (decisions_in trace) u t →
        (more : List Trace) × IsJoinedBy kinds kind trace more × ¬ (IsSerializable (kinds ++ kind ∷ []) more) }
{}

/// So a trace of coordinators' transactions, each decided once, is commitment ordered exactly where it stays serializable whatever
/// member joins it that keeps the order by itself: the rule is what members can have that know nothing of each other but
/// decisions, no less and no more.
pub fn order_is_exact()
    ensures enough { (kinds : List Kind) (kind : Kind) (trace more : List Trace) → IsGlobal kinds trace →
        IsOrderedTrace kinds trace → IsJoinedBy kinds kind trace more → IsSerializable (kinds ++ kind ∷ []) more }
    ensures needed { (kinds : List Kind) (trace : List Trace) → IsGlobal kinds trace →
        ((kind : Kind) (more : List Trace) → IsJoinedBy kinds kind trace more → IsSerializable (kinds ++ kind ∷ []) more) →
        IsOrderedTrace kinds trace }
{}
