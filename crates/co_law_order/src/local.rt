//! Commitment ordering is a matter of each member alone.
ghost use Rattle.std.specs.Prelude.{ℕ, true, List, ◌∷◌, ◌++◌, ◌≡◌, ◌≢◌};
ghost use Rattle.co_base.specs.declared.head.Kind.{Kind};
ghost use Rattle.co_base.specs.declared.op.Op.{Op};
ghost use Rattle.co_base.specs.declared.reply.Reply.{Reply};
ghost use Rattle.co_message.specs.declared.item.ItemKind.{ItemKind};
ghost use Rattle.co_plain.specs.Numbers.{has_number};
ghost use Rattle.co_plain.specs.CommitmentOrder.{Trace, Operated, decisions_in, installs, trace_of, IsCommitmentOrdered};
ghost use Rattle.co_law_order.specs.Ordering.{IsOrderedTrace};
ghost use Rattle.co_law_order.specs.OwnParts.{own_part};

/// Items are commitment ordered exactly where the part of each member is, taken alone: its own operations and installs, with the
/// begins and the one list of decisions, which each part tells whole. So a member that keeps to the rule needs to know nothing of
/// what the others do but what is decided (its part has no operation of another member, and of commit records elsewhere those
/// alone that decide): serializability of all together follows from a test that each makes by itself (Raz,
/// The principle of commitment ordering, VLDB 1992).
pub fn ordering_is_local()
    ensures whole { (kinds : List Kind) (items : List ItemKind) →
        IsCommitmentOrdered kinds items → (m : ℕ) → IsOrderedTrace kinds (own_part m (trace_of items)) }
    ensures parts { (kinds : List Kind) (items : List ItemKind) →
        ((m : ℕ) → IsOrderedTrace kinds (own_part m (trace_of items))) → IsCommitmentOrdered kinds items }
    ensures decisions { (trace : List Trace) (m : ℕ) → decisions_in (own_part m trace) ≡ decisions_in trace }
    ensures operations { (trace before rest : List Trace) (m t n : ℕ) (o : Op) (reply : Reply) →
        own_part m trace ≡ before ++ Operated t n o reply ∷ rest → n ≡ m }
    ensures installs { (trace : List Trace) (m t n : ℕ) →
        n ≢ m → installs (own_part m trace) n t ≡ true → has_number (decisions_in trace) t ≡ true }
{}
