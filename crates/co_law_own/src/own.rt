//! Our own members do what the member that joins does.
ghost use Rattle.co_base.specs.declared.head.Kind.{Kind};
ghost use Rattle.co_law_own.specs.Part.{PlaysThePart};

/// A member of ours, of each kind, may be the one that joins where commitment ordering is shown to be necessary
/// (`order_is_necessary` of `co_law_order`; Raz, The principle of commitment ordering, VLDB 1992). There is a closed run over fresh
/// logs, each of its moves as it must be, in which the member answers the read of one transaction and installs it, and then answers
/// the write of another one and installs that. So what joins may be a member that keeps the rule in all it does.
pub fn own_members_play_the_part()
    ensures { (kind : Kind) → PlaysThePart kind }
{}
