//! Any state can be settled.
ghost use Rattle.std.specs.Prelude.{ℕ, List, ◌≤◌, length};
ghost use Rattle.co_base.specs.declared.head.Kind.{Kind};
ghost use Rattle.co_base.specs.Limits.{most_coordinators, most_members};
ghost use Rattle.co_plain.specs.declared.happening.Happening.{Happening};
ghost use Rattle.co_plain.specs.Opening.{Found, opened};
ghost use Rattle.co_plain.specs.Runs.{run};
ghost use Rattle.co_plain.specs.Premises.{AreTrueVerdicts, AreOwn, AreOwnLogs, AreOpenable};
ghost use Rattle.co_law_rounds.specs.CanBeSettled.{CanBeSettled};

/// Any state can be settled. Whatever a run left behind (transactions half done, messages lost, nodes down, log writes armed to
/// stop), once the armed stops are taken away some events of nodes and of the network end all that is open: no client has to act
/// and no node stops again. They are no more than the bound that is read off the state, and then what is durable and what is
/// installed at each member is what the serial run of the decided transactions leaves. So no run of the federation leads where it
/// cannot be led back from.
pub fn any_state_can_be_settled()
    ensures { (kinds : List Kind) (coords : ℕ) (found_member found_coord : ℕ → Found) (hs : List Happening) →
        length kinds ≤ most_members → coords ≤ most_coordinators →
        AreOpenable kinds coords found_member found_coord →
        AreOwnLogs kinds coords found_member found_coord →
        AreTrueVerdicts hs (opened kinds coords found_member found_coord) →
        AreOwn (length kinds) coords hs →
        CanBeSettled (opened kinds coords found_member found_coord) (run hs (opened kinds coords found_member found_coord)) }
{}
