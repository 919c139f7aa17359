//! What every run keeps over any opened logs, sound or not.
ghost use Rattle.std.specs.Prelude.{ℕ, List, ◌≡◌, reverse, None};
ghost use Rattle.co_base.specs.declared.head.Kind.{Kind};
ghost use Rattle.co_plain.specs.declared.happening.Happening.{Happening};
ghost use Rattle.co_plain.specs.Opening.{Found, OnlyOwnLogs, opened};
ghost use Rattle.co_plain.specs.MemberView.{first_refused_at_member};
ghost use Rattle.co_plain.specs.Runs.{run};
ghost use Rattle.co_law_moves.specs.OwnFacts.{KeptByEach};

/// Over any opened logs of the federation's own nodes, sound or not, each member's as its grammar allows it, and with
/// whatever verdicts are handed: every state has the facts that each node keeps by itself. Votes at a member do not
/// conflict; what a member keeps is what the client was told, each reply by its read rule; prepares and coordinators
/// carry the session's counts; who was not asked to end stands nowhere, and no begun number stands in an opened log; the
/// log tells what memory has, with nothing waiting but one abort record for each vote it still has; and a
/// coordinator's table, records and waiting ends agree with one another and with the decisions, each made once.
pub fn kept_by_each()
    ensures { (kinds : List Kind) (coords : ℕ) (found_member found_coord : ℕ → Found) (hs : List Happening) →
        OnlyOwnLogs kinds coords found_member found_coord →
        ((m : ℕ) → first_refused_at_member coords (reverse (found_member m).records) ≡ None) →
        KeptByEach (run hs (opened kinds coords found_member found_coord)) }
{}
