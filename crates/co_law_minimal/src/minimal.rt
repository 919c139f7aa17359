//! What each part of the voting rule is for.
ghost use Rattle.std.specs.Prelude.{◌≢◌};
ghost use Rattle.co_law_minimal.specs.Minimal.{IsNeeded};
ghost use Rattle.co_law_minimal.specs.Rule.{RulePart};
ghost use Rattle.co_law_minimal.specs.Rule.{ActiveReader};

/// The voting rule is minimal (Raz, The principle of commitment ordering, VLDB 1992; the profile is this project's own). For each of
/// its parts but one there is a closed run over fresh logs in which a single vote leaves that part out, every other move is as it
/// must be, and committed transactions do not read what they read when run whole, one by one, in the order of their decisions: a
/// vote for operations that a crash lost; for a read that was overwritten; over a voted reader of what is written; over a voted
/// writer of what is written; and over a voted writer of what is read. The one part that is left is that an active reader of what is
/// written holds the vote: nothing is claimed of it here.
pub fn voting_rule_is_minimal()
    ensures { (left : RulePart) → left ≢ ActiveReader → IsNeeded left }
{}
