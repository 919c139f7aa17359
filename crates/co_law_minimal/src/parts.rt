//! What leaving a part out means.
ghost use Rattle.std.specs.Prelude.{ℕ, ◌≡◌, ◌≢◌};
ghost use Rattle.co_state.specs.declared.engine_state.EngineState.{EngineState};
ghost use Rattle.co_state.specs.declared.verdict.Verdict.TheVariants.{VoteYes};
ghost use Rattle.co_state.specs.VotingRule.{vote_of};
ghost use Rattle.co_law_minimal.specs.Rule.{RulePart, vote_without};

/// The rule without one part says yes wherever the rule does, and no part is left out twice: where it says yes without one part and
/// without another, the rule says yes. So what is left out is that part alone.
pub fn one_part_is_left_out()
    ensures weaker { (b : EngineState) (t carried : ℕ) (left : RulePart) → vote_of b t carried ≡ VoteYes → vote_without left b t carried ≡ VoteYes }
    ensures alone { (b : EngineState) (t carried : ℕ) (left other : RulePart) → left ≢ other →
        vote_without left b t carried ≡ VoteYes → vote_without other b t carried ≡ VoteYes → vote_of b t carried ≡ VoteYes }
{}
