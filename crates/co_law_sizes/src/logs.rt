//! The lengths of logs.
ghost use Rattle.std.specs.Prelude.{ℕ, List, [], ◌∷◌, ◌++◌, ◌≡◌, ◌≤◌, ◌+◌, ◌*◌, length};
ghost use Rattle.std.specs.List.{AllByRecursion};
ghost use Rattle.co_base.specs.declared.head.Kind.{Kind};
ghost use Rattle.co_message.specs.declared.event.Event.{Event};
ghost use Rattle.co_plain.specs.declared.happening.Happening.{Happening};
ghost use Rattle.co_plain.specs.declared.happening.Happening.TheVariants.{Line, Disarm};
ghost use Rattle.co_plain.specs.Opening.{Found, opened};
ghost use Rattle.co_plain.specs.Runs.{run};
ghost use Rattle.co_plain.specs.Step.{step_line, disarmed};
ghost use Rattle.co_law_sizes.specs.LogRoom.{happening_bytes, room, most_generation, AreWithin};

/// In every run over logs without records, no log of a member or of a coordinator is longer than the room of what
/// happened, and none has a greater generation than one more than its checkpoints. So it is where each log write of one more
/// event completes, since no stop is armed.
pub fn logs_stay_within_their_room()
    ensures runs { (kinds : List Kind) (coords : ℕ) (found_member found_coord : ℕ → Found) (hs : List Happening) →
        ((m : ℕ) → (found_member m).records ≡ []) → ((c : ℕ) → (found_coord c).records ≡ []) →
        AreWithin (room hs) (most_generation hs) (run hs (opened kinds coords found_member found_coord)) }
    ensures next { (kinds : List Kind) (coords : ℕ) (found_member found_coord : ℕ → Found) (hs : List Happening) (e : Event) →
        ((m : ℕ) → (found_member m).records ≡ []) → ((c : ℕ) → (found_coord c).records ≡ []) →
        AreWithin (room (Disarm ∷ Line e ∷ hs)) (most_generation (Disarm ∷ Line e ∷ hs))
        (step_line (disarmed (run hs (opened kinds coords found_member found_coord))) e).state }
{}

/// Two runs need the room of both, 31 bytes counted once. A run needs 30 bytes for each happening and thrice the bytes of
/// an operation, where no operation has more than `most`; and it raises a generation by no more than one each time.
pub fn rooms_are_sums()
    ensures both { (hs more : List Happening) → room (hs ++ more) + 31 ≡ room hs + room more }
    ensures most { (most : ℕ) (hs : List Happening) → AllByRecursion (λ h. happening_bytes h ≤ most) hs →
        room hs ≤ 31 + length hs * (30 + 3 * most) }
    ensures generations { (hs : List Happening) → most_generation hs ≤ 1 + length hs }
{}
