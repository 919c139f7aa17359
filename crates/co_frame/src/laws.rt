//! What a writer of logs may rely on.
ghost use Rattle.std.specs.Prelude.{◌≡◌, ◌≢◌, ℕ, [], ◌∷◌, ◌++◌, List};
ghost use Rattle.std.specs.List.{AllByRecursion};
ghost use Rattle.co_frame.specs.LogText.{GateWalk, HasPassed, IsBatch, IsLogText, IsBrokenAt, batch_text, gated, open_gate};

/// Whatever is written behind a gate that is not open, the batches stay as they were.
pub fn closed_gate_hides()
    ensures { (batches : List (List ℕ)) (gate : ℕ) (rest : List ℕ) → AllByRecursion IsBatch batches →
        gate ≢ open_gate → IsLogText (gated batches ++ gate ∷ rest) batches }
{}

/// Opening the gate in front of a batch with a gate behind it that is not open adds that batch alone.
pub fn open_gate_adds()
    ensures { (batches : List (List ℕ)) (records : List ℕ) (gate : ℕ) (rest : List ℕ) →
        AllByRecursion IsBatch batches → IsBatch records → gate ≢ open_gate →
        IsLogText (gated batches ++ open_gate ∷ (batch_text records ++ gate ∷ rest)) (batches ++ records ∷ []) }
{}

/// A text is a log text in one way, or broken at one place, and not both.
pub fn one_reading()
    ensures text { (bytes : List ℕ) (these those : List (List ℕ)) → IsLogText bytes these → IsLogText bytes those → these ≡ those }
    ensures broken { (bytes : List ℕ) (this that : ℕ) → IsBrokenAt bytes this → IsBrokenAt bytes that → this ≡ that }
    ensures either { (bytes : List ℕ) (batches : List (List ℕ)) (at : ℕ) → IsLogText bytes batches → IsBrokenAt bytes at → ⊥ }
{}

/// The batches that a walk has passed are the first ones of its text.
pub fn passed_come_first()
    ensures { (walk : GateWalk) (passed batches : List (List ℕ)) → HasPassed walk passed →
        IsLogText walk.source batches → (more : List (List ℕ)) × (batches ≡ passed ++ more) }
{}
