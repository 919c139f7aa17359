//! What every record promises.
ghost use Rattle.std.specs.Prelude.{◌≡◌, ◌++◌, ℕ, List};
ghost use Rattle.co_record.specs.declared.record.Record.{Record};
ghost use Rattle.co_record.specs.Format.{IsVersion, oldest};
ghost use Rattle.co_record.specs.Spelling.{spelling, IsSpelledIn, IsSpelled};

/// In a version each record has one spelling, and no spelling begins another: where two stand at the front of
/// the same bytes, they are of one record, and the same bytes stand behind them.
/// A record of version 1 is one of version 2.
pub fn one_spelling()
    ensures once { (version : ℕ) (this that : Record) (behind_this behind_that : List ℕ) → IsVersion version → IsSpelledIn version this → IsSpelledIn version that →
        spelling version this ++ behind_this ≡ spelling version that ++ behind_that → (this ≡ that) × (behind_this ≡ behind_that) }
    ensures older { (item : Record) → IsSpelledIn oldest item → IsSpelled item }
{}
