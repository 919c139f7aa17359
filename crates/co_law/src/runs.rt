//! Runs and transcripts, one behind another.
ghost use Rattle.std.specs.Prelude.{ℕ, List, ◌≡◌, ◌+◌, ◌++◌, length};
ghost use Rattle.co_message.specs.declared.event.Event.{Event};
ghost use Rattle.co_plain.specs.declared.happening.Happening.{Happening};
ghost use Rattle.co_plain.specs.Federation.{Federation};
ghost use Rattle.co_plain.specs.Runs.{run, transcript, lines};
ghost use Rattle.co_plain.specs.Premises.{AreTrueVerdicts};

/// A run goes on from the state that it came to; so one more happening is one more step at its end.
pub fn runs_go_on()
    ensures { (hs more : List Happening) (s : Federation) → run (hs ++ more) s ≡ run more (run hs s) }
{}

/// A transcript goes on behind its last line, from the state that its lines left.
pub fn transcripts_go_on()
    ensures { (number : ℕ) (events more : List Event) (s : Federation) →
        transcript number (events ++ more) s ≡ transcript number events s ++ transcript (number + length events) more (run (lines events) s) }
{}

/// Nothing that happens changes the opened logs, so the serial run starts from the same records in every state.
pub fn opened_logs_stay()
    ensures members { (hs : List Happening) (s : Federation) → (run hs s).opened_member ≡ s.opened_member }
    ensures coordinators { (hs : List Happening) (s : Federation) → (run hs s).opened_coord ≡ s.opened_coord }
{}

/// Schedule lines hand no verdict, so what is handed in a schedule is true.
pub fn lines_hand_no_verdict()
    ensures { (events : List Event) (s : Federation) → AreTrueVerdicts (lines events) s }
{}
