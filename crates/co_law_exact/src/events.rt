//! Which events decide a transaction, and what none changes.
ghost use Rattle.std.specs.Prelude.{ℕ, Bool, true, false, List, ◌≡◌};
ghost use Rattle.co_base.specs.declared.head.Kind.{Kind};
ghost use Rattle.co_message.specs.declared.event.Event.{Event};
ghost use Rattle.co_message.specs.declared.message.Message.TheVariants as message;
ghost use Rattle.co_plain.specs.AllInvariants.{AllInvariants};
ghost use Rattle.co_plain.specs.declared.happening.Happening.{Happening};
ghost use Rattle.co_plain.specs.declared.happening.Happening.TheVariants as happening;
ghost use Rattle.co_plain.specs.Decisions.{is_decided};
ghost use Rattle.co_plain.specs.Federation.{Federation};
ghost use Rattle.co_plain.specs.Opening.{Found, opened};
ghost use Rattle.co_plain.specs.Premises.{AreOpenable, AreTrueVerdicts, IsTrueVerdict};
ghost use Rattle.co_plain.specs.Runs.{run};
ghost use Rattle.co_plain.specs.Step.{step, step_line};
ghost use Rattle.co_law_node.specs.Causes.{Exactly};
ghost use Rattle.co_law_exact.specs.Deciding.{HasNodesOf, IsDecidedBy};
ghost use Rattle.co_law_exact.specs.Events.{OperationAnswersAreExact, SendsMessage, SendsNo, SendsYes, VoteAnswersAreExact};

/// From every state with all invariants, as every state of a run is: an event decides a transaction that was not decided exactly
/// where it is one of three. Its client asks a coordinator for the commit, and no member takes part; its client asks its own
/// member, and the voting rule says yes; or the last yes that lacks comes to its coordinator. In each case the node is up, and
/// the write of the commit record completes, or is stopped with its gate open. No other event decides, whatever it is.
pub fn decisions_are_exact_events()
    ensures { (s : Federation) (e : Event) (t : ℕ) →
        AllInvariants s → is_decided s.decided t ≡ false → Exactly (is_decided (step_line s e).state.decided t ≡ true) (IsDecidedBy s t e) }
{}

/// No verdict that one member hands to another decides a transaction, and no taking away of armed stops does.
pub fn handed_verdicts_decide_nothing()
    ensures verdicts { (s : Federation) (t m u : ℕ) (commit : Bool) →
        AllInvariants s → IsTrueVerdict s (happening.Hand t m commit) →
        is_decided (step s (happening.Hand t m commit)).state.decided u ≡ is_decided s.decided u }
    ensures disarming { (s : Federation) → (step s happening.Disarm).state.decided ≡ s.decided }
{}

/// In every run over sound logs, nothing that happens changes which numbers stand in the opened logs, nor which members and
/// coordinators there are.
pub fn opened_numbers_stay()
    ensures { (kinds : List Kind) (coords : ℕ) (found_member found_coord : ℕ → Found) (hs : List Happening) →
        AreOpenable kinds coords found_member found_coord →
        AreTrueVerdicts hs (opened kinds coords found_member found_coord) →
        HasNodesOf (opened kinds coords found_member found_coord) (run hs (opened kinds coords found_member found_coord)) }
{}

/// In every state, an event sends the yes of a transaction by a member to a coordinator exactly where it is one of two: a prepare of the
/// transaction to the member, which was sent and finds the member up, or a vote of it that is tried again there; and either the
/// transaction is voted already and for that coordinator, or the voting rule grants the vote and the write of the prepare record
/// completes. No other event sends a yes, whatever it is; a vote that is tried again sends none of who is voted.
pub fn yes_votes_are_exact_events()
    ensures { (s : Federation) (t m c : ℕ) (e : Event) → Exactly (SendsMessage (step_line s e) (message.Vote t m c true)) (SendsYes s t m c e) }
{}

/// In every state, an event sends the no of a transaction by a member to a coordinator exactly where it is a prepare of the transaction
/// to the member, which was sent and finds the member up, or a vote of it that is tried again there; the transaction is active there,
/// or nowhere and asked by the prepare; and the voting rule finds operations of it lost or a read stale. No other event sends a no.
pub fn no_votes_are_exact_events()
    ensures { (s : Federation) (t m c : ℕ) (e : Event) → Exactly (SendsMessage (step_line s e) (message.Vote t m c false)) (SendsNo s t m c e) }
{}

/// In every state, which events give an answer of the voting rule: a prepare that was sent and finds its member up, of who is active or
/// nowhere there; a vote that is tried again at a member that is up, of who is active and was asked; and the commit that the client of
/// a local transaction with operations asks of its own member, up, where it was not asked to end yet. The event answers `held` by the
/// least one in the way exactly where the rule finds that one, and then tells nothing else: no message is sent, and no record becomes
/// stable. It answers `no stale` of a key exactly where the rule finds the read of it stale, and `no lost` with two counts exactly
/// where the rule finds that the member keeps the one of the other. No other event gives such an answer.
pub fn vote_answers_are_exact_events()
    ensures { (s : Federation) (e : Event) → VoteAnswersAreExact s e }
{}

/// In every state, which events answer an operation: a read, a write, an erasure or a scan, whose session is begun, lets its client visit
/// the member and was not asked to end, at a member that is up. The event answers `gone` exactly where the member keeps another number
/// of operations than the client was told of, `too many` exactly where these agree and are 1,024, and `blocked` by the least holder
/// exactly where they agree, are fewer and a lock is in the way; then it tells nothing else. Else, and only then, it answers the reply
/// of the read rule. No other event gives such an answer.
pub fn operation_answers_are_exact_events()
    ensures { (s : Federation) (e : Event) → OperationAnswersAreExact s e }
{}
