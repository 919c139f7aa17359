//! A line that is refused changes nothing, and what is refused before a node is asked.
ghost use Rattle.std.specs.Prelude.{◌≡◌, None, Some};
ghost use Rattle.co_message.specs.declared.answer.Answer.{Answer};
ghost use Rattle.co_message.specs.declared.event.Event.{Event};
ghost use Rattle.co_plain.specs.declared.happening.Happening.{Happening};
ghost use Rattle.co_plain.specs.Federation.{Federation, answers};
ghost use Rattle.co_plain.specs.Step.{step, step_line};
ghost use Rattle.co_law.specs.Refusals.{IsFirstRefusal, IsRefusal, refusal, reply_told};

/// In every state, reached by a run or not, and whatever happens: where the reply is `used`, `not begun`, `asked`,
/// `unsent`, `down`, `blocked`, `gone` or `too many`, the state is left as it was, the messages that were sent and
/// the decisions that were noted with it. A client that is refused may come again as if it had not come.
pub fn refused_lines()
    ensures { (s : Federation) (h : Happening) (a : Answer) →
        reply_told (step s h).items ≡ Some a → IsRefusal a → (step s h).state ≡ s }
{}

/// In every state, a line is answered `used`, `not begun`, `asked`, `unsent` or `down` exactly where the session or the wire
/// says so, or else the node of the event is down, in this order; then this is all that the line does. Every other answer is that of
/// a node that is up, or of a restart.
pub fn refusals_come_first()
    ensures refused { (s : Federation) (e : Event) (a : Answer) → refusal s e ≡ Some a → step_line s e ≡ answers s a }
    ensures admitted { (s : Federation) (e : Event) (a : Answer) →
        refusal s e ≡ None → reply_told (step_line s e).items ≡ Some a → IsFirstRefusal a → ⊥ }
{}
