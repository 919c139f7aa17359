//! The word `order` of the judge.
ghost use Rattle.std.specs.Prelude.{◌≡◌, ℕ, List, Some, Err};
ghost use Rattle.co_outside.specs.Onward.{past, LiesAhead};
ghost use Rattle.co_check.specs.Checked.{IsEnding, IsCheck};
ghost use Rattle.co_check.specs.declared.client.Committed.{Committed};
ghost use Rattle.co_order.specs.Answer.{IsOrdered, IsAnswered, IsWriting, exit_code};

use crate::answer::Answer;
use crate::solve::answer_to;
use crate::text::answer_text;
use co_check::{CheckFault, Committed, Ending, VerdictFault, read_items};
use co_outside::{Sink, SinkFault, Source, put_all};
use std::alloc::Global;

impl Answer {
    /// The exit code that stands for it: 0 for an order, 14 where there is none, 16 where values repeat, and 17 where it is undecided.
    pub fn code(&self) -> u8
        ensures { result ≡ exit_code self.now }
    {
        match self {
            Answer::Order(_) => 0,
            Answer::Refuted(_) => 14,
            Answer::Repeat { .. } => 16,
            Answer::Undecided => 17,
        }
    }
}

/// Why there is no answer.
fn fault_of(fault: CheckFault) -> VerdictFault
    ensures { (text : List ℕ) → IsCheck text (Err fault) → IsOrdered text (Err result) }
{
    match fault {
        CheckFault::Read => VerdictFault::Read,
        CheckFault::Text { line } => VerdictFault::Text { line },
        CheckFault::Long { line } => VerdictFault::Long { line },
        CheckFault::Many => VerdictFault::Many,
        CheckFault::Memory => VerdictFault::Memory,
    }
}

/// Writes what is answered about these transactions.
fn write_answer<K: Sink>(
    alloc: Global,
    out: &mut K,
    history: &[Committed],
    answer: &Answer,
) -> Result<(), VerdictFault>
    ensures { IsWriting result }
{
    let text = answer_text(alloc, history, answer)?;
    match put_all(alloc, out, text.as_slice()) {
        Ok(()) => Ok(()),
        Err(SinkFault::Failed) => Err(VerdictFault::Write),
        Err(SinkFault::Memory) => Err(VerdictFault::Memory),
    }
}

/// Answers about these transactions, the first decided one first.
fn answer_here<K: Sink>(
    alloc: Global,
    out: &mut K,
    history: &[Committed],
) -> Result<Answer, VerdictFault>
    ensures { IsAnswered history.now result }
{
    let answer = answer_to(alloc, history)?;
    match write_answer(alloc, out, history, &answer) {
        Ok(()) => Ok(answer),
        Err(fault) => {
            drop(answer);
            Err(fault)
        }
    }
}

/// Answers that nothing is decided.
fn answer_nothing<K: Sink>(alloc: Global, out: &mut K) -> Result<Answer, VerdictFault>
    ensures { (history : List Committed) → IsAnswered history result }
{
    match write_answer(alloc, out, &[], &Answer::Undecided) {
        Ok(()) => Ok(Answer::Undecided),
        Err(fault) => Err(fault),
    }
}

/// Answers about the transactions that were kept.
fn answer_ending<K: Sink>(
    alloc: Global,
    out: &mut K,
    ending: Ending,
) -> Result<Answer, VerdictFault>
    ensures { (text : List ℕ) → IsEnding text ending → IsOrdered text result }
{
    let Ending { verdict, kept } = ending;
    drop(verdict);
    match kept {
        Some(kept) => {
            let answer = answer_here(alloc, out, kept.oldest_first());
            drop(kept);
            answer
        }
        None => answer_nothing(alloc, out),
    }
}

/// Reads a transcript, and writes whether its committed transactions run serially in some order, or why in none.
pub fn judge_order<S: Source, K: Sink>(
    alloc: Global,
    source: &mut S,
    out: &mut K,
) -> Result<Answer, VerdictFault>
    ensures ordered { (text : List ℕ) → S.left source.old ≡ Some text → IsOrdered text result }
    ensures heard { (text more : List ℕ) → LiesAhead (past S.gave S.ended S.went_on source.old) (past S.gave S.ended S.went_on source.new) text more → IsOrdered text result }
{
    match read_items(alloc, source, true) {
        Ok(ending) => answer_ending(alloc, out, ending),
        Err(fault) => Err(fault_of(fault)),
    }
}
