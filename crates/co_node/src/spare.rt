//! The spare file of a node: it is closed, and then filled.
ghost use Rattle.std.specs.Prelude.{◌≡◌, ◌∷◌, [], ℕ, length, reverse, true, false, IfOk};
ghost use Rattle.std.specs.List.{AllByRecursion};
ghost use Rattle.co_base.specs.declared.node.Node.{Node};
ghost use Rattle.co_log.specs.LogView.{IsHeld};
ghost use Rattle.co_log.specs.Others.{OtherNodesStay};
ghost use Rattle.co_log.specs.Spare.{IsFillable, IsOverfull};
ghost use Rattle.co_plain.specs.LogWrite.{checkpoint_marks};
ghost use Rattle.co_plain.specs.declared.log_state.LogState.{LogState};
ghost use Rattle.co_node.specs.Answers.{IsAnswered};
ghost use Rattle.co_node.specs.NodeLog.{RepresentsLog};
ghost use Rattle.co_node.specs.Writes.{closing, filling, filled_with, HasWritten};

use crate::written::{Written, stopped};
use co_base::{Mark, MarkKind, Marks, Node};
use co_log::{Log, NodeFault};
use co_outside::Home;
use co_record::Record;
use std::alloc::{AllocError, Global};

/// Whether the spare file is closed, so that it may be filled.
pub fn spare_closed(log: &Log) -> bool
    requires { (owner : Node) × (l : LogState) × RepresentsLog owner log.now l }
    ensures { (owner : Node) (l : LogState) → RepresentsLog owner log.now l → result ≡ l.spare_closed }
{
    log.spare_closed()
}

/// Closes the spare file, in one log write of two device calls.
///
/// It is done, or stopped in the armed device call; then the log stands for what that leaves of the plain log. `Device` comes where the
/// directory failed, and only there; `Memory` leaves the old records; no other fault comes.
pub fn close<H: Home>(alloc: Global, log: &mut Log, home: &mut H) -> Result<Written, NodeFault>
    requires held { IsHeld (H.seen home.old) log.old }
    requires stands { (owner : Node) × (l : LogState) × RepresentsLog owner log.old l × (l.spare_closed ≡ false) }
    ensures written { (owner : Node) (l : LogState) → RepresentsLog owner log.old l → HasWritten (closing l) owner l log.new result }
    ensures answered { (owner : Node) (l : LogState) → RepresentsLog owner log.old l →
        IsAnswered owner log.old.spare.spot ⊥ l.stable l.stable log.new
        (H.seen home.old) (H.seen home.new) result }
    ensures rest { OtherNodesStay log.old.node (H.seen home.old) (H.seen home.new) }
{
    match log.close_spare(home) {
        Ok(()) => Ok(Written::Done {
            marks: Marks::new(alloc),
        }),
        Err(fault) => stopped(fault),
    }
}

/// A list of one mark that is still to be put, made before a log write so that none wants memory behind it.
fn room_for_one(alloc: Global) -> Result<Vec<Mark>, AllocError>
    ensures { IfOk result (λ marks. length marks.items ≡ 1) }
{
    let mut marks = Vec::new(alloc);
    marks.push(Mark {
        node: Node::Member(1),
        kind: MarkKind::Checkpoint,
        number: 0,
    })?;
    Ok(marks)
}

/// Fills the closed spare file with a header of the next generation and these records, the oldest first, in one log write. The spare file is
/// the current one then, the old one is the spare, and what waited is dropped.
///
/// It is done, or stopped in the armed device call; then the log stands for what that leaves of the plain log. `Full` comes where the
/// file would have more than 268,435,456 bytes, or there is no next generation, and changes nothing; `Device` where the directory failed, and
/// only there; `Memory` leaves the old records.
pub fn fill<H: Home>(
    alloc: Global,
    log: &mut Log,
    home: &mut H,
    items: &[Record],
) -> Result<Written, NodeFault>
    requires held { IsHeld (H.seen home.old) log.old }
    requires stands { (owner : Node) × (l : LogState) × RepresentsLog owner log.old l × (l.spare_closed ≡ true) }
    requires items { AllByRecursion IsFillable items.now }
    ensures written { (owner : Node) (l : LogState) → RepresentsLog owner log.old l → HasWritten (filling owner l (reverse items.now)) owner l log.new result }
    ensures answered { (owner : Node) (l : LogState) → RepresentsLog owner log.old l →
        IsAnswered owner log.old.spare.spot (IsOverfull log.old items.now) l.stable (filled_with owner l (reverse items.now)) log.new
        (H.seen home.old) (H.seen home.new) result }
    ensures rest { OtherNodesStay log.old.node (H.seen home.old) (H.seen home.new) }
{
    // What is read of either file is within its bounds, also where there is no memory.
    let _ = log.lengths();
    let mut marks = room_for_one(alloc)?;
    match log.fill_spare(home, items) {
        Ok(mark) => {
            marks[0] = mark;
            Ok(Written::Done {
                marks: Marks::of(marks),
            })
        }
        Err(fault) => stopped(fault),
    }
}

/// The generation that the one mark of a filled spare tells.
pub fn filled_generation(marks: &Marks) -> u32
    requires { length marks.now ≡ 1 }
    ensures { (owner : Node) (generation : ℕ) → marks.now ≡ checkpoint_marks owner generation → result ≡ generation }
{
    marks.at(0).number
}
